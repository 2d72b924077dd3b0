// A copy of what is pending, at work: its clause says that it never fails, and this makes one.
use crate::memory::Stock;
use std::test::Fail;
use wire::sizes::RECORD_SIZE;

#[test]
fn a_copy_holds_the_same(rt: HostRuntime) -> Result<(), Fail> {
    let mut stock = Stock::new();
    stock.list.try_push([7; RECORD_SIZE])?;
    stock.store.try_push(1)?;
    stock.store.try_push(2)?;
    let copy = stock.copy()?;
    assert_eq!(rt; copy.list.as_slice(), [[7; RECORD_SIZE]].as_slice());
    assert_eq!(rt; copy.store.as_slice(), [1, 2].as_slice());
    Ok(())
}
