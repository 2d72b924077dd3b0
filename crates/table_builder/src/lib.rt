// The builder of a client table: entries pushed in ascending order of their keys. A builder is held in the 640 bytes of
// the table to be.
#![tactic(auto)]

pub mod inner;

ghost use Rattle.std.specs.Prelude.{◌≡◌, replicate};
ghost use Rattle.wire.specs.Size.{table_bytes};
ghost use Rattle.table_view.specs.Read.{told_done};
ghost use Rattle.table_builder.specs.Push.{told_pushed, push_told, after_push, build_told, after_build};

use table_view::{Key, NotATable};
use wire::sizes::{TABLE_SIZE, Table};

// Why a push adds nothing.
#[derive(Clone, Copy, Debug, PartialEq, Eq)]
pub enum PushError {
    BadBuilder,
    BadEntry,
    NoRoom,
}

// A builder with no entry.
pub fn new() -> Table
    ensures { result ≡ replicate table_bytes 0 }
{
    [0u8; TABLE_SIZE]
}

// One entry more, for a value of n bytes, or of up to n. An error leaves every byte.
#[tactic(auto, using(crate::proofs::Laws::added_fits, crate::proofs::Laws::added_key))]
pub fn push(b: &mut Table, key: Key, n: u16, variable: bool) -> Result<(), PushError>
    ensures { (told_pushed result ≡ push_told b.old key.0 n variable) × (b.new ≡ after_push b.old key.0 n variable) }
{
    inner::judge(b, key, n, variable)?;
    inner::add(b, key, n, variable);
    Ok(())
}

// The builder's table, with every value zero. A builder that breaks the rules leaves every byte of the table.
#[tactic(auto, unfolding(crate::specs::Push::build_told, crate::specs::Push::after_build))]
pub fn build(b: &Table, table: &mut Table) -> Result<(), NotATable>
    ensures { (told_done result ≡ build_told b.now) × (table.new ≡ after_build b.now table.old) }
{
    if !inner::is_builder(b) {
        return Err(NotATable);
    }
    *table = *b;
    Ok(())
}
