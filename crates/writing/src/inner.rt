// The handlers that may change something. An error leaves everything, but for Execute Write, which always ends with no
// prepared write.
//
// By hand: a call that changes something is lent the ranges side by side, for the reason that `storing` gives.
ghost use Rattle.std.specs.Prelude.{◌≡◌, true, [], ◌≤◌, length};
ghost use Rattle.wire.specs.Size.{value_bytes};
ghost use Rattle.state.specs.State.{Becomes};
ghost use Rattle.state.specs.Valid.{record_ok};
ghost use Rattle.model.specs.declared.Change.TheVariants.{ExecuteWrite};
ghost use Rattle.model.specs.View.{pending_of, table_at, view_of};
ghost use Rattle.model.specs.Answer.{execute_access, change_told};
ghost use Rattle.model.specs.Told.{Answered};
ghost use Rattle.model.specs.Change.{state_after, record_after, data_after};
ghost use Rattle.storing.specs.Ready.{ReadyToStore};
ghost use Rattle.writing.specs.Fits.{Fits};

use attribute::Link;
use model::{Answer, Change};
use peers::Seat;
use preparing::Changed;
use preparing::inner::{no_record, prepare, with_record};
use state::Prepared;
use wire::att::AttError;
use wire::sizes::{Record, Table};

// What Execute Write writes: with flags 1 what is pending, else nothing.
fn commit(
    list: &mut [Record],
    store: &mut [u8],
    tables: &mut [Table],
    slot: Option<Seat>,
    link: Link,
    p: Prepared,
    bytes: &[u8],
    flags: u8,
) -> Result<(), AttError>
    requires { ReadyToStore list.old (length store.old) tables.old slot × (p.len ≤ length bytes.now) }
    ensures { (result ≡ execute_access (view_of link list.old store.old (table_at tables.old slot) (pending_of p bytes.now)) flags)
        × Becomes (λ s. state_after link s slot (pending_of p bytes.now) (ExecuteWrite flags) []) list.old store.old tables.old list.new store.new tables.new }
{
    if flags != 1 {
        return Ok(());
    }
    if p.handle == 0 {
        return Ok(());
    }
    let n = p.len as usize;
    storing::inner::write(
        list,
        store,
        tables,
        slot,
        link,
        p.handle,
        p.offset as usize,
        &bytes[..n],
    )
}

// Any of the four. Only Write Command is never answered.
#[tactic(auto, using(crate::proofs::Changing::record_fits), unfolding(model::specs::Answer::change_told, model::specs::Change::state_after, model::specs::Change::record_after, model::specs::Change::data_after))]
pub fn change(
    list: &mut [Record],
    store: &mut [u8],
    tables: &mut [Table],
    slot: Option<Seat>,
    link: Link,
    p: Prepared,
    bytes: &mut [u8],
    rq: Change,
    d: &[u8],
    out: &mut [u8],
) -> Changed
    requires ready_to_store { ReadyToStore list.old (length store.old) tables.old slot × (record_ok p ≡ true) }
    requires bytes_len { (length bytes.old ≡ value_bytes) × (5 ≤ length out.old) × Fits rq (length d.now) (length out.old) }
    ensures { (result.prepared ≡ record_after p rq (length d.now))
        × (bytes.new ≡ data_after p bytes.old rq d.now)
        × Becomes (λ s. state_after link s slot (pending_of p bytes.old) rq d.now) list.old store.old tables.old list.new store.new tables.new
        × Answered out.old out.new result.answer (change_told (view_of link list.old store.old (table_at tables.old slot) (pending_of p bytes.old)) rq d.now) }
{
    match rq {
        Change::Write { handle } => {
            let a = storing::inner::write(list, store, tables, slot, link, handle, 0, d);
            let n = response::inner::done_response(out, 0x13, 0x12, handle, a);
            with_record(p, Ok(Answer::Value(n)))
        }
        Change::WriteCommand { handle } => {
            let _ = storing::inner::write(list, store, tables, slot, link, handle, 0, d);
            with_record(p, Ok(Answer::Nothing))
        }
        Change::PrepareWrite { handle, offset } => prepare(p, bytes, handle, offset, d, out),
        Change::ExecuteWrite { flags } => {
            let a = commit(list, store, tables, slot, link, p, bytes, flags);
            let n = response::inner::done_response(out, 0x19, 0x18, 0, a);
            with_record(no_record(), Ok(Answer::Value(n)))
        }
    }
}
