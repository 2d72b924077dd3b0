// A request that meets a valid state, with a buffer for its answer. `slot` is the asking peer's.
//
// By hand: a call that changes something is lent the ranges side by side, for the reason that `storing` gives.
ghost use Rattle.std.specs.Prelude.{◌≡◌, true, ◌≤◌, length};
ghost use Rattle.wire.specs.Size.{value_bytes};
ghost use Rattle.state.specs.State.{Becomes};
ghost use Rattle.state.specs.Valid.{record_ok};
ghost use Rattle.model.specs.View.{pending_of, table_at, seen_all, view_of};
ghost use Rattle.model.specs.Answer.{Sent, ask_rsp, request_told};
ghost use Rattle.model.specs.Told.{Answered};
ghost use Rattle.model.specs.Change.{state_by, record_by, data_by};
ghost use Rattle.storing.specs.Ready.{ReadyToStore};
ghost use Rattle.requests.specs.Fits.{RequestFits};
ghost use Rattle.requests.specs.Slot.{needs_slot};

use attribute::Link;
use model::{Answer, Ask, Change, Request};
use peers::Seat;
use preparing::Changed;
use preparing::inner::with_record;
use reading_by_type::By;
use reading_by_type::inner::read_by;
use state::Prepared;
use values::Values;
use wire::sizes::{Record, Table};
use writing::inner::change;

// The requests that only read, with the asking peer's own table.
#[tactic(auto, unfolding(model::specs::Answer::ask_rsp))]
fn ask(v: Values, link: Link, rq: Ask, d: &[u8], out: &mut [u8]) -> usize
    requires { 6 ≤ length out.old }
    ensures { Sent out.old out.new result (ask_rsp (seen_all link v.entry.list.now v.entry.store.now v.entry.table.now) (length out.old) rq d.now) }
{
    match rq {
        Ask::FindInformation(g) => finding_information::inner::find_information(v.list, g, out),
        Ask::ReadByType(g) => read_by(By::Attribute, v, link, g, d, out),
        Ask::ReadByGroupType(g) => read_by(By::Group, v, link, g, d, out),
        Ask::Read { handle } => reading::inner::read(v, link, handle, out),
        Ask::ReadBlob { handle, offset } => reading::inner::read_blob(v, link, handle, offset, out),
        Ask::ReadMultiple => reading::inner::read_multiple(d, out),
    }
}

// The same with the peer's slot: a peer without one has the table that has no entries.
fn ask_from(
    list: &[Record],
    store: &[u8],
    tables: &[Table],
    slot: Option<Seat>,
    link: Link,
    rq: Ask,
    d: &[u8],
    out: &mut [u8],
) -> usize
    requires { ReadyToStore list.now (length store.now) tables.now slot × (6 ≤ length out.old) }
    ensures { Sent out.old out.new result (ask_rsp (seen_all link list.now store.now (table_at tables.now slot)) (length out.old) rq d.now) }
{
    match slot {
        Some(k) => {
            let own = Values {
                list,
                store,
                table: &tables[k.0],
            };
            ask(own, link, rq, d, out)
        }
        None => {
            let empty = Values {
                list,
                store,
                table: &[0, 0, 0, 0],
            };
            ask(empty, link, rq, d, out)
        }
    }
}

// Whether a request looks at the peer's own values, and so needs its slot. Where it does not, `answer` may be given
// none.
pub fn needs_slot(rq: Request) -> bool
    ensures { result ≡ needs_slot rq }
{
    match rq {
        Request::Ask(a) => match a {
            Ask::FindInformation(_) => false,
            Ask::ReadByType(_) => true,
            Ask::ReadByGroupType(_) => true,
            Ask::Read { .. } => true,
            Ask::ReadBlob { .. } => true,
            Ask::ReadMultiple => false,
        },
        Request::FindByTypeValue { .. } => false,
        Request::Change(c) => match c {
            Change::Write { .. } => true,
            Change::WriteCommand { .. } => true,
            Change::PrepareWrite { .. } => false,
            Change::ExecuteWrite { .. } => true,
        },
        Request::ExchangeMtu { .. } => false,
        Request::Confirmation => false,
    }
}

// Any request.
#[tactic(auto, unfolding(model::specs::Answer::request_told, model::specs::Change::state_by, model::specs::Change::record_by, model::specs::Change::data_by))]
pub fn answer(
    list: &mut [Record],
    store: &mut [u8],
    tables: &mut [Table],
    slot: Option<Seat>,
    link: Link,
    p: Prepared,
    bytes: &mut [u8],
    rq: Request,
    d: &[u8],
    out: &mut [u8],
) -> Changed
    requires ready_to_store { ReadyToStore list.old (length store.old) tables.old slot × (record_ok p ≡ true) }
    requires bytes_len { (length bytes.old ≡ value_bytes) × (6 ≤ length out.old) × RequestFits rq (length d.now) (length out.old) }
    ensures { (result.prepared ≡ record_by p rq (length d.now))
        × (bytes.new ≡ data_by p bytes.old rq d.now)
        × Becomes (λ s. state_by link s slot (pending_of p bytes.old) rq d.now) list.old store.old tables.old list.new store.new tables.new
        × Answered out.old out.new result.answer (request_told (view_of link list.old store.old (table_at tables.old slot) (pending_of p bytes.old)) list.old store.old (length out.old) rq d.now) }
{
    match rq {
        Request::Ask(a) => {
            let n = ask_from(list, store, tables, slot, link, a, d, out);
            with_record(p, Ok(Answer::Value(n)))
        }
        Request::FindByTypeValue { range, uuid } => {
            let n = finding_by_value::inner::find_by_type_value(list, store, range, uuid, d, out);
            with_record(p, Ok(Answer::Value(n)))
        }
        Request::Change(c) => change(list, store, tables, slot, link, p, bytes, c, d, out),
        Request::ExchangeMtu { .. } => with_record(p, Ok(Answer::Nothing)),
        Request::Confirmation => with_record(p, Ok(Answer::Nothing)),
    }
}
