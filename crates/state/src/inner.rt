// The table that a list lays out, and the test of the slots against it.
ghost use Rattle.std.specs.Prelude.{◌≡◌, true, ◌+◌, ◌≤◌, ◌<◌, length, replicate, leb};
ghost use Rattle.wire.specs.Size.{slot_count, table_bytes};
ghost use Rattle.attribute.specs.Rules.{list_ok};
ghost use Rattle.table_view.specs.Layout.{end_of};
ghost use Rattle.table_builder.specs.Push.{builder};
ghost use Rattle.peers.specs.Bytes.{row_of};
ghost use Rattle.state.specs.Fresh.{space_of, entry_laid, table_size, fresh_table};
ghost use Rattle.state.specs.Valid.{slots_ok};
ghost use Rattle.state.specs.Clear.{clear_ok, clears_ok};

use attribute::Attribute;
use eight_tables::inner as tables;
use peers::Slot;
use table_view::{Key, inner as view};
use wire::sizes::{Record, SLOTS, SlotBytes, TABLE_SIZE, Table};

// Lays out one entry, where it is a client value: false where the table has no room for it, and then no byte changes.
fn lay_entry(out: &mut [u8], a: Attribute) -> bool
    requires { (table_bytes ≤ length out.old) × (end_of out.old ≤ table_bytes) × (a.handle < 32768) }
    ensures { (result ≡ leb (end_of out.old + space_of a) table_bytes) × (result ≡ true → out.new ≡ entry_laid out.old a) }
{
    if !a.client {
        return true;
    }
    if TABLE_SIZE < view::values_end(out) + 4 + table_builder::inner::space(a.cap, a.variable) {
        return false;
    }
    table_builder::inner::add(out, Key(a.handle), a.cap, a.variable);
    true
}

// Lays out the list's table in zeros: false where it would exceed 640 bytes.
pub fn lay_out(list: &[Record], store: &[u8], out: &mut Table) -> bool
    requires { (list_ok list.now (length store.now) ≡ true) × (out.old ≡ replicate table_bytes 0) }
    ensures { (result ≡ leb (table_size list.now) table_bytes) × (result ≡ true → out.new ≡ fresh_table list.now) }
{
    for r in list {
        if !lay_entry(out, attribute::inner::decode(r)) {
            return false;
        }
    }
    true
}

// An empty slot has zeros for its values.
#[tactic(auto, unfolding(crate::specs::Clear::clear_ok))]
fn clear_ok(s: Slot, t: &[u8], base: usize, end: usize) -> bool
    requires { (base ≤ end) × (end ≤ length t.now) }
    ensures { result ≡ clear_ok base end s t.now }
{
    !peers::who::is_empty(s.id) || wire::bytes::is_zero(&t[base..end])
}

// And so do all.
fn clears_ok(row: &[SlotBytes], tables: &[Table], base: usize, end: usize) -> bool
    requires { (length tables.now ≡ slot_count) × (base ≤ end) × (end ≤ table_bytes) × (length row.now ≡ slot_count) }
    ensures { result ≡ clears_ok base end (row_of row.now) tables.now }
{
    for i in 0..SLOTS {
        if !clear_ok(Slot::from(&row[i]), &tables[i], base, end) {
            return false;
        }
    }
    true
}

// All slots with their tables: the fresh table's header and index, zeros after the end, lengths within capacity; clear
// where the slot is empty.
pub fn slots_ok(row: &[SlotBytes], all: &[Table], fresh: &Table) -> bool
    requires { (length all.now ≡ slot_count) × (builder fresh.now ≡ true) × (length row.now ≡ slot_count) }
    ensures { result ≡ slots_ok fresh.now (row_of row.now) all.now }
{
    let base = view::values_base(fresh);
    if !tables::same_front(all, fresh, base) {
        return false;
    }
    let end = view::values_end(fresh);
    if !tables::zero_from(all, end) {
        return false;
    }
    if !tables::values_ok(all, fresh) {
        return false;
    }
    clears_ok(row, all, base, end)
}

// Makes every element the same.
pub fn fill<T: Copy>(xs: &mut [T], v: T)
    ensures { xs.new ≡ replicate (length xs.old) v }
{
    for x in xs.iter_mut() {
        *x = v;
    }
}
