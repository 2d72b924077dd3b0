// The eight tables at once. LLVM makes a loop that looks at one byte of each table a turn look at 16 of each; table
// after table it would start, and clear up what is left over, eight times.
ghost use Rattle.std.specs.Prelude.{◌≡◌, ℕ, List, true, [], ◌+◌, ◌-◌, ◌≤◌, ◌<◌, length, get_or, eqb, leb};
ghost use Rattle.wire.specs.Size.{slot_count, table_bytes};
ghost use Rattle.wire.specs.Number.{word};
ghost use Rattle.table_view.specs.Layout.{count_of, base_of};
ghost use Rattle.table_view.specs.Rules.{value_ok, values_ok};
ghost use Rattle.table_builder.specs.Push.{builder};
ghost use Rattle.eight_tables.specs.Tables.{every, sized, agrees, Answers, Gives};

use table_view::{Place, inner as view};
use wire::sizes::{SLOTS, TABLE_SIZE, Table};

// 0 where byte j of every table is f. It also tells, for callers, that a table has 640 bytes.
fn column(tables: &[Table], j: usize, f: u8) -> u8
    requires { (length tables.now ≡ slot_count) × (j < table_bytes) }
    ensures { (eqb result 0 ≡ every (λ t. eqb (get_or t j 0) f) tables.now) × (every sized tables.now ≡ true) }
{
    let mut acc = 0;
    for k in 0..SLOTS {
        acc |= tables[k][j] ^ f;
    }
    acc
}

// Whether the bytes of a part are in every table those that `byte` gives.
fn same_part<F: Fn(usize) -> u8 + Copy>(tables: &[Table], from: usize, to: usize, byte: F) -> bool
    requires { (length tables.now ≡ slot_count) × (from ≤ to) × (to ≤ table_bytes) × Answers (F.pre byte) }
    ensures all { (f : List ℕ) → Gives (F.post byte) f → result ≡ every (agrees f (to - from) from) tables.now }
    ensures long { from < to → every sized tables.now ≡ true }
{
    let mut acc: u8 = 0;
    for j in from..to {
        acc |= column(tables, j, byte(j));
    }
    acc == 0
}

// The same. A part of 16 bytes or more is tested in two that overlap, the last 16 bytes and then as many from its start
// as make whole turns of the loop: what would be left over costs more than it holds.
fn same<F: Fn(usize) -> u8 + Copy>(tables: &[Table], from: usize, to: usize, byte: F) -> bool
    requires { (length tables.now ≡ slot_count) × (from ≤ to) × (to ≤ table_bytes) × Answers (F.pre byte) }
    ensures all { (f : List ℕ) → Gives (F.post byte) f → result ≡ every (agrees f (to - from) from) tables.now }
    ensures long { from < to → every sized tables.now ≡ true }
{
    let n = to - from;
    if n < 16 {
        return same_part(tables, from, to, byte);
    }
    same_part(tables, to - 16, to, byte) && same_part(tables, from, to - n % 16, byte)
}

// Whether every table has zeros from a place on.
pub fn zero_from(tables: &[Table], from: usize) -> bool
    requires { (length tables.now ≡ slot_count) × (from ≤ table_bytes) }
    ensures { result ≡ every (agrees [] (table_bytes - from) from) tables.now }
{
    same(tables, from, TABLE_SIZE, |_| 0)
}

// Whether every table has the fresh one's first n bytes.
pub fn same_front(tables: &[Table], fresh: &Table, n: usize) -> bool
    requires { (length tables.now ≡ slot_count) × (n ≤ table_bytes) }
    ensures { (result ≡ every (agrees fresh.now n 0) tables.now) × (0 < n → every sized tables.now ≡ true) }
{
    same(tables, 0, n, |j| fresh[j])
}

// Whether the number at a place is at most n in every table.
fn at_most(tables: &[Table], at: usize, n: usize) -> bool
    requires { (length tables.now ≡ slot_count) × (at + 1 < table_bytes) }
    ensures { result ≡ every (λ t. leb (word t at) n) tables.now }
{
    for t in tables {
        if n < view::number(t, at) {
            return false;
        }
    }
    true
}

// Whether the value at a place of the index is right in every table: a variable one's length is within its capacity.
fn value_ok(tables: &[Table], fresh: &Table, p: Place) -> bool
    requires tables_len { (length tables.now ≡ slot_count) × (length fresh.now ≡ table_bytes) × (builder fresh.now ≡ true) × (p.0 < count_of fresh.now) }
    requires tables_value { (every sized tables.now ≡ true) × (every (agrees fresh.now (base_of fresh.now) 0) tables.now ≡ true) }
    ensures { result ≡ every (λ t. value_ok t p.0) tables.now }
{
    if !view::is_variable(fresh, p) {
        return true;
    }
    let at = view::values_base(fresh) + view::offset_at(fresh, p);
    at_most(tables, at, view::capacity(fresh, p))
}

// Whether all values are.
pub fn values_ok(tables: &[Table], fresh: &Table) -> bool
    requires tables_len { (length tables.now ≡ slot_count) × (length fresh.now ≡ table_bytes) × (builder fresh.now ≡ true) }
    requires tables_value { (every sized tables.now ≡ true) × (every (agrees fresh.now (base_of fresh.now) 0) tables.now ≡ true) }
    ensures { result ≡ every (λ t. values_ok t (count_of fresh.now) 0) tables.now }
{
    for i in 0..view::count(fresh) {
        if !value_ok(tables, fresh, Place(i)) {
            return false;
        }
    }
    true
}
