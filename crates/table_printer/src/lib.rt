// A saved table as lines of text in a lent buffer (document 01, end of "Worked facts").
#![tactic(auto)]

ghost use Rattle.std.specs.Prelude.{◌≡◌, true, ◌≤◌, ◌<◌, length};
ghost use Rattle.text.specs.Put.{Put, Short};
ghost use Rattle.table_view.specs.Layout.{count_of};
ghost use Rattle.table_view.specs.Rules.{accepts};
ghost use Rattle.table_view.specs.View.{item_at, view};
ghost use Rattle.table_printer.specs.Lines.{kind_text, value_text, line_of, entry_line, heading as heading_of, all_lines};
ghost use Rattle.table_printer.specs.Printed.{Printed};

use table_view::{Place, inner};
use text::inner::{bytes, decimal, hex};

// The longest input that is read, and what is enough for the text of any input.
pub const INPUT_SIZE: usize = 65536;

pub const TEXT_SIZE: usize = 262144;

// Whether an entry is variable or fixed.
fn kind(out: &mut [u8], at: usize, variable: bool) -> usize
    requires { Short at (kind_text variable) }
    ensures { Put out.old out.new at result (kind_text variable) }
{
    if variable {
        return bytes(out, at, b" V ");
    }
    bytes(out, at, b" F ")
}

// A value in hex, `-` where it is empty.
fn value(out: &mut [u8], at: usize, v: &[u8]) -> usize
    requires { Short at (value_text v.now) }
    ensures { Put out.old out.new at result (value_text v.now) }
{
    if v.is_empty() {
        return bytes(out, at, b"-");
    }
    hex(out, at, v)
}

// A line: a handle, whether it is fixed or variable, the value's length, the value.
fn line(out: &mut [u8], at: usize, key: usize, variable: bool, v: &[u8]) -> usize
    requires { Short at (line_of key variable v.now) }
    ensures { Put out.old out.new at result (line_of key variable v.now) }
{
    let form = decimal(out, at, key);
    let len = kind(out, form, variable);
    let space = decimal(out, len, v.len());
    let hex = bytes(out, space, b" ");
    let end = value(out, hex, v);
    bytes(out, end, b"\n")
}

// The line of an entry.
fn entry(out: &mut [u8], at: usize, t: &[u8], p: Place) -> usize
    requires t_value { (accepts t.now ≡ true) × (p.0 < count_of t.now) }
    requires short { Short at (entry_line (item_at t.now p.0)) }
    ensures { Put out.old out.new at result (entry_line (item_at t.now p.0)) }
{
    let key = inner::key_at(t, p).0 as usize;
    let variable = inner::is_variable(t, p);
    line(out, at, key, variable, inner::value(t, p))
}

// The first line.
fn heading(out: &mut [u8], n: usize) -> usize
    requires { Short 0 (heading_of n) }
    ensures { Put out.old out.new 0 result (heading_of n) }
{
    let word = bytes(out, 0, b"entries ");
    let end = decimal(out, word, n);
    bytes(out, end, b"\n")
}

// All lines of a table.
fn lines(out: &mut [u8], t: &[u8]) -> usize
    requires { (accepts t.now ≡ true) × (length t.now ≤ 65536) }
    ensures { Put out.old out.new 0 result (all_lines (view t.now)) }
{
    let n = inner::count(t);
    let mut next = heading(out, n);
    for i in 0..n {
        next = entry(out, next, t, Place(i));
    }
    next
}

// Writes the table's lines, or what is wrong with it, at the start of out, and answers how many bytes they have. Where
// out has fewer, they are cut at its end.
pub fn write_lines(raw: &[u8], out: &mut [u8]) -> usize
    ensures { Printed raw.now out.old out.new result }
{
    if INPUT_SIZE < raw.len() {
        return bytes(out, 0, b"too long\n");
    }
    if !inner::is_table(raw) {
        return bytes(out, 0, b"refused 4\n");
    }
    lines(out, raw)
}
