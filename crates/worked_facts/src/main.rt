// Runs the worked facts of document 01 on the code and prints what it answers; the library `hub_facts` has those about
// requests and slots. The crate `facts` has the starred ones as a proved table.
#![tactic(auto)]

mod say;

use lines::parts;
use lines::say::{line, say};
use say::{say_pushed, say_value, say_written};
use std::io;
use table_printer::TEXT_SIZE;
use table_view::{Key, WriteError};
use wire::sizes::{TABLE_SIZE, Table};

// T: key 3 fixed 2 and key 5 variable 8.
fn table_t() -> Table {
    let mut b = table_builder::new();
    let _ = table_builder::push(&mut b, Key(3), 2, false);
    let _ = table_builder::push(&mut b, Key(5), 8, true);
    let mut t = [0u8; TABLE_SIZE];
    let _ = table_builder::build(&b, &mut t);
    t
}

// The bytes of a table, what a key of it reads, and its lines.
fn say_bytes<R: Print>(rt: &R, t: &Table) -> io::Result<()> {
    say_value(rt, t, table_view::raw(t).map(Some))
}

fn say_key<R: Print>(rt: &R, t: &Table, key: Key) -> io::Result<()> {
    say_value(rt, t, table_view::get(t, key))
}

fn print<R: Print>(rt: &R, raw: &[u8]) -> io::Result<()> {
    let mut text = [0; TEXT_SIZE];
    let n = table_printer::write_lines(raw, &mut text);
    say(rt, parts::front(&text, n))
}

// What a write of d to key 5 of a copy of the table answers, and what 5 reads then.
fn say_write<R: Print>(rt: &R, t: &Table, offset: usize, d: &[u8]) -> io::Result<()> {
    let mut copy = *t;
    say_written(rt, client_att_table::write(&mut copy, Key(5), offset, d))?;
    say(rt, b"; 5 reads ")?;
    say_key(rt, &copy, Key(5))?;
    line(rt, b"")
}

// 3E1047, and then 3E10, written to key 5.
fn write_codes(t: &mut Table) {
    let _ = client_att_table::write(t, Key(5), 0, b"3E1047");
    let _ = client_att_table::write(t, Key(5), 0, b"3E10");
}

fn say_codes<R: Print>(rt: &R, t: &mut Table) -> io::Result<()> {
    say(rt, b"* T fresh: ")?;
    say_bytes(rt, t)?;
    line(rt, b"")?;
    write_codes(t);
    say(rt, b"* 3E1047 then 3E10 written to 5: ")?;
    say_bytes(rt, t)?;
    say(rt, b"; 5 reads ")?;
    say_key(rt, t, Key(5))?;
    line(rt, b"")
}

fn say_writes<R: Print>(rt: &R, t: &Table) -> io::Result<()> {
    say(rt, b"* Then offset 5, nine bytes: ")?;
    say_write(rt, t, 5, b"ABCDEFGHI")?;
    say(rt, b"* Offset 4, five bytes: ")?;
    say_write(rt, t, 4, b"ABCDE")?;
    say(rt, b"* Offset 4, four bytes: ")?;
    say_write(rt, t, 4, b"ABCD")?;
    say(rt, b"* Offset 2, no bytes: ")?;
    say_write(rt, t, 2, b"")
}

fn written_facts<R: Print>(rt: &R) -> io::Result<()> {
    let mut t = table_t();
    say_codes(rt, &mut t)?;
    say_writes(rt, &t)
}

// Whether saved bytes are a table.
fn say_saved<R: Print>(rt: &R, raw: &[u8]) -> io::Result<()> {
    say_written(rt, table_view::try_from_raw(raw).map_err(WriteError::from))?;
    line(rt, b"")
}

fn saved_facts<R: Print>(rt: &R) -> io::Result<()> {
    say(rt, b"* Saved 00000000: ")?;
    say_saved(rt, &[0u8; 4])?;
    say(rt, b"* Saved 000000: ")?;
    say_saved(rt, &[0u8; 3])?;
    say(rt, b"* Saved 010001000180000000: ")?;
    say_saved(rt, &[1u8, 0, 1, 0, 1, 0x80, 0, 0, 0])
}

fn loose_fact<R: Print>(rt: &R) -> io::Result<()> {
    let loose = [1u8, 0, 3, 0, 1, 0, 2, 0, 0xAA, 0xBB, 0xCC];
    say(rt, b"* Saved 0100030001000200AABBCC: key 1 is ")?;
    say_value(rt, &loose, table_view::get(&loose, Key(1)))?;
    line(rt, b"")
}

// What a push to a new builder answers.
fn say_push<R: Print>(rt: &R, key: u16, n: u16) -> io::Result<()> {
    let mut b = table_builder::new();
    say_pushed(rt, table_builder::push(&mut b, Key(key), n, false))?;
    line(rt, b"")
}

fn push_facts<R: Print>(rt: &R) -> io::Result<()> {
    say(rt, b"Key 0x7FFF pushed: ")?;
    say_push(rt, 0x7FFF, 0)?;
    say(rt, b"Key 0x8000: ")?;
    say_push(rt, 0x8000, 0)?;
    say(rt, b"Length 512 pushed: ")?;
    say_push(rt, 1, 512)?;
    say(rt, b"Length 513: ")?;
    say_push(rt, 1, 513)
}

// The table printer, on T after the second fact and on what it refuses.
fn printer_facts<R: Print>(rt: &R) -> io::Result<()> {
    let mut t = table_t();
    write_codes(&mut t);
    print(rt, &t)?;
    let _ = client_att_table::clear(&mut t);
    print(rt, &t)?;
    let short = [0u8; 3];
    print(rt, &short)?;
    let longest = [0u8; 65536];
    print(rt, &longest)?;
    let longer = [0u8; 65537];
    print(rt, &longer)
}

fn main(rt: HostRuntime) -> io::Result<()> {
    written_facts(&rt)?;
    saved_facts(&rt)?;
    loose_fact(&rt)?;
    push_facts(&rt)?;
    hub_facts::request_facts(&rt)?;
    hub_facts::slot_facts(&rt)?;
    printer_facts(&rt)
}
