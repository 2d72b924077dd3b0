// The facts about requests and slots, run on a hub with values of 5, 5 and 6 bytes under handles 1, 2 and 3: a part of
// the program `worked_facts`.
#![tactic(auto)]

pub mod say;

use attribute::Link;
use lines::say::{line, say};
use model::{Answer, Ask, CallError, Range, Request};
use peers::Identity;
use say::say_answer;
use state::Prepared;
use std::io;
use wire::sizes::{Record, SLOT_SIZE, SLOTS, SlotBytes, TABLE_SIZE, Table, VALUE_SIZE};

// What the hub lends.
#[derive(Clone, Copy)]
struct Hub {
    list: [Record; 3],
    store: [u8; 60],
    row: [SlotBytes; SLOTS],
    tables: [Table; SLOTS],
}

// A record of the list: a readable variable value of type 7 with room for 20 bytes.
fn entry(handle: u8, start: u8, len: u8) -> Record {
    [
        handle, 0, 20, 0, start, 0, len, 0, 1, 1, 1, 2, 7, 0, 0, 0, 0, 0, 0, 0, 0, 0, 0, 0, 0, 0,
        0, 0, 0, 0, 0, 0,
    ]
}

fn tablet(n: u8) -> Identity {
    let addr = [n, 0, 0, 0, 0, 0xC0];
    Identity { kind: 0, addr }
}

impl Hub {
    // Opens it; what that answers is seen in what it says next.
    fn open() -> Hub {
        let mut hub = Hub {
            list: [entry(1, 0, 5), entry(2, 20, 5), entry(3, 40, 6)],
            store: *b"AAAAA...............BBBBB...............CCCCCC..............",
            row: [[0; SLOT_SIZE]; SLOTS],
            tables: [[0; TABLE_SIZE]; SLOTS],
        };
        let _ = state::new(&hub.list, &hub.store, &mut hub.row, &mut hub.tables);
        hub
    }

    // A request of tablet 1 over a plain link.
    fn process(&mut self, rq: Request, d: &[u8], out: &mut [u8]) -> Result<Answer, CallError> {
        let mut bytes = [0; VALUE_SIZE];
        let done = attribute_server::request::process(
            &mut self.list,
            &mut self.store,
            &self.row,
            &mut self.tables,
            tablet(1),
            Link::Plain,
            Prepared::default(),
            &mut bytes,
            rq,
            d,
            out,
        );
        done.answer
    }

    fn connect(&mut self, n: u8) -> Result<Answer, CallError> {
        attribute_server::connection::connect(
            &self.list,
            &self.store,
            &mut self.row,
            &mut self.tables,
            tablet(n),
        )
    }

    fn leave_bonded(&mut self, n: u8) {
        let _ = attribute_server::connection::disconnect(
            &self.list,
            &self.store,
            &mut self.row,
            &mut self.tables,
            tablet(n),
            true,
        );
    }
}

// What it is answered, with a buffer of that length.
fn say_request<R: Print>(rt: &R, rq: Request, d: &[u8], out: &mut [u8]) -> io::Result<()> {
    let mut hub = Hub::open();
    let a = hub.process(rq, d, out);
    say_answer(rt, out, a)?;
    line(rt, b"")
}

fn error_facts<R: Print>(rt: &R) -> io::Result<()> {
    let mut out = [0xEEu8; 23];
    say(rt, b"* Read of absent 9: ")?;
    say_request(rt, Request::Ask(Ask::Read { handle: 9 }), b"", &mut out)?;
    let backwards = Range { start: 5, end: 4 };
    say(rt, b"* Find Information 5 to 4: ")?;
    say_request(
        rt,
        Request::Ask(Ask::FindInformation(backwards)),
        b"",
        &mut out,
    )
}

// Read By Type over all handles, of type 7.
fn say_by_type<R: Print>(rt: &R, out: &mut [u8]) -> io::Result<()> {
    let all = Range {
        start: 1,
        end: 0xFFFF,
    };
    say_request(rt, Request::Ask(Ask::ReadByType(all)), &[7u8, 0], out)
}

fn list_facts<R: Print>(rt: &R) -> io::Result<()> {
    let mut out = [0xEEu8; 23];
    say(
        rt,
        b"* Buffer 23, Read By Type, values of 5, 5 and 6 bytes: ",
    )?;
    say_by_type(rt, &mut out)?;
    let mut longer = [0xEEu8; 24];
    say(rt, b"* Buffer 24: ")?;
    say_by_type(rt, &mut longer)
}

pub fn request_facts<R: Print>(rt: &R) -> io::Result<()> {
    error_facts(rt)?;
    list_facts(rt)
}

// What the ninth tablet is answered.
fn say_ninth<R: Print>(rt: &R, hub: &mut Hub) -> io::Result<()> {
    let a = hub.connect(9);
    say_answer(rt, b"", a)
}

// Eight tablets connect, one after another; then a ninth, and again once one of the eight is gone.
pub fn slot_facts<R: Print>(rt: &R) -> io::Result<()> {
    let mut hub = Hub::open();
    for n in 1..=8 {
        let _ = hub.connect(n);
    }
    say(rt, b"Ninth connected tablet: ")?;
    say_ninth(rt, &mut hub)?;
    hub.leave_bonded(3);
    say(rt, b"; with tablet 3 gone and bonded: ")?;
    say_ninth(rt, &mut hub)?;
    say(rt, b", the third slot is tablet ")?;
    lines::say::hex(rt, &[hub.row[2][1]])?;
    line(rt, b"")
}
