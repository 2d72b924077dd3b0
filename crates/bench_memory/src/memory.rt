// What the bench remembers from line to line.
ghost use Rattle.std.specs.Prelude.{◌≡◌, Ok};

use arrayvec::ArrayVec;
use state::{Lent, Prepared};
use std::alloc::AllocError;
use wire::sizes::{
    PreparedBytes, Record, SLOT_SIZE, SLOTS, SlotBytes, TABLE_SIZE, Table, VALUE_SIZE,
};

// How many links there are.
pub const LINKS: usize = 16;

// An attribute list, and the store of its values.
#[derive(Drop)]
pub struct Stock {
    pub list: ArrayVec<Record, 65>,
    pub store: ArrayVec<u8, 4100>,
}

// A link's prepared write.
#[derive(Clone, Copy)]
pub struct Waiting {
    pub prepared: Prepared,
    pub bytes: PreparedBytes,
}

// An open hub: what its calls are lent, and whether the last request left the bytes past its response as they were.
#[derive(Drop)]
pub struct Hub {
    pub stock: Stock,
    pub row: [SlotBytes; SLOTS],
    pub tables: [Table; SLOTS],
    pub waiting: [Waiting; LINKS],
    pub clean: bool,
}

impl Stock {
    pub fn new() -> Stock {
        Stock {
            list: ArrayVec::new(),
            store: ArrayVec::new(),
        }
    }

    // The same entries and bytes. Nothing is allocated for them: an `ArrayVec` holds its elements itself, so that the
    // copy never fails.
    pub fn copy(&self) -> Result<Stock, AllocError>
        ensures { result ≡ Ok self.now }
    {
        Ok(Stock {
            list: self.list.clone()?,
            store: self.store.clone()?,
        })
    }
}

// No prepared write on any link.
pub fn idle() -> [Waiting; LINKS] {
    let prepared = Prepared::default();
    let bytes = [0; VALUE_SIZE];
    [Waiting { prepared, bytes }; LINKS]
}

impl Hub {
    pub fn new() -> Hub {
        Hub {
            stock: Stock::new(),
            row: [[0; SLOT_SIZE]; SLOTS],
            tables: [[0; TABLE_SIZE]; SLOTS],
            waiting: idle(),
            clean: true,
        }
    }

    // What a call that only reads is lent.
    pub fn lent(&self) -> Lent<'_> {
        Lent {
            list: &self.stock.list,
            store: &self.stock.store,
            row: &self.row,
            tables: &self.tables,
        }
    }
}
