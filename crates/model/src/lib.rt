// What requests ask and what answers are made of. The definitions that the promises cite stand in `specs`.
#![tactic(auto)]

ghost use Rattle.std.specs.Prelude.{◌≡◌};
ghost use Rattle.model.specs.declared.CallError.TheVariants.{BadTable, Att};

use table_view::NotATable;
use wire::att::AttError;

// A range of handles, both ends in it.
#[derive(Clone, Copy)]
pub struct Range {
    pub start: u16,
    pub end: u16,
}

// The requests whose answer the asking link's view decides. Beside a request stand the bytes that it brings: the UUID
// of the two reads by type, the handles of Read Multiple.
#[derive(Clone, Copy)]
pub enum Ask {
    FindInformation(Range),
    ReadByType(Range),
    ReadByGroupType(Range),
    Read { handle: u16 },
    ReadBlob { handle: u16, offset: u16 },
    ReadMultiple,
}

// The requests that may change something. The bytes beside them are the value to write.
#[derive(Clone, Copy)]
pub enum Change {
    Write { handle: u16 },
    WriteCommand { handle: u16 },
    PrepareWrite { handle: u16, offset: u16 },
    ExecuteWrite { flags: u8 },
}

// What a link may send. Find By Type Value looks at values that the link may not read; the bytes beside it are the
// value looked for.
#[derive(Clone, Copy)]
pub enum Request {
    Ask(Ask),
    FindByTypeValue { range: Range, uuid: u16 },
    Change(Change),
    ExchangeMtu { mtu: u16 },
    Confirmation,
}

// What Read By Type and Read By Group Type differ in: whether the group's end stands before a value, the opcodes, the
// longest value.
#[derive(Clone, Copy)]
pub struct Form {
    pub group: bool,
    pub op: u8,
    pub rsp: u8,
    pub limit: usize,
}

// What a call of the server answers: done, or yes; nothing to answer, or no; a value or a response of so many bytes,
// which stand in the buffer that was lent.
#[derive(Clone, Copy, Debug, PartialEq, Eq)]
pub enum Answer {
    Done,
    Nothing,
    Value(usize),
}

// Why a call is not done: refused, by the number that `specs/Told` gives, or an ATT error.
#[derive(Clone, Copy, Debug, PartialEq, Eq)]
pub enum CallError {
    BadState,
    BadBuffer,
    BadPeer,
    BadTable,
    NoSlot,
    NoHandle,
    WrongLength,
    Att(AttError),
}

impl From<AttError> for CallError {
    ghost from_gives = { λ code e. e ≡ Att code };

    fn from(e: AttError) -> CallError {
        CallError::Att(e)
    }
}

impl From<NotATable> for CallError {
    ghost from_gives = { λ _ e. e ≡ BadTable };

    fn from(_e: NotATable) -> CallError {
        CallError::BadTable
    }
}
