// Prepare Write: more bytes for the link's prepared write. An error leaves it as it was.
ghost use Rattle.std.specs.Prelude.{◌≡◌, true, ◌+◌, ◌^◌, ◌≤◌, ◌<◌, length};
ghost use Rattle.wire.specs.Size.{value_bytes};
ghost use Rattle.table_view.specs.Told.{value};
ghost use Rattle.state.specs.Valid.{record_ok};
ghost use Rattle.model.specs.declared.Change.TheVariants.{PrepareWrite};
ghost use Rattle.model.specs.Answer.{Sent, size_rule, done_rsp, echo_rsp};
ghost use Rattle.model.specs.Told.{Answered};
ghost use Rattle.model.specs.Change.{longer, may_prepare, no_record, record_after, data_after};

use crate::Changed;
use model::{Answer, CallError};
use state::Prepared;
use wire::att::AttError;
use wire::cursor::WriteCursor;
use wire::sizes::VALUE_SIZE;

// Whether n bytes more go into the 512 of a prepared write.
#[tactic(auto, unfolding(model::specs::Answer::size_rule))]
fn has_room(len: u16, n: usize) -> Result<(), AttError>
    requires { n < 2 ^ 63 }
    ensures { result ≡ size_rule len n }
{
    if VALUE_SIZE < len as usize + n {
        return Err(AttError::PrepareQueueFull);
    }
    Ok(())
}

// Whether n bytes can be appended to a link's prepared write.
#[tactic(auto, unfolding(model::specs::Answer::prepare_rule))]
fn may_prepare(p: Prepared, handle: u16, offset: u16, n: usize) -> Result<(), AttError>
    requires { n < 2 ^ 63 }
    ensures { result ≡ may_prepare p handle offset n }
{
    if handle == 0 {
        return Err(AttError::InvalidHandle);
    }
    if p.handle == 0 {
        return has_room(p.len, n);
    }
    if p.handle != handle {
        return Err(AttError::PrepareQueueFull);
    }
    if offset as usize != p.offset as usize + p.len as usize {
        return Err(AttError::InvalidOffset);
    }
    has_room(p.len, n)
}

// The prepared write with n bytes more.
#[tactic(auto, unfolding(model::specs::Change::longer))]
fn grow(p: Prepared, handle: u16, offset: u16, n: u16) -> Prepared
    requires { p.len + n ≤ value_bytes }
    ensures { result ≡ longer p handle offset n }
{
    if p.handle == 0 {
        return Prepared {
            handle,
            offset,
            len: p.len + n,
        };
    }
    Prepared {
        handle,
        offset: p.offset,
        len: p.len + n,
    }
}

// The answer that repeats what was prepared.
fn echo(out: &mut [u8], handle: u16, offset: u16, d: &[u8]) -> usize
    requires { 5 + length d.now ≤ length out.old }
    ensures { Sent out.old out.new result (echo_rsp handle offset d.now) }
{
    let c = WriteCursor::new().byte(out, 0x17);
    let c = c.word(out, handle);
    let c = c.word(out, offset);
    let c = c.append(out, d);
    c.len
}

// Prepare Write (0x16): d is appended to the link's prepared write.
#[tactic(auto, using(crate::proofs::Preparing::granted_fits))]
pub fn prepare(
    p: Prepared,
    bytes: &mut [u8],
    handle: u16,
    offset: u16,
    d: &[u8],
    out: &mut [u8],
) -> Changed
    requires { (record_ok p ≡ true) × (5 + length d.now ≤ length out.old) × (length bytes.old ≡ value_bytes) }
    ensures { (result.prepared ≡ record_after p (PrepareWrite handle offset) (length d.now))
        × (bytes.new ≡ data_after p bytes.old (PrepareWrite handle offset) d.now)
        × Answered out.old out.new result.answer (value (done_rsp (echo_rsp handle offset d.now) 0x16 handle (may_prepare p handle offset (length d.now)))) }
{
    if let Err(code) = may_prepare(p, handle, offset, d.len()) {
        let n = response::inner::error_response(out, 0x16, handle, code);
        return Changed {
            prepared: p,
            answer: Ok(Answer::Value(n)),
        };
    }
    wire::inner::copy(bytes, p.len as usize, d);
    let n = echo(out, handle, offset, d);
    Changed {
        prepared: grow(p, handle, offset, d.len() as u16),
        answer: Ok(Answer::Value(n)),
    }
}

// No prepared write.
pub fn no_record() -> Prepared
    ensures { result ≡ no_record }
{
    Prepared {
        handle: 0,
        offset: 0,
        len: 0,
    }
}

// An answer that leaves the link with this prepared write.
pub fn with_record(p: Prepared, answer: Result<Answer, CallError>) -> Changed
    ensures { (result.prepared ≡ p) × (result.answer ≡ answer) }
{
    Changed {
        prepared: p,
        answer,
    }
}
