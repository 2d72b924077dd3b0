// Responses into a buffer that is known to have room for them. Bytes past the reported length stay as lent.
ghost use Rattle.std.specs.Prelude.{[], ◌∷◌, ◌≤◌, length};
ghost use Rattle.model.specs.Answer.{Sent, error_bytes, done_as};

use wire::att::Code;
use wire::cursor::WriteCursor;

// The five bytes of an ATT error, by its name or any code.
pub fn error_response<C: Code>(out: &mut [u8], op: u8, handle: u16, code: C) -> usize
    requires { 5 ≤ length out.old }
    ensures { Sent out.old out.new result (error_bytes op handle (C.code code)) }
{
    let code = code.to_byte();
    WriteCursor::new()
        .byte(out, 0x01)
        .byte(out, op)
        .word(out, handle)
        .byte(out, code)
        .len
}

// One byte for what is done, or the error.
pub fn done_response<C: Code>(
    out: &mut [u8],
    ok: u8,
    op: u8,
    handle: u16,
    done: Result<(), C>,
) -> usize
    requires { 5 ≤ length out.old }
    ensures { Sent out.old out.new result (done_as C.code (ok ∷ []) op handle done) }
{
    match done {
        Ok(()) => WriteCursor::new().byte(out, ok).len,
        Err(code) => error_response(out, op, handle, code),
    }
}
