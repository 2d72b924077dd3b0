// Values into a buffer, cut to what it can take. Bytes past the reported length stay as lent.
ghost use Rattle.std.specs.Prelude.{◌≡◌, [], ◌≤◌, ◌<◌, length, get_or};
ghost use Rattle.attribute.specs.Record.{attribute_of};
ghost use Rattle.model.specs.Value.{read_of, read_from};
ghost use Rattle.model.specs.View.{seen_all, read_at};
ghost use Rattle.model.specs.Answer.{Sent, value_rsp, multiple_rsp};
ghost use Rattle.reading.specs.Copy.{copied_of, copy_of};

use attribute::Link;
use values::Values;
use wire::att::AttError;
use wire::cursor::WriteCursor;

// The value under a handle, from an offset on, behind its opcode; or the error. The offset is tested after the
// permission.
fn respond(
    v: Values,
    link: Link,
    handle: u16,
    offset: usize,
    op: u8,
    rsp: u8,
    out: &mut [u8],
) -> usize
    requires { 5 ≤ length out.old }
    ensures { Sent out.old out.new result (value_rsp rsp op handle (length out.old) (read_from offset (read_at handle (seen_all link v.entry.list.now v.entry.store.now v.entry.table.now)))) }
{
    match values::inner::locate(v.list, v.table, link, handle) {
        Err(code) => response::inner::error_response(out, op, handle, code),
        Ok(s) => {
            if s.len < offset {
                return response::inner::error_response(out, op, handle, AttError::InvalidOffset);
            }
            let n = (s.len - offset).min(out.len() - 1);
            let c = WriteCursor::new().byte(out, rsp);
            let c = values::inner::append_span(c, out, v.store, v.table, s, offset, n);
            c.len
        }
    }
}

// Read (0x0A).
pub fn read(v: Values, link: Link, handle: u16, out: &mut [u8]) -> usize
    requires { 5 ≤ length out.old }
    ensures { Sent out.old out.new result (value_rsp 0x0B 0x0A handle (length out.old) (read_at handle (seen_all link v.entry.list.now v.entry.store.now v.entry.table.now))) }
{
    respond(v, link, handle, 0, 0x0A, 0x0B, out)
}

// Read Blob (0x0C).
pub fn read_blob(v: Values, link: Link, handle: u16, offset: u16, out: &mut [u8]) -> usize
    requires { 5 ≤ length out.old }
    ensures { Sent out.old out.new result (value_rsp 0x0D 0x0C handle (length out.old) (read_from offset (read_at handle (seen_all link v.entry.list.now v.entry.store.now v.entry.table.now)))) }
{
    respond(v, link, handle, usize::from(offset), 0x0C, 0x0D, out)
}

// Read Multiple (0x0E), which is not served.
pub fn read_multiple(handles: &[u8], out: &mut [u8]) -> usize
    requires { 5 ≤ length out.old }
    ensures { Sent out.old out.new result (multiple_rsp handles.now) }
{
    if handles.len() < 2 {
        return response::inner::error_response(out, 0x0E, 0, AttError::InvalidPdu);
    }
    let first = wire::inner::get(handles, 0);
    response::inner::error_response(out, 0x0E, first, AttError::AttributeNotFound)
}

// The value of the entry at place i, whoever asks, into a buffer of any length.
pub fn copy_value(v: Values, i: usize, out: &mut [u8]) -> Result<usize, AttError>
    requires { i < length v.list.now }
    ensures { (result ≡ copied_of (length out.old) (read_of v.entry.store.now v.entry.table.now (attribute_of (get_or v.entry.list.now i []))))
        × (out.new ≡ copy_of out.old (read_of v.entry.store.now v.entry.table.now (attribute_of (get_or v.entry.list.now i [])))) }
{
    let s = values::inner::locate_value(v.list, v.table, i)?;
    let n = s.len.min(out.len());
    let c = values::inner::append_span(WriteCursor::new(), out, v.store, v.table, s, 0, n);
    Ok(c.len)
}
