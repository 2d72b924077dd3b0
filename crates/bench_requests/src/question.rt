// The request of a `req` line, from its sixth word on.
use lines::{number, words};
use numbers::RequestNumbers;

// What a request's name says, if it is one: its opcode, and how many numbers and how many words of bytes follow.
fn form(name: &[u8]) -> Option<(u8, u8, u8)> {
    match name {
        b"fi" => Some((0x04, 2, 0)),
        b"ftv" => Some((0x06, 3, 1)),
        b"rbt" => Some((0x08, 2, 1)),
        b"rbg" => Some((0x10, 2, 1)),
        b"rd" => Some((0x0A, 1, 0)),
        b"rb" => Some((0x0C, 2, 0)),
        b"rm" => Some((0x0E, 0, 1)),
        b"wr" => Some((0x12, 1, 1)),
        b"wc" => Some((0x52, 1, 1)),
        b"pw" => Some((0x16, 2, 1)),
        b"ex" => Some((0x18, 1, 0)),
        b"mtu" => Some((0x02, 1, 0)),
        b"cf" => Some((0x1E, 0, 0)),
        _ => None,
    }
}

// Number i of a request that has so many, 0 where it has fewer.
fn number_at(line: &[u8], numbers: u8, i: u8) -> Option<u16> {
    if numbers <= i {
        return Some(0);
    }
    number::at(line, 6 + usize::from(i))
}

// Flags and an MTU are no handle, and flags are a byte.
fn made(op: u8, first: u16, second: u16, uuid: u16) -> Option<RequestNumbers> {
    let (handle, other) = match op {
        0x18 if 0xFF < first => return None,
        0x18 | 0x02 => (0, first),
        _ => (first, second),
    };
    Some(RequestNumbers {
        op,
        handle,
        other,
        uuid,
    })
}

// The request, if the line has one, and its bytes, put at the start of d. After its first word the line has n more.
pub fn read<'a>(line: &[u8], n: usize, d: &'a mut [u8]) -> Option<(RequestNumbers, &'a [u8])> {
    let (op, numbers, payloads) = form(words::word(line, 5))?;
    let end = 6 + usize::from(numbers);
    if n != end - 1 + usize::from(payloads) {
        return None;
    }
    let first = number_at(line, numbers, 0)?;
    let second = number_at(line, numbers, 1)?;
    let uuid = number_at(line, numbers, 2)?;
    let asked = made(op, first, second, uuid)?;
    if payloads == 0 {
        return Some((asked, &[]));
    }
    Some((asked, number::bytes_at(line, end, d)?))
}
