// Who calls, and over which link.
use lines::{number, words};
use peers::Identity;

// Word k as an identity, if it is one: its kind, then the address, low byte first.
pub fn read(line: &[u8], k: usize) -> Option<Identity> {
    let mut d = [0; 7];
    match number::bytes_at(line, k, &mut d)? {
        [kind, a, b, c, d, e, f] => Some(Identity {
            kind: *kind,
            addr: [*a, *b, *c, *d, *e, *f],
        }),
        _ => None,
    }
}

// Word k as a link's level, if it is one, by the number that the server takes.
pub fn level(line: &[u8], k: usize) -> Option<u8> {
    match words::word(line, k) {
        b"g" => Some(0),
        b"p" => Some(1),
        b"e" => Some(2),
        b"a" => Some(3),
        _ => None,
    }
}
