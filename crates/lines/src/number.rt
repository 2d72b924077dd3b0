// Numbers and bytes in hex, as words of a line. Capitals or not, both are read.
ghost use Rattle.std.specs.Prelude.{◌<◌, IfSome};

use crate::words;

// A digit's value, if it is one.
fn digit(c: u8) -> Option<u32>
    ensures { IfSome result (λ d. d < 16) }
{
    char::from(c).to_digit(16)
}

// A number below 2^32, with any zeros in front.
pub fn number(w: &[u8]) -> Option<u32> {
    if w.is_empty() {
        return None;
    }
    let mut v = 0u32;
    for c in w {
        v = v.checked_mul(16)?.checked_add(digit(*c)?)?;
    }
    Some(v)
}

// Pairs of digits as bytes at the start of out, if it has room for them.
fn pairs<'a>(w: &[u8], out: &'a mut [u8]) -> Option<&'a [u8]> {
    if w.len() % 2 == 1 {
        return None;
    }
    let out = out.get_mut(..w.len() / 2)?;
    for (b, pair) in out.iter_mut().zip(w.chunks_exact(2)) {
        *b = u8::try_from(number(pair)?).ok()?;
    }
    Some(out)
}

// Bytes: pairs of digits, or `-` for none. They stand at the start of out.
pub fn bytes<'a>(w: &[u8], out: &'a mut [u8]) -> Option<&'a [u8]> {
    match w {
        b"" => None,
        b"-" => Some(&[]),
        _ => pairs(w, out),
    }
}

// Word k of a line as a number, if it is one and fits its type.
pub fn at<T: TryFrom<u32>>(line: &[u8], k: usize) -> Option<T>
where
    T::Error: Drop,
{
    T::try_from(number(words::word(line, k))?).ok()
}

// Word k of a line as bytes.
pub fn bytes_at<'a>(line: &[u8], k: usize, out: &'a mut [u8]) -> Option<&'a [u8]> {
    bytes(words::word(line, k), out)
}
