// Text put into a lent buffer, piece after piece: each call is told the place of its piece and answers the place of the
// next. What has no room is left out, and the places count on, so that a caller knows at the end how long the whole
// text is.
ghost use Rattle.std.specs.Prelude.{◌≡◌, [], ◌∷◌, ◌<◌};
ghost use Rattle.text.specs.Hex.{digit_of, hex_of};
ghost use Rattle.text.specs.Decimal.{decimal_of};
ghost use Rattle.text.specs.Put.{Put, Short};

// A number below 16 as a digit: 0 to 9, then the capitals A to F.
#[tactic(auto, unfolding(crate::specs::Hex::digit_of))]
fn digit(n: u8) -> u8
    requires { n < 16 }
    ensures { result ≡ digit_of n }
{
    if n < 10 { b'0' + n } else { b'A' + (n - 10) }
}

// Puts one byte.
#[tactic(auto, using(crate::proofs::Pieces::no_room))]
fn byte(out: &mut [u8], at: usize, b: u8) -> usize
    requires { Short at (b ∷ []) }
    ensures { Put out.old out.new at result (b ∷ []) }
{
    if out.len() <= at {
        return at + 1;
    }
    out[at] = b;
    at + 1
}

// Puts bytes as they are.
pub fn bytes(out: &mut [u8], at: usize, d: &[u8]) -> usize
    requires { Short at d.now }
    ensures { Put out.old out.new at result d.now }
{
    let mut next = at;
    for b in d {
        next = byte(out, next, *b);
    }
    next
}

// Puts bytes as pairs of capital hex digits.
pub fn hex(out: &mut [u8], at: usize, d: &[u8]) -> usize
    requires { Short at (hex_of d.now) }
    ensures { Put out.old out.new at result (hex_of d.now) }
{
    let mut next = at;
    for b in d {
        let low = byte(out, next, digit(*b / 16));
        next = byte(out, low, digit(*b % 16));
    }
    next
}

// Puts a number in decimal digits.
pub fn decimal(out: &mut [u8], at: usize, n: usize) -> usize
    requires { Short at (decimal_of n) }
    ensures { Put out.old out.new at result (decimal_of n) }
{
    if n <= 9 {
        return byte(out, at, digit(n as u8));
    }
    let last = decimal(out, at, n / 10);
    byte(out, last, digit((n % 10) as u8))
}
