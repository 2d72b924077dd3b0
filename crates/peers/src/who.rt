// Identities: who a peer is.
ghost use Rattle.std.specs.Prelude.{◌≡◌};
ghost use Rattle.peers.specs.Identity.{same_id, is_empty, is_bad, number_of, Seven};

use crate::Identity;

// An identity as one number. Its seven bytes lie side by side, low byte first, as in memory.
fn number(a: Identity) -> u64
    ensures { (result ≡ number_of a) × Seven a }
{
    let [a0, a1, a2, a3, a4, a5] = a.addr;
    u64::from_le_bytes([a.kind, a0, a1, a2, a3, a4, a5, 0])
}

// Whether two identities match: by equality, of their numbers, which is one comparison and not seven.
pub fn same(a: Identity, b: Identity) -> bool
    ensures { result ≡ same_id a b }
{
    number(a) == number(b)
}

// Whether an identity is the empty one.
#[tactic(auto, unfolding(crate::specs::Identity::is_empty, wire::specs::Test::both))]
pub fn is_empty(a: Identity) -> bool
    ensures { result ≡ is_empty a }
{
    a.kind == 0 && wire::bytes::is_zero(&a.addr)
}

// Whether a call with this identity is refused 3.
#[tactic(auto, unfolding(crate::specs::Identity::is_bad))]
pub fn is_bad(a: Identity) -> bool
    ensures { result ≡ is_bad a }
{
    is_empty(a) || 1 < a.kind
}
