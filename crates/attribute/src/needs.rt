// What a link may do with a value.
ghost use Rattle.std.specs.Prelude.{◌≡◌};
ghost use Rattle.attribute.specs.Needs.{told_access, told_as, level_of, access_as, access_told, may_do, can_do_told};

use crate::{Attribute, Link, Wish, inner, lookup};
use wire::att::{AttError, Code};
use wire::sizes::Record;

// The highest need that a link meets.
fn level(link: Link) -> u8
    ensures { result ≡ level_of link }
{
    match link {
        Link::Plain => 1,
        Link::Encrypted => 2,
        Link::Authenticated => 3,
        Link::Gone => 0,
    }
}

// Whether a link meets a need; `never` is the error of need 0, by its name or any code.
#[tactic(auto, unfolding(crate::specs::Needs::access_as))]
pub fn access<C: Code>(link: Link, never: C, need: u8) -> Result<(), C>
    ensures gives { result ≡ access_as C.made link never need }
    ensures tells { told_as C.code result ≡ access_told link (C.code never) need }
{
    let most = level(link);
    if most == 0 {
        return Err(C::of(AttError::InvalidHandle));
    }
    if need == 0 {
        return Err(never);
    }
    if need <= most {
        return Ok(());
    }
    if need == 2 {
        return Err(C::of(AttError::InsufficientEncryption));
    }
    Err(C::of(AttError::InsufficientAuthentication))
}

// Whether a link may do with an entry what it wishes.
pub fn may(a: Attribute, link: Link, wish: Wish) -> Result<(), AttError>
    ensures { result ≡ may_do wish a link }
{
    match wish {
        Wish::Read => access(link, AttError::ReadNotPermitted, a.reads),
        Wish::Write => access(link, AttError::WriteNotPermitted, a.writes),
    }
}

// The same by handle: 0x01 for one that is not listed.
pub fn can(list: &[Record], link: Link, handle: u16, wish: Wish) -> Result<(), AttError>
    ensures { told_access result ≡ can_do_told wish list.now link handle }
{
    let i = lookup::find_handle(list, handle).ok_or(AttError::InvalidHandle)?;
    may(inner::decode(&list[i]), link, wish)
}
