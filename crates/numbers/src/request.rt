// Numbers as links and requests.
ghost use Rattle.std.specs.Prelude.{◌≡◌};
ghost use Rattle.numbers.specs.Request.{link_of, request_of};

use crate::RequestNumbers;
use attribute::Link;
use model::{Ask, Change, Range, Request};

// A link's level: 1 plain, 2 encrypted, 3 authenticated. By any other number the link is gone, which meets no need.
// By hand: a function and no `From<u8>`, which only the crate that declares `Link` may write; the numbers are this
// boundary's.
#[tactic(auto, unfolding(crate::specs::Request::link_of))]
pub fn link(level: u8) -> Link
    ensures { result ≡ link_of level }
{
    match level {
        1 => Link::Plain,
        2 => Link::Encrypted,
        3 => Link::Authenticated,
        _ => Link::Gone,
    }
}

impl From<RequestNumbers> for Request {
    ghost from_gives = { λ q rq. rq ≡ request_of q };

    // A request by its opcode. By any other it is a confirmation, which is not answered and changes nothing. Execute
    // Write writes by the flags 1 alone.
    #[tactic(auto, unfolding(crate::specs::Request::request_of, crate::specs::Request::is_ask, crate::specs::Request::ask_of, crate::specs::Request::is_change, crate::specs::Request::change_of, crate::specs::Request::other_of))]
    fn from(q: RequestNumbers) -> Request {
        let (handle, offset) = (q.handle, q.other);
        let range = Range {
            start: q.handle,
            end: q.other,
        };
        match q.op {
            0x02 => Request::ExchangeMtu { mtu: q.other },
            0x04 => Request::Ask(Ask::FindInformation(range)),
            0x06 => Request::FindByTypeValue {
                range,
                uuid: q.uuid,
            },
            0x08 => Request::Ask(Ask::ReadByType(range)),
            0x0A => Request::Ask(Ask::Read { handle }),
            0x0C => Request::Ask(Ask::ReadBlob { handle, offset }),
            0x0E => Request::Ask(Ask::ReadMultiple),
            0x10 => Request::Ask(Ask::ReadByGroupType(range)),
            0x12 => Request::Change(Change::Write { handle }),
            0x16 => Request::Change(Change::PrepareWrite { handle, offset }),
            0x18 => Request::Change(Change::ExecuteWrite {
                flags: u8::from(q.other == 1),
            }),
            0x52 => Request::Change(Change::WriteCommand { handle }),
            _ => Request::Confirmation,
        }
    }
}
