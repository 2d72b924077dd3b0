// Answers as numbers.
ghost use Rattle.std.specs.Prelude.{◌≡◌};
ghost use Rattle.table_view.specs.Told.{att};
ghost use Rattle.numbers.specs.Reply.{reply_to, reply_of, error_reply};

use crate::Reply;
use model::{Answer, CallError};
use wire::att::Code;

// Refused, by a number.
pub fn refused(n: u8) -> Reply
    ensures { result ≡ record { status = 4; code = n; len = 0 } }
{
    Reply {
        status: 4,
        code: n,
        len: 0,
    }
}

// An ATT error, by its name or any code.
pub fn att<C: Code>(code: C) -> Reply
    ensures { result ≡ reply_to (att (C.code code)) }
{
    Reply {
        status: 3,
        code: code.to_byte(),
        len: 0,
    }
}

impl From<CallError> for Reply {
    ghost from_gives = { λ e r. r ≡ error_reply e };

    fn from(e: CallError) -> Reply {
        match e {
            CallError::BadState => refused(1),
            CallError::BadBuffer => refused(2),
            CallError::BadPeer => refused(3),
            CallError::BadTable => refused(4),
            CallError::NoSlot => refused(7),
            CallError::NoHandle => refused(8),
            CallError::WrongLength => refused(9),
            CallError::Att(code) => att(code),
        }
    }
}

impl From<Result<Answer, CallError>> for Reply {
    ghost from_gives = { λ a r. r ≡ reply_of a };

    // An answer as a reply.
    fn from(a: Result<Answer, CallError>) -> Reply {
        match a {
            Err(e) => Reply::from(e),
            Ok(Answer::Done) => Reply {
                status: 0,
                code: 0,
                len: 0,
            },
            Ok(Answer::Nothing) => Reply {
                status: 1,
                code: 0,
                len: 0,
            },
            Ok(Answer::Value(n)) => Reply {
                status: 2,
                code: 0,
                len: n,
            },
        }
    }
}
