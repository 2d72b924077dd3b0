// A request let in: it brings a buffer for its response, and meets the link's prepared write.
ghost use Rattle.std.specs.Prelude.{◌≡◌, ◌≤◌};
ghost use Rattle.peers.specs.Identity.{is_bad};
ghost use Rattle.state.specs.Lent.{held};
ghost use Rattle.state.specs.Valid.{valid_with};
ghost use Rattle.admission.specs.Admission.{admission_by, is_too_long, is_bad_buffer};

use model::{CallError, Change, Request};
use peers::Identity;
use state::{Lent, Prepared};

// Whether a request brings more than its answer can repeat: a Prepare Write, in a buffer of at least 23 bytes.
fn is_too_long(rq: Request, n: usize, room: usize) -> bool
    requires { 23 ≤ room }
    ensures { result ≡ is_too_long rq n room }
{
    match rq {
        Request::Change(Change::PrepareWrite { .. }) => room - 5 < n,
        _ => false,
    }
}

// Whether a buffer of so many bytes is refused for a request that brings n.
#[tactic(auto, unfolding(crate::specs::Admission::is_bad_buffer))]
fn is_bad_buffer(rq: Request, n: usize, room: usize) -> bool
    ensures { result ≡ is_bad_buffer rq n room }
{
    room < 23 || 517 < room || is_too_long(rq, n, room)
}

// Whether a request is let in.
#[tactic(auto, unfolding(crate::specs::Admission::admission_by))]
pub fn admit_request(
    hub: Lent,
    who: Identity,
    p: Prepared,
    rq: Request,
    n: usize,
    room: usize,
) -> Result<(), CallError>
    ensures { result ≡ admission_by (valid_with (held hub.entry) p) (is_bad_buffer rq n room) (is_bad who) }
{
    if !state::is_valid_with(hub, p) {
        return Err(CallError::BadState);
    }
    if is_bad_buffer(rq, n, room) {
        return Err(CallError::BadBuffer);
    }
    if peers::who::is_bad(who) {
        return Err(CallError::BadPeer);
    }
    Ok(())
}
