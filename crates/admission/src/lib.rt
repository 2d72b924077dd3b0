// The refusals that come before anything else, in one place: the lowest number first, and a call that is refused
// changes nothing. 1 is for a state that is not valid, 2 for a bad buffer, 3 for a bad identity.
#![tactic(auto)]

pub mod request;

ghost use Rattle.std.specs.Prelude.{◌≡◌, false};
ghost use Rattle.peers.specs.Identity.{is_bad};
ghost use Rattle.state.specs.Lent.{held};
ghost use Rattle.state.specs.Valid.{valid};
ghost use Rattle.admission.specs.Admission.{admission_by};

use model::CallError;
use peers::Identity;
use state::Lent;

// Whether a call of the application is let in.
#[tactic(auto, unfolding(crate::specs::Admission::admission_by))]
pub fn admit(hub: Lent, who: Identity) -> Result<(), CallError>
    ensures { result ≡ admission_by (valid (held hub.entry)) false (is_bad who) }
{
    if !state::is_valid(hub) {
        return Err(CallError::BadState);
    }
    if peers::who::is_bad(who) {
        return Err(CallError::BadPeer);
    }
    Ok(())
}
