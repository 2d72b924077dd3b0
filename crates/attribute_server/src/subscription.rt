// What a peer has subscribed to: `Done` for yes, `Nothing` for no.
ghost use Rattle.std.specs.Prelude.{◌≡◌, []};
ghost use Rattle.application.specs.Calls.{bit_of};
ghost use Rattle.state.specs.Lent.{held};
ghost use Rattle.model.specs.Told.{told_answer};
ghost use Rattle.attribute_server.specs.Subscription.{subscribed_told};

use admission::admit;
use application::Bell;
use model::{Answer, CallError};
use peers::{Identity, Want};
use state::Lent;

// Whether the subscription's bit is set in the peer's own value of two bytes under a handle.
pub fn should(hub: Lent, who: Identity, handle: u16, bell: Bell) -> Result<Answer, CallError>
    ensures { let s = held hub.entry in
        told_answer [] result ≡ subscribed_told s who handle (bit_of bell) }
{
    admit(hub, who)?;
    let slot = peers::inner::first(hub.row, who, Want::Own);
    if application::inner::is_subscribed(hub.tables, slot, handle, bell.bit()) {
        return Ok(Answer::Done);
    }
    Ok(Answer::Nothing)
}
