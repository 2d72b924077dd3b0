// Whether a peer has subscribed: done says yes, nothing no.
ghost use Rattle.std.specs.Prelude.{◌≡◌};
ghost use Rattle.application.specs.Calls.{bit_of};
ghost use Rattle.state.specs.Lent.{held};
ghost use Rattle.attribute_server.specs.Subscription.{subscribed_told};
ghost use Rattle.numbers.specs.Reply.{reply_to};

use application::Bell;
use numbers::Reply;
use peers::Identity;
use state::Lent;

// To notifications, or to indications.
pub fn should(hub: Lent, who: Identity, handle: u16, bell: Bell) -> Reply
    ensures { let s = held hub.entry in
        result ≡ reply_to (subscribed_told s who handle (bit_of bell)) }
{
    Reply::from(attribute_server::subscription::should(hub, who, handle, bell))
}
