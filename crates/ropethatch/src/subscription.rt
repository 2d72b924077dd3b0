// Whether a peer has subscribed: done says yes, nothing no.
ghost use Rattle.std.specs.Prelude.{◌≡◌};
ghost use Rattle.state.specs.State.{lent};
ghost use Rattle.attribute_server.specs.Subscription.{subscribed_told};
ghost use Rattle.numbers.specs.Reply.{reply_to};

use application::Bell;
use numbers::Reply;
use peers::Identity;
use state::Lent;
use wire::sizes::{Record, SlotBytes, Table};

// To notifications.
#[unsafe(no_mangle)]
pub extern "C" fn ropethatch_should_notify(
    row: &[SlotBytes],
    list: &[Record],
    store: &[u8],
    tables: &[Table],
    who: Identity,
    handle: u16,
) -> Reply
    ensures { let s = lent list.now store.now row.now tables.now in
        result ≡ reply_to (subscribed_told s who handle 1) }
{
    let hub = Lent {
        list,
        store,
        row,
        tables,
    };
    edge::subscription::should(hub, who, handle, Bell::Notify)
}

// To indications.
#[unsafe(no_mangle)]
pub extern "C" fn ropethatch_should_indicate(
    row: &[SlotBytes],
    list: &[Record],
    store: &[u8],
    tables: &[Table],
    who: Identity,
    handle: u16,
) -> Reply
    ensures { let s = lent list.now store.now row.now tables.now in
        result ≡ reply_to (subscribed_told s who handle 2) }
{
    let hub = Lent {
        list,
        store,
        row,
        tables,
    };
    edge::subscription::should(hub, who, handle, Bell::Indicate)
}
