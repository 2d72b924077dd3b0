// What the application asks of a valid state: values and subscriptions of a peer, without a permission test, and its
// whole table.
#![tactic(auto)]

ghost use Rattle.std.specs.Prelude.{◌≡◌, ◌<◌};
ghost use Rattle.application.specs.Calls.{bit_of};

pub mod inner;

// What a peer subscribes to: notifications, or indications.
#[derive(Clone, Copy, Debug, PartialEq, Eq)]
pub enum Bell {
    Notify,
    Indicate,
}

impl Bell {
    // The bit that a subscription sets: bit 0 or bit 1.
    pub fn bit(self) -> u8
        ensures { (result ≡ bit_of self) × (0 < result) }
    {
        match self {
            Bell::Notify => 1,
            Bell::Indicate => 2,
        }
    }
}
