// The call that sets or clears one of the two held keys.
ghost use Rattle.std.specs.Prelude.{◌≡◌, []};
ghost use Rattle.state.specs.Turns.{Did};
ghost use Rattle.calls.specs.Calls.{keys_with, set_key_turn};

use state::answers;
use state::answers::{Asks, Done};
use state::fields::{Coordinator, Keys};

#[derive(Clone, Copy)]
pub enum HeldKey {
    Coordinator,
    Aggregate,
}

fn with_key(keys: Keys, which: HeldKey, held: bool) -> Keys
    ensures { result ≡ keys_with which held keys }
{
    match which {
        HeldKey::Coordinator => Keys {
            coordinator: held,
            ..keys
        },
        HeldKey::Aggregate => Keys {
            aggregate: held,
            ..keys
        },
    }
}

pub fn set_key(s: Coordinator, store: &[u8], which: HeldKey, held: bool) -> Done
    ensures { Did (set_key_turn which held s store.now) [] result store.now [] }
{
    let asks = Asks {
        no_job: true,
        a_job: false,
        room: false,
    };
    let passed = answers::before(s, store.len(), 0, asks);
    match passed {
        Err(n) => answers::refused(s, n),
        Ok(()) => answers::quiet(Coordinator {
            keys: with_key(s.keys, which, held),
            ..s
        }),
    }
}
