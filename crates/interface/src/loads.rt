// The state that bytes count as.
ghost use Rattle.std.specs.Prelude.{◌≡◌};
ghost use Rattle.state_bytes.specs.Loaded.{unsaved, is_saved, loaded};

use loading::states;
use state::fields::Coordinator;
use state_bytes::STATE_LENGTH;

// The state of zeros: uncommissioned.
pub fn unsaved() -> Coordinator
    ensures { result ≡ unsaved }
{
    states::state_at(&[0u8; STATE_LENGTH])
}

// The state that bytes count as, and whether a save left them.
#[derive(Clone, Copy)]
pub struct Loaded {
    pub saved: bool,
    pub state: Coordinator,
}

// What the bytes say, where a save left them; else the uncommissioned state.
pub fn load(s: &[u8]) -> Loaded
    ensures { (result.saved ≡ is_saved s.now) × (result.state ≡ loaded s.now) }
{
    if saved_test::states::is_saved(s) {
        Loaded {
            saved: true,
            state: states::state_at(s),
        }
    } else {
        Loaded {
            saved: false,
            state: unsaved(),
        }
    }
}
