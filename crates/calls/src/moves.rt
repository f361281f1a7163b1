// The move question (`can_move_to`): yes or no is a value, 1 or 0.
ghost use Rattle.std.specs.Prelude.{◌≡◌, []};
ghost use Rattle.state.specs.Turns.{Did};
ghost use Rattle.calls.specs.Calls.{move_turn};

use state::answers;
use state::answers::{Asks, Done};
use state::fields::Coordinator;
use state_table::State;

pub fn can_move_to(s: Coordinator, store: &[u8], next: State, root: [u8; 32]) -> Done
    ensures { Did (move_turn next root s store.now) [] result store.now [] }
{
    let asks = Asks {
        no_job: true,
        a_job: false,
        room: false,
    };
    let passed = answers::before(s, store.len(), 0, asks);
    match passed {
        Err(n) => answers::refused(s, n),
        Ok(()) => {
            if state_table::can_move_to(s.position.state, s.position.root, next, root) {
                answers::telling(s, 1)
            } else {
                answers::telling(s, 0)
            }
        }
    }
}
