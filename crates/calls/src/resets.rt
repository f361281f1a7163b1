// `reset`: a round is abandoned, then key generation's end is forgotten.
ghost use Rattle.std.specs.Prelude.{◌≡◌, []};
ghost use Rattle.state.specs.Turns.{Did};
ghost use Rattle.calls.specs.Resets.{abandoned, forgotten, reset_turn};

use layout::SIGNER_LIMIT;
use state::answers;
use state::answers::{Asks, Done};
use state::fields::{Clocks, Coordinator, Marks, Position, Records};
use state_table::State;

fn abandon(s: Coordinator) -> Coordinator
    ensures { result ≡ abandoned s }
{
    Coordinator {
        position: Position {
            state: State::Idle,
            ..s.position
        },
        records: Records {
            count: 0,
            ..s.records
        },
        shares: state::replaced::no_shares(),
        clocks: Clocks {
            nonce_start: None,
            sign_start: None,
        },
        job: false,
        ..s
    }
}

fn forget(s: Coordinator) -> Coordinator
    ensures { result ≡ forgotten s }
{
    Coordinator {
        marks: Marks {
            ended: [false; SIGNER_LIMIT],
            ..s.marks
        },
        ..s
    }
}

pub fn reset(s: Coordinator, store: &[u8]) -> Done
    ensures { Did (reset_turn s store.now) [] result store.now [] }
{
    let asks = Asks {
        no_job: false,
        a_job: false,
        room: false,
    };
    let passed = answers::before(s, store.len(), 0, asks);
    match passed {
        Err(n) => answers::refused(s, n),
        Ok(()) => {
            let after = forget(abandon(s));
            answers::quiet(after)
        }
    }
}
