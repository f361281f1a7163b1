// `process_timeout`.
ghost use Rattle.std.specs.Prelude.{length};
ghost use Rattle.state.specs.Turns.{Did};
ghost use Rattle.process_timeout.specs.ProcessTimeout.{process_timeout_turn};

use crate::dues;
use state::answers;
use state::answers::{Asks, Done};
use state::fields::Coordinator;

pub fn process_timeout(s: Coordinator, store: &[u8], out: &mut [u8], clock: u64) -> Done
    ensures { Did (process_timeout_turn clock (length out.old) s store.now)
        out.old result store.now out.new }
{
    let asks = Asks {
        no_job: true,
        a_job: false,
        room: true,
    };
    let passed = answers::before(s, store.len(), out.len(), asks);
    match passed {
        Err(n) => answers::refused(s, n),
        Ok(()) => dues::answer_due(s, store, out, clock, dues::timeout_due(s, clock)),
    }
}
