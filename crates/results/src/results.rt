// The call that takes key generation's results: the dkg id and the signers that ended.
ghost use Rattle.std.specs.Prelude.{◌≡◌, []};
ghost use Rattle.state.specs.Turns.{Did};
ghost use Rattle.results.specs.Results.{results_asked, with_results, results_turn};

use crate::ended;
use layout::{Ids, SIGNER_LIMIT};
use state::answers;
use state::answers::{Asks, Done};
use state::fields::Coordinator;

// Idle (24)? At most 10 ids, repeats counted, all configured (25)?
#[tactic(auto, using(crate::proofs::Walks::idle_number), unfolding(crate::specs::Results::results_asked))]
fn questions(s: Coordinator, ended: &[u32]) -> Result<(), u32>
    ensures { result ≡ results_asked ended.now s }
{
    if state_table::state_number(s.position.state) != 0 {
        return Err(24);
    }
    if SIGNER_LIMIT < ended.len() || !ended::are_known(s.config, ended) {
        return Err(25);
    }
    Ok(())
}

#[tactic(auto, unfolding(crate::specs::Results::with_results))]
fn with_results(s: Coordinator, dkg_id: u64, ended: &[u32]) -> Coordinator
    ensures { result ≡ with_results dkg_id ended.now s }
{
    Coordinator {
        ids: Ids { dkg_id, ..s.ids },
        marks: ended::ended_marks(s.marks, s.config, ended),
        ..s
    }
}

pub fn take_results(s: Coordinator, store: &[u8], dkg_id: u64, ended: &[u32]) -> Done
    ensures { Did (results_turn dkg_id ended.now s store.now) [] result store.now [] }
{
    let asks = Asks {
        no_job: true,
        a_job: false,
        room: false,
    };
    let passed = answers::before(s, store.len(), 0, asks);
    match passed {
        Err(n) => answers::refused(s, n),
        Ok(()) => {
            let own = questions(s, ended);
            match own {
                Err(m) => answers::refused(s, m),
                Ok(()) => answers::quiet(with_results(s, dkg_id, ended)),
            }
        }
    }
}
