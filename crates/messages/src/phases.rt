// Which of four ways a state hears messages.
ghost use Rattle.std.specs.Prelude.{◌≡◌};
ghost use Rattle.step_definition.specs.Phases.{phase_of};
ghost use Rattle.messages.specs.Phases.{phase_answer};

use layout::SignatureType;
use state_table::State;

#[derive(Clone, Copy)]
pub enum Phase {
    Idling,
    GatheringNonces(SignatureType),
    GatheringShares(SignatureType),
    Resting,
}

#[tactic(auto, using(crate::proofs::Resting::resting), unfolding(crate::specs::Phases::phase_answer))]
pub fn phase_of(state: State) -> Phase
    ensures { result ≡ phase_answer (phase_of state) }
{
    match state {
        State::Idle => Phase::Idling,
        State::NonceGather(t) => Phase::GatheringNonces(t),
        State::SigShareGather(t) => Phase::GatheringShares(t),
        _ => Phase::Resting,
    }
}
