// The aggregator's answer: success moves to Idle with the result kind; failure is 23. The job is no longer out.
ghost use Rattle.std.specs.Prelude.{◌≡◌, []};
ghost use Rattle.state.specs.Turns.{Did};
ghost use Rattle.step_definition.specs.Step.{type_or, result_number};
ghost use Rattle.calls.specs.Calls.{kind_of, without_job, signed, aggregated_turn};

use layout::{ResultKind, SignatureType};
use state::answers;
use state::answers::{Asks, Done};
use state::fields::{Coordinator, Position};
use state_table::State;

// A state without a type gives the result kind of type 0.
fn type_or(found: Option<SignatureType>) -> SignatureType
    ensures { result ≡ type_or found }
{
    match found {
        None => SignatureType::Frost,
        Some(t) => t,
    }
}

fn result_number(kind: ResultKind) -> u64
    ensures { result ≡ result_number kind }
{
    match kind {
        ResultKind::Sign => 0,
        ResultKind::SignSchnorr => 1,
        ResultKind::SignTaproot => 2,
    }
}

// The number of the result kind that a round in this state gives.
fn kind_of(state: State) -> u64
    ensures { result ≡ kind_of state }
{
    result_number(layout::result_kind(type_or(state_table::type_in(state))))
}

fn to_idle(s: Coordinator) -> Coordinator
    ensures { result ≡ signed s }
{
    Coordinator {
        position: Position {
            state: State::Idle,
            ..s.position
        },
        job: false,
        ..s
    }
}

fn drop_job(s: Coordinator) -> Coordinator
    ensures { result ≡ without_job s }
{
    Coordinator { job: false, ..s }
}

pub fn aggregated(s: Coordinator, store: &[u8], ok: bool) -> Done
    ensures { Did (aggregated_turn ok s store.now) [] result store.now [] }
{
    let asks = Asks {
        no_job: false,
        a_job: true,
        room: false,
    };
    let passed = answers::before(s, store.len(), 0, asks);
    match passed {
        Err(n) => answers::refused(s, n),
        Ok(()) => {
            if ok {
                let after = to_idle(s);
                answers::telling(after, kind_of(s.position.state))
            } else {
                answers::failed(drop_job(s), 23)
            }
        }
    }
}
