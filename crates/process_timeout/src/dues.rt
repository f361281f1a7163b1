// Which timeout fires, and what it does.
ghost use Rattle.std.specs.Prelude.{◌≡◌, length};
ghost use Rattle.step_definition.specs.Phases.{phase_of};
ghost use Rattle.step_definition.specs.Questions.{fires};
ghost use Rattle.state.specs.View.{reading};
ghost use Rattle.state.specs.Turns.{Did};
ghost use Rattle.share_timeout.specs.ShareTimeout.{Late};
ghost use Rattle.process_timeout.specs.Due.{due_in, due_of, due_turn, quiet_turn};

use layout::SignatureType;
use state::answers;
use state::answers::Done;
use state::fields::Coordinator;
use state_table::State;

// The timeout that fires; for shares with the type that they are gathered for.
#[derive(Clone, Copy)]
pub enum Due {
    Nothing,
    Nonces,
    Shares(SignatureType),
}

// A clock that went back counts as elapsed 0.
#[tactic(auto, unfolding(step_definition::specs::Questions::fires, state::specs::View::reading))]
fn is_late(clock: u64, start: Option<u64>, timeout: Option<u64>) -> bool
    ensures { result ≡ fires clock (reading start) (reading timeout) }
{
    match (start, timeout) {
        (Some(begun), Some(limit)) => limit < clock.saturating_sub(begun),
        _ => false,
    }
}

// Only the two gathering states have timeouts.
#[tactic(auto, using(crate::proofs::States::none_due), unfolding(crate::specs::Due::due_in))]
fn due_in(state: State, nonces: bool, shares: bool) -> Due
    ensures { result ≡ due_in (phase_of state) nonces shares }
{
    match state {
        State::NonceGather(_) if nonces => Due::Nonces,
        State::SigShareGather(t) if shares => Due::Shares(t),
        _ => Due::Nothing,
    }
}

// The nonces' clock is tested with the nonces' timeout, the shares' clock with the shares'.
pub fn timeout_due(s: Coordinator, clock: u64) -> Due
    ensures { result ≡ due_of clock s }
{
    let nonces = is_late(clock, s.clocks.nonce_start, s.config.timeouts.nonce);
    let shares = is_late(clock, s.clocks.sign_start, s.config.timeouts.sign);
    due_in(s.position.state, nonces, shares)
}

pub fn answer_due(s: Coordinator, store: &[u8], out: &mut [u8], clock: u64, d: Due) -> Done
    requires { Late s (length out.old) }
    ensures { Did (due_turn clock d s store.now (quiet_turn s store.now))
        out.old result store.now out.new }
{
    match d {
        Due::Nothing => answers::quiet(s),
        Due::Nonces => timeouts::nonce_timeout(s, store, out),
        Due::Shares(t) => share_timeout::retry::share_timeout(s, store, out, clock, t),
    }
}
