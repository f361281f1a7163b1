// The calls together, as a host makes them: each takes the struct by value and is lent the store, and gives the answer and the struct
// after. None asks anything of its arguments. `call_refines` and `run_refines` (crate coordinator_theorems) say that they are the step's.
#![tactic(auto)]

ghost use Rattle.std.specs.Prelude.{[], length};
ghost use Rattle.state.specs.Turns.{Did};
ghost use Rattle.commission.specs.Commission.{commission_turn};
ghost use Rattle.calls.specs.Calls.{set_key_turn, move_turn, aggregated_turn};
ghost use Rattle.calls.specs.Resets.{reset_turn};
ghost use Rattle.results.specs.Results.{results_turn};
ghost use Rattle.starts.specs.Starts.{start_turn};
ghost use Rattle.packet_entry.specs.declared.Entry.TheVariants.{Process, ProcessMessage};
ghost use Rattle.process.specs.Process.{receive_turn};
ghost use Rattle.process_timeout.specs.ProcessTimeout.{process_timeout_turn};
ghost use Rattle.arrivals.specs.Query.{arrivals_turn};

use calls::held_keys::HeldKey;
use calls::{aggregator, held_keys, moves, resets};
use configuration::new_config::NewConfig;
use layout::ROOT_LENGTH;
use process::packets;
use results::results as key_generation;
use starts::naming::Start;
use starts::rounds;
use state::answers::Done;
use state::fields::Coordinator;
use state_table::State;

// A configuration is asked 1 to 3; where it is accepted, the struct is fresh and the store is zeros.
pub fn commission(g: NewConfig, store: &mut [u8]) -> Done
    ensures { Did (commission_turn g store.old) [] result store.new [] }
{
    commission::commission(g, store)
}

// One of the two held keys is set or cleared.
pub fn set_key(s: Coordinator, store: &[u8], which: HeldKey, held: bool) -> Done
    ensures { Did (set_key_turn which held s store.now) [] result store.now [] }
{
    held_keys::set_key(s, store, which, held)
}

// Key generation's results: the dkg id and the signers that ended.
pub fn take_results(s: Coordinator, store: &[u8], dkg_id: u64, ended: &[u32]) -> Done
    ensures { Did (results_turn dkg_id ended.now s store.now) [] result store.now [] }
{
    key_generation::take_results(s, store, dkg_id, ended)
}

// The move question.
pub fn can_move_to(s: Coordinator, store: &[u8], next: State, root: [u8; ROOT_LENGTH]) -> Done
    ensures { Did (move_turn next root s store.now) [] result store.now [] }
{
    moves::can_move_to(s, store, next, root)
}

// A signing round is started.
pub fn start_signing_round(
    s: Coordinator,
    store: &[u8],
    out: &mut [u8],
    clock: u64,
    message: &[u8],
    by: Start,
) -> Done
    ensures { Did (start_turn clock message.now by (length out.old) s store.now)
        out.old result store.now out.new }
{
    rounds::start(s, store, out, clock, message, by)
}

// A packet: the timeout is tested first. verdict: the host's on its seal.
pub fn process(
    s: Coordinator,
    store: &mut [u8],
    out: &mut [u8],
    clock: u64,
    verdict: bool,
    bytes: &[u8],
) -> Done
    ensures { Did (receive_turn Process clock verdict bytes.now (length out.old) s store.old)
        out.old result store.new out.new }
{
    packets::process(s, store, out, clock, verdict, bytes)
}

// A packet: the timeout is not tested.
pub fn process_message(
    s: Coordinator,
    store: &mut [u8],
    out: &mut [u8],
    clock: u64,
    verdict: bool,
    bytes: &[u8],
) -> Done
    ensures { Did (receive_turn ProcessMessage clock verdict bytes.now (length out.old) s store.old)
        out.old result store.new out.new }
{
    packets::process_message(s, store, out, clock, verdict, bytes)
}

// No packet: the timeout is tested.
pub fn process_timeout(s: Coordinator, store: &[u8], out: &mut [u8], clock: u64) -> Done
    ensures { Did (process_timeout_turn clock (length out.old) s store.now)
        out.old result store.now out.new }
{
    process_timeout::calls::process_timeout(s, store, out, clock)
}

// The aggregator's answer to a job that is out.
pub fn aggregated(s: Coordinator, store: &[u8], ok: bool) -> Done
    ensures { Did (aggregated_turn ok s store.now) [] result store.now [] }
{
    aggregator::aggregated(s, store, ok)
}

pub fn reset(s: Coordinator, store: &[u8]) -> Done
    ensures { Did (reset_turn s store.now) [] result store.now [] }
{
    resets::reset(s, store)
}

// When each signer answered the current message.
pub fn tell_arrivals(s: Coordinator, store: &[u8], out: &mut [u8]) -> Done
    ensures { Did (arrivals_turn (length out.old) s store.now)
        out.old result store.now out.new }
{
    arrivals::tell_arrivals(s, store, out)
}
