// Signers are heard and time passes, over the state's bytes.
#![tactic(auto)]

ghost use Rattle.std.specs.Prelude.{length};
ghost use Rattle.packet_entry.specs.declared.Entry.TheVariants.{Process, ProcessMessage};
ghost use Rattle.process.specs.Process.{receive_turn};
ghost use Rattle.process_timeout.specs.ProcessTimeout.{process_timeout_turn};
ghost use Rattle.state_bytes.specs.Loaded.{is_saved, loaded};
ghost use Rattle.interface.specs.Configs.{is_yes};
ghost use Rattle.interface.specs.Called.{Called};

use interface::answers::RcAnswer;
use interface::{kept, loads};

pub fn process(
    state: &mut [u8],
    store: &mut [u8],
    out: &mut [u8],
    clock: u64,
    verdict: u8,
    packet: &[u8],
) -> RcAnswer
    ensures { Called (is_saved state.old)
        (receive_turn Process clock (is_yes verdict) packet.now (length out.old)
        (loaded state.old) store.old)
        state.old out.old result state.new store.new out.new }
{
    let from = loads::load(state);
    let s = from.state;
    let heard = coordinator::process(s, store, out, clock, verdict != 0, packet);
    kept::keep(state, from.saved, false, heard)
}

pub fn process_message(
    state: &mut [u8],
    store: &mut [u8],
    out: &mut [u8],
    clock: u64,
    verdict: u8,
    packet: &[u8],
) -> RcAnswer
    ensures { Called (is_saved state.old)
        (receive_turn ProcessMessage clock (is_yes verdict) packet.now (length out.old)
        (loaded state.old) store.old)
        state.old out.old result state.new store.new out.new }
{
    let from = loads::load(state);
    let s = from.state;
    let taken = coordinator::process_message(s, store, out, clock, verdict != 0, packet);
    kept::keep(state, from.saved, false, taken)
}

pub fn process_timeout(state: &mut [u8], store: &[u8], out: &mut [u8], clock: u64) -> RcAnswer
    ensures { Called (is_saved state.old)
        (process_timeout_turn clock (length out.old) (loaded state.old) store.now)
        state.old out.old result state.new store.now out.new }
{
    let from = loads::load(state);
    let s = from.state;
    let late = coordinator::process_timeout(s, store, out, clock);
    kept::keep(state, from.saved, true, late)
}
