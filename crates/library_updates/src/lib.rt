// What the host tells, over the state's bytes: keys, results, how aggregating ended, a reset.
#![tactic(auto)]

ghost use Rattle.std.specs.Prelude.{[]};
ghost use Rattle.calls.specs.declared.held_keys.HeldKey.TheVariants as Which;
ghost use Rattle.calls.specs.Calls.{set_key_turn, aggregated_turn};
ghost use Rattle.calls.specs.Resets.{reset_turn};
ghost use Rattle.results.specs.Results.{results_turn};
ghost use Rattle.state_bytes.specs.Loaded.{is_saved, loaded};
ghost use Rattle.interface.specs.Configs.{is_yes};
ghost use Rattle.interface.specs.Called.{Called};

use calls::held_keys::HeldKey;
use interface::answers::RcAnswer;
use interface::{kept, loads};
use state::fields::Coordinator;

pub fn set_coordinator_key(state: &mut [u8], store: &[u8], held: u8) -> RcAnswer
    ensures { Called (is_saved state.old)
        (set_key_turn Which.Coordinator (is_yes held) (loaded state.old) store.now)
        state.old [] result state.new store.now [] }
{
    let from = loads::load(state);
    let s = from.state;
    let d = coordinator::set_key(s, store, HeldKey::Coordinator, held != 0);
    kept::keep(state, from.saved, false, d)
}

pub fn set_group_key(state: &mut [u8], store: &[u8], held: u8) -> RcAnswer
    ensures { Called (is_saved state.old)
        (set_key_turn Which.Aggregate (is_yes held) (loaded state.old) store.now)
        state.old [] result state.new store.now [] }
{
    let from = loads::load(state);
    let s = from.state;
    let d = coordinator::set_key(s, store, HeldKey::Aggregate, held != 0);
    kept::keep(state, from.saved, false, d)
}

pub fn take_results(state: &mut [u8], store: &[u8], dkg_id: u64, ended: &[u32]) -> RcAnswer
    ensures { Called (is_saved state.old)
        (results_turn dkg_id ended.now (loaded state.old) store.now)
        state.old [] result state.new store.now [] }
{
    let from = loads::load(state);
    let s = from.state;
    let d = coordinator::take_results(s, store, dkg_id, ended);
    kept::keep(state, from.saved, false, d)
}

pub fn aggregated(state: &mut [u8], store: &[u8], ok: u8) -> RcAnswer
    ensures { Called (is_saved state.old)
        (aggregated_turn (is_yes ok) (loaded state.old) store.now)
        state.old [] result state.new store.now [] }
{
    let from = loads::load(state);
    let s = from.state;
    let d = coordinator::aggregated(s, store, ok != 0);
    kept::keep(state, from.saved, false, d)
}

pub fn reset(state: &mut [u8], store: &[u8]) -> RcAnswer
    ensures { Called (is_saved state.old) (reset_turn (loaded state.old) store.now)
        state.old [] result state.new store.now [] }
{
    let from = loads::load(state);
    let s = from.state;
    let idle = coordinator::reset(s, store);
    kept::keep(state, from.saved, false, idle)
}
