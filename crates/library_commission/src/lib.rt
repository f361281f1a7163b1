// Commissioning, over the state's bytes.
#![tactic(auto)]

ghost use Rattle.std.specs.Prelude.{[], leb, length};
ghost use Rattle.state_bytes.specs.Saved.{state_length};
ghost use Rattle.interface.specs.Configs.{config_of};
ghost use Rattle.interface.specs.Called.{Called};
ghost use Rattle.library_commission.specs.Commissioned.{commissioned_turn};

use interface::answers::RcAnswer;
use interface::configs::RcConfig;
use interface::{configs, kept, loads};
use state::answers;
use state_bytes::STATE_LENGTH;

// A state buffer that is too short is refused with 4, and nothing is written.
pub fn commission(state: &mut [u8], store: &mut [u8], config: RcConfig) -> RcAnswer
    ensures { Called (leb state_length (length state.old))
        (commissioned_turn (config_of config) (length state.old) store.old)
        state.old [] result state.new store.new [] }
{
    if state.len() < STATE_LENGTH {
        let none = loads::unsaved();
        let d = answers::refused(none, 4);
        return kept::keep(state, false, false, d);
    }
    let g = configs::new_config(config);
    let d = coordinator::commission(g, store);
    kept::keep(state, true, false, d)
}
