// Commissioning: a configuration is asked 1 to 3; where it is accepted, the struct is as the Rust's `new` gives it and the store is zeros.
#![tactic(auto)]

pub mod fresh;
pub mod store;

ghost use Rattle.std.specs.Prelude.{[]};
ghost use Rattle.state.specs.Turns.{Did};
ghost use Rattle.commission.specs.Commission.{commission_turn};

use configuration::new_config::NewConfig;
use configuration::{made, questions};
use state::answers;
use state::answers::Done;

// Asked nothing else: any store, of any length, and a job may be out.
pub fn commission(g: NewConfig, store: &mut [u8]) -> Done
    ensures { Did (commission_turn g store.old) [] result store.new [] }
{
    let passed = questions::questions(g);
    match passed {
        Err(n) => answers::refused(fresh::fresh(false, made::blank_config()), n),
        Ok(()) => {
            store::zero(store);
            answers::quiet(fresh::fresh(true, made::config_of(g)))
        }
    }
}
