// What a host asks and nothing changes by, over the state's bytes: they are only read.
#![tactic(auto)]

ghost use Rattle.std.specs.Prelude.{length};
ghost use Rattle.arrivals.specs.Query.{arrivals_turn};
ghost use Rattle.state_bytes.specs.Loaded.{is_saved, loaded};
ghost use Rattle.interface.specs.Called.{Called};

use interface::answers::RcAnswer;
use interface::{answers as plain, loads};

// When each signer answered the current message. `Called` says of a call that it saves the struct after it; here that is the one loaded, so
// saving it would leave the bytes as they are.
pub fn tell_arrivals(state: &[u8], store: &[u8], out: &mut [u8]) -> RcAnswer
    ensures { Called (is_saved state.now)
        (arrivals_turn (length out.old) (loaded state.now) store.now)
        state.now out.old result state.now store.now out.new }
{
    let from = loads::load(state);
    let s = from.state;
    let d = coordinator::tell_arrivals(s, store, out);
    let answer = d.answer;
    plain::flat_answer(answer)
}
