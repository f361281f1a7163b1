// When each signer answered (02, e): the query that writes the arrivals of the responses to the current message.
#![tactic(auto)]

ghost use Rattle.std.specs.Prelude.{◌≡◌, ◌≤◌, length};
ghost use Rattle.layout.specs.Limits.{signer_limit, answer_length};
ghost use Rattle.pieces.specs.Places.{arrivals_of};
ghost use Rattle.state.specs.Turns.{Did};
ghost use Rattle.arrivals.specs.Query.{QueryReady, current_arrivals, told_turn, arrivals_turn};

use pieces::places::Arrivals;
use signers::order;
use state::answers;
use state::answers::{Asks, Class, Done};
use state::fields::Coordinator;

pub mod walks;

// Those of the current message's record; nobody's where it has none.
fn current_arrivals(s: Coordinator, store: &[u8]) -> Arrivals
    requires { QueryReady s }
    ensures { (arrivals_of result ≡ current_arrivals s store.now) × (result.count ≤ signer_limit) }
{
    let r = timeouts::current_place(s, store);
    if s.records.count <= r {
        return walks::nobody();
    }
    walks::arrivals_along(order::ascending(s.config), s.records.rows[r])
}

// What the query answers once 4, 5 and 7 are yes.
fn told(s: Coordinator, store: &[u8], out: &mut [u8]) -> Done
    requires { QueryReady s × (answer_length ≤ length out.old) }
    ensures { Did (told_turn s store.now) out.old result store.now out.new }
{
    let written = writer::results::write_arrivals(out, current_arrivals(s, store));
    match written {
        Ok(len) => answers::sending(s, Class::Result, len),
        // there is room, and the list is short
        Err(_) => answers::refused(s, 7),
    }
}

// The query: 4, 5 and 7, then the result. It is given no clock reading, and tests no timeout.
pub fn tell_arrivals(s: Coordinator, store: &[u8], out: &mut [u8]) -> Done
    ensures { Did (arrivals_turn (length out.old) s store.now)
        out.old result store.now out.new }
{
    let asks = Asks {
        no_job: true,
        a_job: false,
        room: true,
    };
    let passed = answers::before(s, store.len(), out.len(), asks);
    match passed {
        Err(n) => answers::refused(s, n),
        Ok(()) => told(s, store, out),
    }
}
