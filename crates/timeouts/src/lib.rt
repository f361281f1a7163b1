// The results of the two timeouts; and a nonce timeout that fires: its result, or 12 where the current message has no record.
#![tactic(auto)]

ghost use Rattle.std.specs.Prelude.{◌≡◌, length};
ghost use Rattle.state.specs.Turns.{Did};
ghost use Rattle.timeouts.specs.NonceTimeout.{current_place, TimeoutReady, nonce_timeout_turn};

use records::records as rows;
use state::answers;
use state::answers::{Class, Done};
use state::fields::Coordinator;

pub mod timeout_results;

// The place of the current message's record.
pub fn current_place(s: Coordinator, store: &[u8]) -> usize
    ensures { result ≡ current_place s store.now }
{
    rows::place(s.records, store, s.message.live())
}

pub fn nonce_timeout(s: Coordinator, store: &[u8], out: &mut [u8]) -> Done
    requires { TimeoutReady s (length out.old) }
    ensures { Did (nonce_timeout_turn s store.now) out.old result store.now out.new }
{
    let r = current_place(s, store);
    if s.records.count <= r {
        return answers::refused(s, 12);
    }
    let written = timeout_results::write_nonce_timeout(
        out,
        s.config,
        s.records.rows[r],
        s.marks.malicious,
    );
    match written {
        Ok(len) => answers::sending(s, Class::Result, len),
        // there is room, and the lists are short
        Err(_) => answers::refused(s, 7),
    }
}
