// The call that starts a signing round.
ghost use Rattle.std.specs.Prelude.{ℕ, ◌≤◌, List, length};
ghost use Rattle.layout.specs.Limits.{message_limit, answer_length};
ghost use Rattle.state.specs.Turns.{Did};
ghost use Rattle.starts.specs.Starts.{round_turn, start_turn};

use crate::naming::Start;
use crate::{naming, nonces};
use layout::MESSAGE_LIMIT;
use state::answers;
use state::answers::{Asks, Done};
use state::fields::Coordinator;
use state_table::State;

// 10, then message and sign id are stored, then 11.
pub fn begin(s: Coordinator, out: &mut [u8], clock: u64, message: &[u8], by: Start) -> Done
    requires { (length message.now ≤ message_limit) × (answer_length ≤ length out.old) }
    ensures { (store : List ℕ)
        → Did (round_turn clock message.now by s store) out.old result store out.new }
{
    let keys = s.keys;
    if !keys.aggregate {
        return answers::refused(s, 10);
    }
    let sign_id = by.sign_id;
    let t = naming::named(s, message, sign_id);
    let signature_type = by.signature_type;
    let root = by.root;
    let position = t.position;
    let prev = position.state;
    let prev_root = position.root;
    let next = State::NonceRequest(signature_type);
    if !state_table::can_move_to(prev, prev_root, next, root) {
        return answers::refused(t, 11);
    }
    nonces::request_nonces(t, out, clock, signature_type, root)
}

pub fn start(
    s: Coordinator,
    store: &[u8],
    out: &mut [u8],
    clock: u64,
    message: &[u8],
    by: Start,
) -> Done
    ensures { Did (start_turn clock message.now by (length out.old) s store.now)
        out.old result store.now out.new }
{
    let size = store.len();
    let room = out.len();
    let asks = Asks {
        no_job: true,
        a_job: false,
        room: true,
    };
    let passed = answers::before(s, size, room, asks);
    match passed {
        Err(n) => answers::refused(s, n),
        Ok(()) => {
            if MESSAGE_LIMIT < message.len() {
                answers::refused(s, 9)
            } else {
                begin(s, out, clock, message, by)
            }
        }
    }
}
