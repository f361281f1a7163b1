// `request_nonces`: the records are emptied, the iteration grows by 1, the nonce clock is started, and the nonce request is written.
ghost use Rattle.std.specs.Prelude.{◌≡◌, ℕ, ◌≤◌, List, length};
ghost use Rattle.layout.specs.Limits.{message_limit, answer_length};
ghost use Rattle.state.specs.Turns.{Did};
ghost use Rattle.starts.specs.Starts.{Sent, start_requested, request_bytes, request_turn};

use body::RequestHead;
use layout::{Ids, ROOT_LENGTH, SignatureType};
use state::answers;
use state::answers::{Class, Done};
use state::fields::{Clocks, Coordinator, Position, Records};
use state_table::State;

// Shares and the share clock stay. The root's 32 bytes are stored for every type. Field by field: with struct update the call's frames were
// 8 KiB deeper, more than the header's RC_STACK_PROCESS leaves.
fn requested(
    s: Coordinator,
    clock: u64,
    signature_type: SignatureType,
    root: [u8; ROOT_LENGTH],
) -> Coordinator
    ensures { result ≡ start_requested clock signature_type root s }
{
    let last = s.ids;
    let sign_iter_id = std::num::wrapping_add_u64(last.sign_iter_id, 1);
    let ids = Ids {
        dkg_id: last.dkg_id,
        sign_id: last.sign_id,
        sign_iter_id,
    };
    let held = s.records;
    let rows = held.rows;
    let records = Records { rows, count: 0 };
    let state = State::NonceGather(signature_type);
    let position = Position { state, root };
    let old = s.clocks;
    let nonce_start = Some(clock);
    let sign_start = old.sign_start;
    let clocks = Clocks {
        nonce_start,
        sign_start,
    };
    let mut t = s;
    t.ids = ids;
    t.records = records;
    t.position = position;
    t.clocks = clocks;
    t
}

// The nonce request of a coordinator that has asked, written; its length.
fn write_request(
    s: Coordinator,
    out: &mut [u8],
    signature_type: SignatureType,
    root: [u8; ROOT_LENGTH],
) -> usize
    requires { (s.message.len ≤ message_limit) × (answer_length ≤ length out.old) }
    ensures { Sent (request_bytes signature_type root s) out.old result out.new }
{
    let ids = s.ids;
    let head = RequestHead {
        ids,
        signature_type,
        root,
    };
    let message = s.message;
    let bytes = message.bytes;
    let n = message.len;
    let written = requests::write_nonce_request(out, head, &bytes[..n]);
    match written {
        Ok(len) => len,
        Err(_) => 0,
    }
}

pub fn request_nonces(
    s: Coordinator,
    out: &mut [u8],
    clock: u64,
    signature_type: SignatureType,
    root: [u8; ROOT_LENGTH],
) -> Done
    requires { (s.message.len ≤ message_limit) × (answer_length ≤ length out.old) }
    ensures { (store : List ℕ)
        → Did (request_turn clock signature_type root s store) out.old result store out.new }
{
    let after = requested(s, clock, signature_type, root);
    let length = write_request(after, out, signature_type, root);
    answers::sending(after, Class::Packet, length)
}
