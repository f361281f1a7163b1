// `request_sig_shares`: the answered message is the current one, no shares are held, the share clock is started, and the share request is
// written.
ghost use Rattle.std.specs.Prelude.{◌≡◌, length};
ghost use Rattle.state.specs.Turns.{Did};
ghost use Rattle.share_request.specs.Asking.{shares_requested, Known, share_request_turn};

use layout::{SignatureType, SignerId};
use state::answers;
use state::answers::{Class, Done};
use state::fields::{Clocks, Coordinator, Position};
use state_table::State;

// The nonce clock, the records and the root stay.
#[tactic(auto, unfolding(crate::specs::Asking::shares_requested))]
fn requested(
    s: Coordinator,
    clock: u64,
    signature_type: SignatureType,
    message: &[u8],
) -> Coordinator
    ensures { result ≡ shares_requested clock signature_type message.now s }
{
    Coordinator {
        message: state::replaced::with_message(s.message, message),
        shares: state::replaced::no_shares(),
        position: Position {
            state: State::SigShareGather(signature_type),
            ..s.position
        },
        clocks: Clocks {
            sign_start: Some(clock),
            ..s.clocks
        },
        ..s
    }
}

// The shares asked for, from the responses of the record r. `id` is the signer whose response was recorded.
pub fn request_sig_shares(
    s: Coordinator,
    store: &[u8],
    out: &mut [u8],
    clock: u64,
    signature_type: SignatureType,
    r: usize,
    id: SignerId,
    message: &[u8],
) -> Done
    requires { Known s r (length store.now) (length message.now) (length out.old) }
    ensures { Did (share_request_turn clock signature_type id.0 message.now r s store.now)
        out.old result store.now out.new }
{
    let after = requested(s, clock, signature_type, message);
    let written = crate::write_share_request(after, store, out, r, message, signature_type);
    match written {
        Ok(len) => answers::sending(after, Class::Packet, len),
        // there is room, and the lists are short
        Err(_) => answers::refused(after, 7),
    }
}
