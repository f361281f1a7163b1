// What is stored before the move is asked: the message and the sign id.
ghost use Rattle.std.specs.Prelude.{◌≡◌};
ghost use Rattle.starts.specs.Starts.{sign_id_of, start_named};

use layout::{Ids, ROOT_LENGTH, SignatureType};
use state::fields::Coordinator;

// start_signing_round's arguments besides the message. The root counts for TaprootRoot alone.
#[derive(Clone, Copy)]
pub struct Start {
    pub signature_type: SignatureType,
    pub root: [u8; ROOT_LENGTH],
    pub sign_id: Option<u64>,
}

fn sign_id_of(id: Option<u64>, last: u64) -> u64
    ensures { result ≡ sign_id_of id last }
{
    match id {
        None => std::num::wrapping_add_u64(last, 1),
        Some(n) => n,
    }
}

// Field by field, as `requested` is (nonces).
pub fn named(s: Coordinator, message: &[u8], id: Option<u64>) -> Coordinator
    ensures { result ≡ start_named message.now id s }
{
    let old = s.message;
    let stored = state::replaced::with_message(old, message);
    let last = s.ids;
    let sign_id = sign_id_of(id, last.sign_id);
    let ids = Ids {
        dkg_id: last.dkg_id,
        sign_id,
        sign_iter_id: last.sign_iter_id,
    };
    let mut t = s;
    t.message = stored;
    t.ids = ids;
    t
}
