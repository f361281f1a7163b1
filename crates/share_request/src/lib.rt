// The signature share request (kind 3) of a record, written from struct and store: the message and its recorded responses, ascending by
// signer, each as it was sent.
#![tactic(auto)]

pub mod asking;

ghost use Rattle.std.specs.Prelude.{◌≡◌, length};
ghost use Rattle.framing.specs.Writing.{Wrote, written};
ghost use Rattle.share_request.specs.ShareRequest.{Sendable, request_bytes};

use body::RequestHead;
use layout::SignatureType;
use signers::order;
use state::fields::Coordinator;

pub fn write_share_request(
    s: Coordinator,
    store: &[u8],
    out: &mut [u8],
    r: usize,
    message: &[u8],
    signature_type: SignatureType,
) -> Result<usize, u8>
    requires { Sendable s r (length store.now) (length message.now) (length out.old) }
    ensures { Wrote (written (request_bytes s store.now r message.now signature_type))
        out.old result out.new }
{
    let walked = order::ascending(s.config);
    let places = order::response_places(walked, r, s.records.rows[r]);
    let head = RequestHead {
        ids: s.ids,
        signature_type,
        root: s.position.root,
    };
    requests::write_signature_share_request(out, head, message, store, places)
}
