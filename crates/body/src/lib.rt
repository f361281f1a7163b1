// What kinds 1, 3 and 32 share: the ids and the signature type, and the body, which is the message, then the root. It serves the crates
// requests and job; a host names its type and calls none of its functions.
#![tactic(auto)]

ghost use Rattle.std.specs.Prelude.{◌≡◌, ◌++◌, ◌^◌, ◌≤◌, ◌<◌, length};
ghost use Rattle.wire.specs.Bytes.{put};
ghost use Rattle.layout.specs.Limits.{message_limit};
ghost use Rattle.layout.specs.Types.{type_number};
ghost use Rattle.layout.specs.Encode.{header_of};
ghost use Rattle.body.specs.Body.{root_of};

use layout::{Header, Ids, SignatureType};

// What kinds 1, 3 and 32 say besides their message and lists. The root counts for TaprootRoot alone.
#[derive(Clone, Copy)]
pub struct RequestHead {
    pub ids: Ids,
    pub signature_type: SignatureType,
    pub root: [u8; layout::ROOT_LENGTH],
}

impl RequestHead {
    // The bytes of the root: 32, or none.
    pub fn root(&self) -> &[u8]
        ensures { result.now ≡ root_of self.now }
    {
        &self.root[..layout::root_length(layout::type_number(self.signature_type))]
    }

    // The header of a packet of so many pairs.
    pub fn header(&self, kind: u8, pairs: u16) -> Header
        ensures { result ≡ header_of kind (type_number self.now.signature_type) pairs 0 self.now.ids }
    {
        Header {
            kind,
            signature_type: layout::type_number(self.signature_type),
            pairs,
            signer_id: 0,
            ids: self.ids,
        }
    }
}

// The message and the root, one after the other from `at`.
pub fn put_body(out: &mut [u8], at: usize, head: &RequestHead, message: &[u8])
    requires { (at < 2 ^ 32) × (length message.now ≤ message_limit) }
    ensures { out.new ≡ put out.old at (message.now ++ root_of head.now) }
{
    wire::copy(out, at, message);
    wire::copy(out, at + message.len(), head.root());
}
