// The kind 2 writer. It is lent the part of a buffer where the packet goes, and says whether the packet fits there. Nested responses
// are written by it straight into the middle of the answer buffer. A signer's own response (crate responses) has the same frame.
ghost use Rattle.std.specs.Prelude.{◌≡◌, [], ◌∷◌, ◌++◌, true, ◌+◌, ◌*◌, ◌-◌, ◌^◌, ◌≤◌, ◌<◌, length, take, drop};
ghost use Rattle.layout.specs.Limits.{message_limit, list_limit};
ghost use Rattle.wire.specs.Bytes.{put};
ghost use Rattle.layout.specs.Encode.{header_bytes, packet, header_of, encode_response};
ghost use Rattle.framing.specs.Writing.{room_for, lent_after, pairs};
ghost use Rattle.pieces.specs.Places.{response_holds, response_at, response_length};

use crate::places::ResponsePlace;
use framing::Cursor;
use layout::{Header, Ids, SignerId};

// The bytes of a kind 2 packet's header and pairs: its first part begins there.
pub const RESPONSE_FRAME_LENGTH: usize = 56;

// The header and the three pairs of a kind 2 packet whose lists have so many bytes.
pub fn put_response_frame(
    out: &mut [u8],
    signer_id: SignerId,
    ids: Ids,
    message_len: usize,
    keys_len: usize,
    nonces_len: usize,
)
    requires { (message_len ≤ message_limit) × (keys_len ≤ list_limit * 4) × (nonces_len < 2 ^ 32) }
    ensures { out.new ≡ put out.old 0 (header_bytes (header_of 2 0 3 signer_id.0 ids)
        ++ pairs 56 (message_len ∷ (keys_len ∷ (nonces_len ∷ [])))) }
{
    let header = Header {
        signer_id: signer_id.0,
        ..framing::header(2, 3, ids)
    };
    let pairs = Cursor {
        pair: layout::HEADER_LENGTH,
        at: RESPONSE_FRAME_LENGTH,
    };
    framing::put_header(out, header);
    pairs
        .put(out, message_len)
        .put(out, keys_len)
        .put(out, nonces_len);
}

// A kind 2 packet from its lists' bytes, at the start of `out`.
fn write_response(
    out: &mut [u8],
    signer_id: SignerId,
    ids: Ids,
    message: &[u8],
    key_ids: &[u8],
    nonces: &[u8],
) -> Option<usize>
    requires { (length message.now ≤ message_limit)
        × (length key_ids.now ≤ list_limit * 4) × (length nonces.now ≤ list_limit * 66) }
    ensures { (result ≡ room_for (length out.old) (packet (header_of 2 0 3 signer_id.0 ids)
        (message.now ∷ key_ids.now ∷ nonces.now ∷ [])))
        × (out.new ≡ lent_after (packet (header_of 2 0 3 signer_id.0 ids)
        (message.now ∷ key_ids.now ∷ nonces.now ∷ [])) out.old) }
{
    let keys_at = RESPONSE_FRAME_LENGTH + message.len();
    let nonces_at = keys_at + key_ids.len();
    let end = nonces_at + nonces.len();
    if out.len() < end {
        return None;
    }
    put_response_frame(
        out,
        signer_id,
        ids,
        message.len(),
        key_ids.len(),
        nonces.len(),
    );
    wire::copy(out, RESPONSE_FRAME_LENGTH, message);
    wire::copy(out, keys_at, key_ids);
    wire::copy(out, nonces_at, nonces);
    Some(end)
}

impl ResponsePlace {
    // The length of a kind 2 packet whose lists lie at these places.
    #[tactic(auto, unfolding(crate::specs::Places::response_length))]
    pub fn packet_length(&self) -> usize
        requires { (self.now.message.count ≤ message_limit) × (self.now.key_ids.count ≤ list_limit) × (self.now.nonces.count ≤ list_limit) }
        ensures { result ≡ response_length self.now }
    {
        RESPONSE_FRAME_LENGTH
            + self.message.count
            + self.key_ids.count * layout::ID_LENGTH
            + self.nonces.count * layout::NONCE_LENGTH
    }
}

// The response at these places, written from `at` on: the part of `out` that starts there is lent to the kind 2 writer.
pub fn write_nested(out: &mut [u8], at: usize, source: &[u8], p: &ResponsePlace) -> Option<usize>
    requires { (at ≤ length out.old) × (response_holds (length source.now) p.now ≡ true) }
    ensures { (result ≡ room_for (length out.old - at) (encode_response (response_at source.now p.now)))
        × (out.new ≡ take at out.old
        ++ lent_after (encode_response (response_at source.now p.now)) (drop at out.old)) }
{
    write_response(
        &mut out[at..],
        p.signer_id,
        p.ids,
        p.message.bytes(source, 1),
        p.key_ids.bytes(source, layout::ID_LENGTH),
        p.nonces.bytes(source, layout::NONCE_LENGTH),
    )
}
