// What the coordinator sends: the nonce request (kind 1) and the signature share request (kind 3).
#![tactic(auto)]

ghost use Rattle.std.specs.Prelude.{◌≡◌, true, ℕ, [], ◌∷◌, ◌++◌, map, ◌+◌, ◌*◌, ◌≤◌, length};
ghost use Rattle.wire.specs.Bytes.{put, joined};
ghost use Rattle.layout.specs.Limits.{message_limit, signer_limit, answer_length};
ghost use Rattle.layout.specs.Messages.{nonce_request};
ghost use Rattle.layout.specs.Types.{type_number};
ghost use Rattle.layout.specs.Encode.{header_bytes, header_of, encode_response};
ghost use Rattle.framing.specs.Writing.{Wrote, write_message, pairs, total};
ghost use Rattle.body.specs.Body.{root_of, request_of};
ghost use Rattle.pieces.specs.Places.{response_length, responses_hold, response_at, places_of};
ghost use Rattle.requests.specs.Requests.{write_share_request};

use body::RequestHead;
use framing::Cursor;
use pieces::places::ResponsePlaces;
use pieces::response;

// The bytes of the header and of the pairs of message and root.
const FRAME_LENGTH: usize = 48;

// The header and the first two pairs of kinds 1 and 3, for `count` nested responses. Gives the place after the root. Compiled into both
// writers, as `put_header` is.
#[inline(always)]
fn put_request_frame(out: &mut [u8], kind: u8, count: u16, head: &RequestHead, len: usize) -> Cursor
    requires { (count ≤ signer_limit) × (len ≤ message_limit) }
    ensures { (result.pair ≡ 48) × (result.at ≡ 48 + 8 * count + len + length (root_of head.now))
        × (out.new ≡ put out.old 0
        (header_bytes (header_of kind (type_number head.now.signature_type) (2 + count) 0 head.now.ids)
        ++ pairs (48 + 8 * count) (len ∷ (length (root_of head.now) ∷ [])))) }
{
    let pairs = Cursor {
        pair: layout::HEADER_LENGTH,
        at: FRAME_LENGTH + layout::PAIR_LENGTH * (count as usize),
    };
    framing::put_header(out, head.header(kind, 2 + count));
    pairs.put(out, len).put(out, head.root().len())
}

// Kind 1.
pub fn write_nonce_request(out: &mut [u8], head: RequestHead, message: &[u8]) -> Result<usize, u8>
    ensures { Wrote (write_message (length out.old) (nonce_request (request_of head message.now)))
        out.old result out.new }
{
    framing::room(out)?;
    framing::limits(message.len() <= layout::MESSAGE_LIMIT)?;
    let end = put_request_frame(out, 1, 0, &head, message.len());
    body::put_body(out, FRAME_LENGTH, &head, message);
    Ok(end.at)
}

// The pairs of the nested responses, from the pair place 48 on. Answers where the last response ends.
fn put_response_pairs(out: &mut [u8], first: Cursor, ps: &ResponsePlaces) -> usize
    requires { (first.pair ≡ 48) × (first.at ≤ 416) × ((size : ℕ) × (responses_hold size ps.now ≡ true)) }
    ensures { (result ≡ first.at + total (map response_length (places_of ps.now)))
        × (out.new ≡ put out.old 48 (pairs first.at (map response_length (places_of ps.now)))) }
{
    let mut next = first;
    for place in ps.live() {
        next = next.put(out, place.packet_length());
    }
    next.at
}

// The nested responses, one after the other from `at`.
fn put_responses(out: &mut [u8], at: usize, source: &[u8], ps: &ResponsePlaces)
    requires { (at ≤ 416) × (answer_length ≤ length out.old) × (responses_hold (length source.now) ps.now ≡ true) }
    ensures { out.new ≡ put out.old at
        (joined (map encode_response (map (response_at source.now) (places_of ps.now)))) }
{
    let mut start = at;
    for place in ps.live() {
        response::write_nested(out, start, source, place);
        start += place.packet_length();
    }
}

// Kind 3.
pub fn write_signature_share_request(
    out: &mut [u8],
    head: RequestHead,
    message: &[u8],
    source: &[u8],
    ps: ResponsePlaces,
) -> Result<usize, u8>
    ensures { Wrote (write_share_request (length out.old) head message.now source.now ps)
        out.old result out.new }
{
    framing::room(out)?;
    framing::limits(message.len() <= layout::MESSAGE_LIMIT)?;
    framing::limits(ps.are_held(source.len()))?;
    let nested = put_request_frame(out, 3, ps.count as u16, &head, message.len());
    let end = put_response_pairs(out, nested, &ps);
    body::put_body(
        out,
        FRAME_LENGTH + layout::PAIR_LENGTH * ps.count,
        &head,
        message,
    );
    put_responses(out, nested.at, source, &ps);
    Ok(end)
}
