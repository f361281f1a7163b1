// The nonce response, kind 2.
ghost use Rattle.std.specs.Prelude.{◌≡◌, ◌&&◌, eqb, leb, length, ◌/◌, ◌%◌};
ghost use Rattle.layout.specs.Limits.{message_limit, list_limit};
ghost use Rattle.framing.specs.Writing.{Wrote};
ghost use Rattle.responses.specs.Responses.{write_nonce_response};

use crate::lists;
use crate::lists::ResponseHead;
use layout::{ID_LENGTH, LIST_LIMIT, MESSAGE_LIMIT, NONCE_LENGTH};
use pieces::response;
use pieces::response::RESPONSE_FRAME_LENGTH;

// Whether a message and lists of so many bytes, ids and bytes are within the limits, the nonces whole.
fn are_nonces_within(message: usize, keys: usize, nonces: usize) -> bool
    ensures { result ≡ (eqb (nonces % 66) 0 && (leb message message_limit && leb keys list_limit && leb (nonces / 66) list_limit)) }
{
    nonces % NONCE_LENGTH == 0
        && message <= MESSAGE_LIMIT
        && keys <= LIST_LIMIT
        && nonces / NONCE_LENGTH <= LIST_LIMIT
}

// Asked 9, then 26.
pub fn write_nonce_response(
    out: &mut [u8],
    head: ResponseHead,
    message: &[u8],
    key_ids: &[u32],
    nonces: &[u8],
) -> Result<usize, u8>
    ensures { Wrote (write_nonce_response (length out.old) head
        message.now key_ids.now nonces.now)
        out.old result out.new }
{
    framing::limits(are_nonces_within(message.len(), key_ids.len(), nonces.len()))?;
    let keys_len = key_ids.len() * ID_LENGTH;
    let keys_at = RESPONSE_FRAME_LENGTH + message.len();
    let nonces_at = keys_at + keys_len;
    let end = nonces_at + nonces.len();
    lists::room(out, end)?;
    response::put_response_frame(
        out,
        head.signer_id,
        head.ids,
        message.len(),
        keys_len,
        nonces.len(),
    );
    wire::copy(out, RESPONSE_FRAME_LENGTH, message);
    lists::put_ids(out, keys_at as u32, key_ids);
    wire::copy(out, nonces_at, nonces);
    Ok(end)
}
