// A signer's writers, over plain numbers: 9, then 26.
ghost use Rattle.std.specs.Prelude.{length};
ghost use Rattle.responses.specs.Responses.{write_nonce_response, write_signature_share_response};
ghost use Rattle.library_writers.specs.Given.{response_head_of};
ghost use Rattle.library_writers.specs.Written.{WrotePlain};

use crate::given::RcResponseHead;
use crate::written::RcWritten;
use responses::lists::ResponseHead;
use responses::{nonces, shares};

pub fn write_nonce_response(
    out: &mut [u8],
    given: RcResponseHead,
    message: &[u8],
    key_ids: &[u32],
    nonces: &[u8],
) -> RcWritten
    ensures { WrotePlain (write_nonce_response (length out.old) (response_head_of given)
        message.now key_ids.now nonces.now)
        out.old result out.new }
{
    let head = ResponseHead::from(given);
    RcWritten::from(nonces::write_nonce_response(out, head, message, key_ids, nonces))
}

pub fn write_signature_share_response(
    out: &mut [u8],
    given: RcResponseHead,
    share_ids: &[u32],
    z_i: &[u8],
    key_counts: &[u32],
    key_ids: &[u32],
) -> RcWritten
    ensures { WrotePlain (write_signature_share_response (length out.old) (response_head_of given)
        share_ids.now z_i.now key_counts.now key_ids.now)
        out.old result out.new }
{
    let head = ResponseHead::from(given);
    RcWritten::from(shares::write_signature_share_response(
        out, head, share_ids, z_i, key_counts, key_ids,
    ))
}
