// The results of the two timeouts, written from the struct: the waiters and the malicious signers, ascending.
ghost use Rattle.std.specs.Prelude.{◌≤◌, length};
ghost use Rattle.layout.specs.Limits.{answer_length};
ghost use Rattle.layout.specs.Encode.{encode_nonce_timeout, encode_insufficient_signers};
ghost use Rattle.framing.specs.Writing.{Wrote, written};
ghost use Rattle.timeouts.specs.Named.{waiters_in, flagged_signers};

use layout::SIGNER_LIMIT;
use signers::order;
use state::fields::{Config, SignRoundInfo};

pub fn write_nonce_timeout(
    out: &mut [u8],
    g: Config,
    row: SignRoundInfo,
    malicious: [bool; SIGNER_LIMIT],
) -> Result<usize, u8>
    requires { answer_length ≤ length out.old }
    ensures { Wrote (written (encode_nonce_timeout (waiters_in g row) (flagged_signers g malicious)))
        out.old result out.new }
{
    let walked = order::ascending(g);
    let waiters = signer_ids::flagged_ids(walked, signer_ids::waiting(row));
    let malicious_ids = signer_ids::flagged_ids(walked, malicious);
    writer::results::write_nonce_timeout(out, waiters, malicious_ids)
}

pub fn write_insufficient_signers(
    out: &mut [u8],
    g: Config,
    malicious: [bool; SIGNER_LIMIT],
) -> Result<usize, u8>
    requires { answer_length ≤ length out.old }
    ensures { Wrote (written (encode_insufficient_signers (flagged_signers g malicious))) out.old result out.new }
{
    let named = signer_ids::flagged_ids(order::ascending(g), malicious);
    writer::results::write_insufficient_signers(out, named)
}
