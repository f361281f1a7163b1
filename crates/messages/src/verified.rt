// 13 and 14, where verification is on: the coordinator's key held? The signer configured, for kinds that signers send, and the host's
// verdict on the seal good?
ghost use Rattle.std.specs.Prelude.{◌≡◌, ◌≤◌};
ghost use Rattle.layout.specs.Limits.{signer_limit};
ghost use Rattle.messages.specs.Verified.{sender_known, verified_asked};

use layout::{Header, SignerId};
use records::admits;
use state::fields::{Config, Coordinator};

// Kinds that signers do not send name nobody.
fn is_sender_known(g: Config, h: Header) -> bool
    requires { g.count ≤ signer_limit }
    ensures { result ≡ sender_known g h }
{
    if !layout::is_signer_kind(h.kind) {
        return true;
    }
    let found = admits::slot_of(g, SignerId(h.signer_id));
    match found {
        Some(_) => true,
        None => false,
    }
}

pub fn verified(s: Coordinator, h: Header, verdict: bool) -> Result<(), u32>
    requires { s.config.count ≤ signer_limit }
    ensures { result ≡ verified_asked h verdict s }
{
    if !s.config.verify_packet_sigs {
        return Ok(());
    }
    if !s.keys.coordinator {
        return Err(13);
    }
    if !is_sender_known(s.config, h) {
        return Err(14);
    }
    if !verdict {
        return Err(14);
    }
    Ok(())
}
