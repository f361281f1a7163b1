// What a share timeout answers: 12, InsufficientSigners, or the nonce request of the next iteration.
ghost use Rattle.std.specs.Prelude.{List, ℕ, ◌≤◌, length};
ghost use Rattle.layout.specs.Limits.{signer_limit, answer_length};
ghost use Rattle.state.specs.Turns.{Did};
ghost use Rattle.timeouts.specs.Named.{flagged_signers};
ghost use Rattle.share_timeout.specs.ShareTimeout.{Late, insufficient_turn, share_timeout_turn};

use crate::exclusion;
use layout::{SIGNER_LIMIT, SignatureType};
use starts::nonces;
use state::answers;
use state::answers::{Class, Done};
use state::fields::Coordinator;

// InsufficientSigners, which names these signers. The state stays.
fn insufficient(s: Coordinator, out: &mut [u8], flags: [bool; SIGNER_LIMIT]) -> Done
    requires { (s.config.count ≤ signer_limit) × (answer_length ≤ length out.old) }
    ensures { (new store : List ℕ)
        → Did (insufficient_turn (flagged_signers s.config flags) new s store) out.old result store out.new }
{
    match timeouts::timeout_results::write_insufficient_signers(out, s.config, flags) {
        Ok(len) => answers::sending(s, Class::Result, len),
        // there is room, and the list is short
        Err(_) => answers::refused(s, 7),
    }
}

pub fn share_timeout(
    s: Coordinator,
    store: &[u8],
    out: &mut [u8],
    clock: u64,
    signature_type: SignatureType,
) -> Done
    requires { Late s (length out.old) }
    ensures { Did (share_timeout_turn clock signature_type s store.now)
        out.old result store.now out.new }
{
    let r = timeouts::current_place(s, store);
    if s.records.count <= r {
        return answers::refused(s, 12);
    }
    let waits = signer_ids::waiting(s.records.rows[r]);
    let t = exclusion::exclude(s, waits);
    // not the waiters alone: all who are malicious are taken off, and named
    if exclusion::is_too_few(&t, t.marks.malicious) {
        return insufficient(t, out, t.marks.malicious);
    }
    nonces::request_nonces(t, out, clock, signature_type, t.position.root)
}
