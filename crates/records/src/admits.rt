// Whether a response is admitted: a configured signer's, key generation ended, its exact key set, valid nonces, not malicious.
ghost use Rattle.std.specs.Prelude.{◌≡◌, ◌≤◌, ◌<◌, eqb, length, position};
ghost use Rattle.layout.specs.Decode.{ids_in, nonces_in};
ghost use Rattle.layout.specs.Limits.{signer_limit};
ghost use Rattle.validity.specs.Keys.{listed, same_set};
ghost use Rattle.state.specs.View.{key_bytes};
ghost use Rattle.records.specs.Admits.{slot_of, admitted_at};

use layout::SignerId;
use state::fields::{Config, Coordinator, SignerEntry};
use validity::keys::KeyIds;
use validity::{keys, nonces};

// The first signer that has the id, by its place.
fn place_of(entries: &[SignerEntry], id: u32) -> Option<usize>
    ensures { result ≡ position (λ e. eqb id e.id.0) entries.now }
{
    entries.iter().position(|e| id == e.id.0)
}

// The slot of a signer among those configured, where it is one of them.
pub fn slot_of(g: Config, id: SignerId) -> Option<usize>
    ensures { result ≡ slot_of id.0 g }
{
    place_of(g.entries(), id.0)
}

// Whether a list names exactly the keys of the set.
fn has_same_keys(key_ids: &[u8], set: KeyIds) -> bool
    requires { length key_ids.now ≤ key_bytes }
    ensures { result ≡ same_set (ids_in key_ids.now) (listed set) }
{
    keys::compare(keys::key_list(key_ids), set).same
}

#[tactic(auto, unfolding(crate::specs::Admits::admitted_at))]
pub fn is_admitted(s: &Coordinator, i: usize, key_ids: &[u8], nonce_bytes: &[u8]) -> bool
    requires { (i < signer_limit) × (length key_ids.now ≤ key_bytes) }
    ensures { result ≡ admitted_at s.now i (ids_in key_ids.now) (nonces_in nonce_bytes.now) }
{
    let entry = s.config.signers[i];
    s.marks.ended[i]
        && entry.has_keys
        && has_same_keys(key_ids, entry.keys)
        && nonces::are_valid(nonce_bytes)
        && !s.marks.malicious[i]
}
