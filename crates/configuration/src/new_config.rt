// The configuration that the host gives. Its arrays have one place more than the limits, so that it can say what is refused.
ghost use Rattle.std.specs.Prelude.{◌≡◌, ◌+◌, ◌≤◌, map, length};
ghost use Rattle.layout.specs.Limits.{list_limit, signer_limit};
ghost use Rattle.validity.specs.Keys.{key_number};
ghost use Rattle.configuration.specs.NewConfig.{numbers_in, keys_given, set_size, signers_given};

use layout::{KeyId, LIST_LIMIT, SIGNER_LIMIT, SignerId};
use state::fields::Timeouts;

pub const KEY_PLACES: usize = LIST_LIMIT + 1;

pub const SIGNER_PLACES: usize = SIGNER_LIMIT + 1;

// The first `count` places count, in any order.
#[derive(Clone, Copy)]
pub struct NewKeys {
    pub ids: [KeyId; KEY_PLACES],
    pub count: usize,
}

impl NewKeys {
    // The keys that count: a count beyond the places takes all of them.
    pub fn given(&self) -> &[KeyId]
        ensures keys { (map key_number result.now ≡ numbers_in self.now) × (length result.now ≡ length (numbers_in self.now)) }
        ensures few { length result.now ≤ list_limit + 1 }
    {
        &self.ids[..self.count.min(KEY_PLACES)]
    }
}

// A signer with or without a key set. The host's struct holds both the flag and the places, and so does this one.
#[derive(Clone, Copy)]
pub struct NewSigner {
    pub id: SignerId,
    pub has_keys: bool,
    pub keys: NewKeys,
}

impl NewSigner {
    // The keys that count: none where there is no set.
    #[tactic(auto, unfolding(crate::specs::NewConfig::keys_given))]
    pub fn given(&self) -> &[KeyId]
        ensures keys { (map key_number result.now ≡ keys_given self.now) × (length result.now ≡ set_size self.now) }
        ensures few { length result.now ≤ list_limit + 1 }
    {
        if self.has_keys {
            self.keys.given()
        } else {
            &[]
        }
    }
}

#[derive(Clone, Copy)]
pub struct NewConfig {
    pub num_signers: u32,
    pub num_keys: u32,
    pub threshold: u32,
    pub dkg_threshold: u32,
    pub sign_threshold: u32,
    pub timeouts: Timeouts,
    pub signers: [NewSigner; SIGNER_PLACES],
    pub count: usize,
    pub verify_packet_sigs: bool,
}

impl NewConfig {
    // The signers that count: a count beyond the places takes all of them.
    pub fn given(&self) -> &[NewSigner]
        ensures signers { result.now ≡ signers_given self.now }
        ensures few { length result.now ≤ signer_limit + 1 }
    {
        &self.signers[..self.count.min(SIGNER_PLACES)]
    }
}
