// A configuration as plain numbers. Its arrays have one place more than the limits, so that it can say what is refused.
ghost use Rattle.std.specs.Prelude.{◌≡◌, map};
ghost use Rattle.validity.specs.Keys.{key_of};
ghost use Rattle.interface.specs.Configs.{reading_of, signer_of, timeouts_of, config_of};

use configuration::new_config::{KEY_PLACES, NewConfig, NewKeys, NewSigner, SIGNER_PLACES};
use layout::{KeyId, SignerId};
use state::fields::Timeouts;

// A timeout where `given` is not 0.
#[repr(C)]
#[derive(Clone, Copy)]
pub struct RcTimeout {
    pub given: u64,
    pub nanoseconds: u64,
}

// A signer, with a key set where `has_keys` is not 0: the first `key_count` of its keys.
#[repr(C)]
#[derive(Clone, Copy)]
pub struct RcSigner {
    pub id: u32,
    pub has_keys: u32,
    pub key_count: u64,
    pub keys: [u32; KEY_PLACES],
    pub reserved: u32,
}

// The first `signer_count` of the signers count.
#[repr(C)]
#[derive(Clone, Copy)]
pub struct RcConfig {
    pub num_signers: u32,
    pub num_keys: u32,
    pub threshold: u32,
    pub dkg_threshold: u32,
    pub sign_threshold: u32,
    pub verify_packet_sigs: u32,
    pub dkg_public_timeout: RcTimeout,
    pub dkg_private_timeout: RcTimeout,
    pub dkg_end_timeout: RcTimeout,
    pub nonce_timeout: RcTimeout,
    pub sign_timeout: RcTimeout,
    pub signer_count: u64,
    pub signers: [RcSigner; SIGNER_PLACES],
}

fn reading(t: RcTimeout) -> Option<u64>
    ensures { result ≡ reading_of t }
{
    (t.given != 0).then_some(t.nanoseconds)
}

fn signer(s: RcSigner) -> NewSigner
    ensures { result ≡ signer_of s }
{
    NewSigner {
        id: SignerId(s.id),
        has_keys: s.has_keys != 0,
        keys: NewKeys {
            ids: s.keys.map(KeyId),
            count: s.key_count as usize,
        },
    }
}

fn timeouts(c: &RcConfig) -> Timeouts
    ensures { result ≡ timeouts_of c.now }
{
    Timeouts {
        dkg_public: reading(c.dkg_public_timeout),
        dkg_private: reading(c.dkg_private_timeout),
        dkg_end: reading(c.dkg_end_timeout),
        nonce: reading(c.nonce_timeout),
        sign: reading(c.sign_timeout),
    }
}

pub fn new_config(c: RcConfig) -> NewConfig
    ensures { result ≡ config_of c }
{
    NewConfig {
        num_signers: c.num_signers,
        num_keys: c.num_keys,
        threshold: c.threshold,
        dkg_threshold: c.dkg_threshold,
        sign_threshold: c.sign_threshold,
        timeouts: timeouts(&c),
        signers: c.signers.map(signer),
        count: c.signer_count as usize,
        verify_packet_sigs: c.verify_packet_sigs != 0,
    }
}
