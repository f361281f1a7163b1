// The configuration as it is kept: the signers in the order given, each key set ascending.
ghost use Rattle.std.specs.Prelude.{◌≡◌, true};
ghost use Rattle.configuration.specs.NewConfig.{is_set_within, Accepted};
ghost use Rattle.configuration.specs.Made.{entry_of, config_from, blank_config};

use crate::key_set;
use crate::new_config::{NewConfig, NewSigner};
use layout::{KeyId, LIST_LIMIT, SIGNER_LIMIT, SignerId};
use state::fields::{Config, SignerEntry, Timeouts};
use validity::keys::KeyIds;

// The entry that is kept has a flag beside its keys too: the saved form holds both.
#[tactic(auto, using(crate::proofs::Sets::keys_few), unfolding(crate::specs::Made::entry_of))]
fn entry_of(s: &NewSigner) -> SignerEntry
    requires { is_set_within s.now ≡ true }
    ensures { result ≡ entry_of s.now }
{
    SignerEntry {
        id: s.id,
        has_keys: s.has_keys,
        keys: key_set::ascending(s.given()),
    }
}

// The configuration that a struct holds before it is commissioned.
#[tactic(auto, unfolding(crate::specs::Made::blank_config, validity::specs::Keys::key_places))]
pub fn blank_config() -> Config
    ensures { result ≡ blank_config }
{
    let blank = SignerEntry {
        id: SignerId(0),
        has_keys: false,
        keys: KeyIds {
            ids: [KeyId(0); LIST_LIMIT],
            count: 0,
        },
    };
    Config {
        num_signers: 0,
        num_keys: 0,
        threshold: 0,
        dkg_threshold: 0,
        sign_threshold: 0,
        timeouts: Timeouts {
            dkg_public: None,
            dkg_private: None,
            dkg_end: None,
            nonce: None,
            sign: None,
        },
        signers: [blank; SIGNER_LIMIT],
        count: 0,
        verify_packet_sigs: false,
    }
}

pub fn config_of(g: NewConfig) -> Config
    requires { Accepted g }
    ensures { result ≡ config_from g }
{
    let mut signers = blank_config().signers;
    for (i, signer) in g.given().iter().enumerate() {
        signers[i] = entry_of(signer);
    }
    Config {
        num_signers: g.num_signers,
        num_keys: g.num_keys,
        threshold: g.threshold,
        dkg_threshold: g.dkg_threshold,
        sign_threshold: g.sign_threshold,
        timeouts: g.timeouts,
        signers,
        count: g.count,
        verify_packet_sigs: g.verify_packet_sigs,
    }
}
