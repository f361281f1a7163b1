// The configuration that a commissioning gives: five numbers of four bytes, five timeouts (a byte that says whether there is one, and
// eight bytes), whether packets are verified, and the signers: id, whether there is a key set, how many keys, the keys.
ghost use Rattle.std.specs.Prelude.{◌≤◌, ◌<◌};

use configuration::new_config::{KEY_PLACES, NewConfig, NewKeys, NewSigner, SIGNER_PLACES};
use layout::{KeyId, SignerId};
use state::fields::Timeouts;

// Where the timeouts, whether packets are verified, the number of signers and the signers stand.
const TIMEOUTS: usize = 20;

const VERIFY: usize = 65;

const COUNT: usize = 66;

const SIGNERS: usize = 67;

// The bytes of a timeout; where a signer's keys stand among its own.
const READING_LENGTH: usize = 9;

const KEYS: usize = 6;

pub fn flag(s: &[u8], at: usize) -> bool {
    wire::byte(s, at) != 0
}

// A count, at most `most`.
pub fn count_at(s: &[u8], at: usize, most: usize) -> usize
    ensures { result ≤ most }
{
    (wire::byte(s, at) as usize).min(most)
}

fn reading(s: &[u8], i: u8) -> Option<u64> {
    let at = TIMEOUTS + READING_LENGTH * (i as usize);
    let n = wire::u64_at(s, at + 1);
    if flag(s, at) { Some(n) } else { None }
}

fn timeouts(s: &[u8]) -> Timeouts {
    Timeouts {
        dkg_public: reading(s, 0),
        dkg_private: reading(s, 1),
        dkg_end: reading(s, 2),
        nonce: reading(s, 3),
        sign: reading(s, 4),
    }
}

// The bytes from `at` on.
fn rest(s: &[u8], at: usize) -> &[u8] {
    wire::part(s, at, s.len())
}

// How many key ids the signer has whose bytes these begin with.
fn key_count(s: &[u8]) -> usize
    ensures { result < 256 }
{
    wire::byte(s, 5) as usize
}

fn keys(s: &[u8]) -> NewKeys {
    let mut ids = [KeyId(0); KEY_PLACES];
    for (i, id) in ids.iter_mut().enumerate() {
        *id = KeyId(wire::u32_at(s, KEYS + layout::ID_LENGTH * i));
    }
    NewKeys {
        ids,
        count: key_count(s),
    }
}

fn signer(s: &[u8]) -> NewSigner {
    NewSigner {
        id: SignerId(wire::u32_at(s, 0)),
        has_keys: flag(s, 4),
        keys: keys(s),
    }
}

// The bytes of the signers after the first.
fn next(s: &[u8]) -> &[u8] {
    rest(s, KEYS + layout::ID_LENGTH * key_count(s))
}

// Whether no signer has more keys than there are places for.
pub fn are_keys_taken(s: &[u8]) -> bool {
    let mut signers = rest(s, SIGNERS);
    for _ in 0..count_at(s, COUNT, SIGNER_PLACES) {
        if KEY_PLACES < key_count(signers) {
            return false;
        }
        signers = next(signers);
    }
    true
}

pub fn are_signers_taken(s: &[u8]) -> bool {
    (wire::byte(s, COUNT) as usize) <= SIGNER_PLACES
}

fn signers(s: &[u8]) -> [NewSigner; SIGNER_PLACES] {
    let mut signers = [signer(b""); SIGNER_PLACES];
    let mut bytes = rest(s, SIGNERS);
    for place in signers.iter_mut() {
        *place = signer(bytes);
        bytes = next(bytes);
    }
    signers
}

pub fn config(s: &[u8]) -> NewConfig {
    NewConfig {
        num_signers: wire::u32_at(s, 0),
        num_keys: wire::u32_at(s, 4),
        threshold: wire::u32_at(s, 8),
        dkg_threshold: wire::u32_at(s, 12),
        sign_threshold: wire::u32_at(s, 16),
        timeouts: timeouts(s),
        signers: signers(s),
        count: count_at(s, COUNT, SIGNER_PLACES),
        verify_packet_sigs: flag(s, VERIFY),
    }
}
