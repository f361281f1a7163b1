// Structs of numbers and flags, read from their places. Each asks that the value's end is a place.
ghost use Rattle.std.specs.Prelude.{◌<◌, ◌^◌, ◌+◌, ◌≡◌};
ghost use Rattle.form.specs.Form.{flag, bytes};
ghost use Rattle.state_bytes.specs.Description.{reading_form, timeouts_form, ids_form, slot_form, clocks_form, keys_form};

use layout::Ids;
use state::fields::{Clocks, Keys, ResponseSlot, Timeouts};
use state_bytes::{
    AGGREGATE, DKG_END_TIMEOUT, DKG_PRIVATE_TIMEOUT, NANOSECONDS, NONCE_TIMEOUT, SIGN_ID,
    SIGN_ITER_ID, SIGN_START, SIGN_TIMEOUT, SLOT_BYTES, SLOT_CLOCK, SLOT_IDS, SLOT_KEY_IDS,
    SLOT_NONCES, WAITS,
};

pub fn flag_at(s: &[u8], at: usize) -> bool
    ensures { result ≡ flag.load s.now at }
{
    wire::byte(s, at) == 1
}

// N bytes, as they are.
pub fn bytes_at<const N: usize>(s: &[u8], at: usize) -> [u8; N]
    ensures { result ≡ (bytes N).load s.now at }
{
    let mut copied = [0u8; N];
    wire::copy(&mut copied, 0, wire::part(s, at, N));
    copied
}

pub fn reading_at(s: &[u8], at: usize) -> Option<u64>
    requires { at + reading_form.width < 2 ^ 64 }
    ensures { result ≡ reading_form.load s.now at }
{
    flag_at(s, at).then_some(wire::u64_at(s, at + NANOSECONDS))
}

pub fn timeouts_at(s: &[u8], at: usize) -> Timeouts
    requires { at + timeouts_form.width < 2 ^ 64 }
    ensures { result ≡ timeouts_form.load s.now at }
{
    Timeouts {
        dkg_public: reading_at(s, at),
        dkg_private: reading_at(s, at + DKG_PRIVATE_TIMEOUT),
        dkg_end: reading_at(s, at + DKG_END_TIMEOUT),
        nonce: reading_at(s, at + NONCE_TIMEOUT),
        sign: reading_at(s, at + SIGN_TIMEOUT),
    }
}

pub fn ids_at(s: &[u8], at: usize) -> Ids
    requires { at + ids_form.width < 2 ^ 64 }
    ensures { result ≡ ids_form.load s.now at }
{
    Ids {
        dkg_id: wire::u64_at(s, at),
        sign_id: wire::u64_at(s, at + SIGN_ID),
        sign_iter_id: wire::u64_at(s, at + SIGN_ITER_ID),
    }
}

// A slot's own bytes.
fn slot_in(slot: &[u8]) -> ResponseSlot
    ensures { result ≡ slot_form.load slot.now 0 }
{
    ResponseSlot {
        held: flag_at(slot, 0),
        waits: flag_at(slot, WAITS),
        ids: ids_at(slot, SLOT_IDS),
        key_ids: wire::u64_at(slot, SLOT_KEY_IDS) as usize,
        nonces: wire::u64_at(slot, SLOT_NONCES) as usize,
        clock: wire::u64_at(slot, SLOT_CLOCK),
    }
}

// Where all of the slot's bytes are there, the compiler knows how many, and asks no more.
pub fn slot_at(s: &[u8], at: usize) -> ResponseSlot
    requires { at + slot_form.width < 2 ^ 64 }
    ensures { result ≡ slot_form.load s.now at }
{
    match s.get(at..at + SLOT_BYTES) {
        Some(slot) => slot_in(slot),
        None => slot_in(wire::part(s, at, SLOT_BYTES)),
    }
}

pub fn clocks_at(s: &[u8], at: usize) -> Clocks
    requires { at + clocks_form.width < 2 ^ 64 }
    ensures { result ≡ clocks_form.load s.now at }
{
    Clocks {
        nonce_start: reading_at(s, at),
        sign_start: reading_at(s, at + SIGN_START),
    }
}

pub fn keys_at(s: &[u8], at: usize) -> Keys
    requires { at + keys_form.width < 2 ^ 64 }
    ensures { result ≡ keys_form.load s.now at }
{
    Keys {
        coordinator: flag_at(s, at),
        aggregate: flag_at(s, at + AGGREGATE),
    }
}
