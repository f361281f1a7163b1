// Arrays, read element by element, and the structs that hold them.
ghost use Rattle.std.specs.Prelude.{◌<◌, ◌^◌, ◌+◌, ◌*◌, ◌≡◌};
ghost use Rattle.layout.specs.Limits.{list_limit};
ghost use Rattle.form.specs.Form.{Form, flag, each};
ghost use Rattle.state_bytes.specs.Description.{key_form, signer_form, slot_form, row_form, records_form, share_form, marks_form};

use layout::{KeyId, LIST_LIMIT, SignerId};
use loading_fields::fields;
use state::fields::{Marks, Records, ResponseSlot, ShareSlot, SignRoundInfo, SignerEntry};
use state_bytes::{
    HAS_KEYS, KEY_BYTES, KEY_COUNT, KEY_COUNTS, KEY_IDS, MALICIOUS, ONE, ROW_BYTES, ROW_COUNT,
    SHARE_BYTES, SHARE_COUNT, SIGNER_BYTES, SLOT_BYTES, SLOTS,
};
use validity::keys::KeyIds;

// A value that stands in an array: its form, how many bytes that takes, and what they say.
pub trait Element: Sized {
    ghost form: { Form Self };

    fn width() -> usize
        ensures { result ≡ form.width };

    fn at(s: &[u8], at: usize) -> Self
        requires { at + form.width < 2 ^ 64 }
        ensures { result ≡ form.load s.now at };
}

// The elements, one after the other: the first stands in each place, and then the others are put in theirs. `array::from_fn` would say it
// in a line, but fills a place for the whole array before, so that loading a state took twice as many instructions.
pub fn each_at<T: Element + Copy, const N: usize>(s: &[u8], at: usize) -> [T; N]
    requires some { 0 < N }
    requires fits { at + T.form.width * N < 2 ^ 64 }
    ensures { result ≡ (each N T.form).load s.now at }
{
    let mut items = [T::at(s, at); N];
    for i in 1..N {
        items[i] = T::at(s, at + T::width() * i);
    }
    items
}

impl Element for bool {
    ghost form = { flag };

    fn width() -> usize {
        ONE
    }

    fn at(s: &[u8], at: usize) -> bool {
        fields::flag_at(s, at)
    }
}

impl Element for KeyId {
    ghost form = { key_form };

    fn width() -> usize {
        KEY_BYTES
    }

    fn at(s: &[u8], at: usize) -> KeyId {
        KeyId(wire::u32_at(s, at))
    }
}

// Where all of the list's bytes are there, the compiler knows how many, and asks no more.
fn key_ids_at(s: &[u8], at: usize) -> [KeyId; LIST_LIMIT]
    requires { at + (each list_limit key_form).width < 2 ^ 64 }
    ensures { result ≡ (each list_limit key_form).load s.now at }
{
    match s.get(at..at + KEY_BYTES * LIST_LIMIT) {
        Some(keys) => each_at(keys, 0),
        None => each_at(s, at),
    }
}

impl Element for SignerEntry {
    ghost form = { signer_form };

    fn width() -> usize {
        SIGNER_BYTES
    }

    fn at(s: &[u8], at: usize) -> SignerEntry {
        SignerEntry {
            id: SignerId(wire::u32_at(s, at)),
            has_keys: fields::flag_at(s, at + HAS_KEYS),
            keys: KeyIds {
                ids: key_ids_at(s, at + KEY_IDS),
                count: wire::u64_at(s, at + KEY_COUNT) as usize,
            },
        }
    }
}

impl Element for ResponseSlot {
    ghost form = { slot_form };

    fn width() -> usize {
        SLOT_BYTES
    }

    fn at(s: &[u8], at: usize) -> ResponseSlot {
        fields::slot_at(s, at)
    }
}

impl Element for SignRoundInfo {
    ghost form = { row_form };

    fn width() -> usize {
        ROW_BYTES
    }

    fn at(s: &[u8], at: usize) -> SignRoundInfo {
        SignRoundInfo {
            message: wire::u64_at(s, at) as usize,
            slots: each_at(s, at + SLOTS),
        }
    }
}

impl Element for ShareSlot {
    ghost form = { share_form };

    fn width() -> usize {
        SHARE_BYTES
    }

    fn at(s: &[u8], at: usize) -> ShareSlot {
        ShareSlot {
            held: fields::flag_at(s, at),
            count: wire::u64_at(s, at + SHARE_COUNT) as usize,
            key_counts: fields::bytes_at(s, at + KEY_COUNTS),
        }
    }
}

pub fn records_at(s: &[u8], at: usize) -> Records
    requires { at + records_form.width < 2 ^ 64 }
    ensures { result ≡ records_form.load s.now at }
{
    Records {
        rows: each_at(s, at),
        count: wire::u64_at(s, at + ROW_COUNT) as usize,
    }
}

pub fn marks_at(s: &[u8], at: usize) -> Marks
    requires { at + marks_form.width < 2 ^ 64 }
    ensures { result ≡ marks_form.load s.now at }
{
    Marks {
        ended: each_at(s, at),
        malicious: each_at(s, at + MALICIOUS),
    }
}
