// Arrays, written element by element, and the structs that hold them.
ghost use Rattle.std.specs.Prelude.{◌<◌, ◌^◌, ◌+◌, ◌*◌, ◌≡◌, length};
ghost use Rattle.wire.specs.Bytes.{put};
ghost use Rattle.form.specs.Form.{Form, flag, saved_each};
ghost use Rattle.state_bytes.specs.Description.{key_form, signer_form, slot_form, row_form, records_form, share_form, marks_form};

use layout::KeyId;
use saving_fields::fields;
use state::fields::{Marks, Records, ResponseSlot, ShareSlot, SignRoundInfo, SignerEntry};
use state_bytes::{
    EIGHT, FOUR, HAS_KEYS, KEY_BYTES, KEY_COUNT, KEY_COUNTS, KEY_IDS, MALICIOUS, ONE, ROW_BYTES,
    ROW_COUNT, SHARE_BYTES, SHARE_COUNT, SIGNER_BYTES, SLOT_BYTES, SLOTS,
};

// A value that stands in an array: its form, how many bytes that takes, and how they are written.
pub trait Element {
    ghost form: { Form Self };

    fn width() -> usize
        ensures { result ≡ form.width };

    fn put(&self, out: &mut [u8], at: usize)
        requires { at + form.width < 2 ^ 64 }
        ensures written { out.new ≡ put out.old at (form.save self.now) }
        ensures long { length (form.save self.now) ≡ form.width };
}

// The elements, one after the other.
pub fn put_each<T: Element>(out: &mut [u8], at: usize, items: &[T])
    requires { at + T.form.width * length items.now < 2 ^ 64 }
    ensures written { out.new ≡ put out.old at (saved_each T.form.save items.now) }
    ensures long { length (saved_each T.form.save items.now) ≡ T.form.width * length items.now }
{
    for (i, x) in items.iter().enumerate() {
        x.put(out, at + T::width() * i);
    }
}

impl Element for bool {
    ghost form = { flag };

    fn width() -> usize {
        ONE
    }

    fn put(&self, out: &mut [u8], at: usize) {
        fields::put_flag(out, at, *self);
    }
}

impl Element for KeyId {
    ghost form = { key_form };

    fn width() -> usize {
        KEY_BYTES
    }

    fn put(&self, out: &mut [u8], at: usize) {
        wire::put_number(out, at, KEY_BYTES, self.0 as u64);
    }
}

impl Element for SignerEntry {
    ghost form = { signer_form };

    fn width() -> usize {
        SIGNER_BYTES
    }

    fn put(&self, out: &mut [u8], at: usize) {
        wire::put_number(out, at, FOUR, self.id.0 as u64);
        fields::put_flag(out, at + HAS_KEYS, self.has_keys);
        put_each(out, at + KEY_IDS, &self.keys.ids);
        wire::put_number(out, at + KEY_COUNT, EIGHT, self.keys.count as u64);
    }
}

impl Element for ResponseSlot {
    ghost form = { slot_form };

    fn width() -> usize {
        SLOT_BYTES
    }

    fn put(&self, out: &mut [u8], at: usize) {
        fields::put_slot(out, at, self);
    }
}

impl Element for SignRoundInfo {
    ghost form = { row_form };

    fn width() -> usize {
        ROW_BYTES
    }

    fn put(&self, out: &mut [u8], at: usize) {
        wire::put_number(out, at, EIGHT, self.message as u64);
        put_each(out, at + SLOTS, &self.slots);
    }
}

impl Element for ShareSlot {
    ghost form = { share_form };

    fn width() -> usize {
        SHARE_BYTES
    }

    fn put(&self, out: &mut [u8], at: usize) {
        fields::put_flag(out, at, self.held);
        wire::put_number(out, at + SHARE_COUNT, EIGHT, self.count as u64);
        wire::copy(out, at + KEY_COUNTS, &self.key_counts);
    }
}

pub fn put_records(out: &mut [u8], at: usize, r: &Records)
    requires { at + records_form.width < 2 ^ 64 }
    ensures written { out.new ≡ put out.old at (records_form.save r.now) }
    ensures long { length (records_form.save r.now) ≡ records_form.width }
{
    put_each(out, at, &r.rows);
    wire::put_number(out, at + ROW_COUNT, EIGHT, r.count as u64);
}

pub fn put_marks(out: &mut [u8], at: usize, m: &Marks)
    requires { at + marks_form.width < 2 ^ 64 }
    ensures written { out.new ≡ put out.old at (marks_form.save m.now) }
    ensures long { length (marks_form.save m.now) ≡ marks_form.width }
{
    put_each(out, at, &m.ended);
    put_each(out, at + MALICIOUS, &m.malicious);
}
