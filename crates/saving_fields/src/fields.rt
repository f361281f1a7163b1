// Structs of numbers and flags, written one field after the other. Each asks that the value's end is a place.
ghost use Rattle.std.specs.Prelude.{◌<◌, ◌^◌, ◌+◌, ◌≡◌};
ghost use Rattle.wire.specs.Bytes.{put};
ghost use Rattle.form.specs.Form.{flag};
ghost use Rattle.state_bytes.specs.Description.{reading_form, timeouts_form, ids_form, slot_form, clocks_form, keys_form};

use layout::Ids;
use state::fields::{Clocks, Keys, ResponseSlot, Timeouts};
use state_bytes::{
    AGGREGATE, DKG_END_TIMEOUT, DKG_PRIVATE_TIMEOUT, EIGHT, NANOSECONDS, NONCE_TIMEOUT, ONE,
    SIGN_ID, SIGN_ITER_ID, SIGN_START, SIGN_TIMEOUT, SLOT_CLOCK, SLOT_IDS, SLOT_KEY_IDS,
    SLOT_NONCES, WAITS,
};

pub fn put_flag(out: &mut [u8], at: usize, b: bool)
    ensures { out.new ≡ put out.old at (flag.save b) }
{
    wire::put_number(out, at, ONE, u64::from(b));
}

pub fn put_reading(out: &mut [u8], at: usize, r: Option<u64>)
    requires { at + reading_form.width < 2 ^ 64 }
    ensures { out.new ≡ put out.old at (reading_form.save r) }
{
    put_flag(out, at, r.is_some());
    wire::put_number(out, at + NANOSECONDS, EIGHT, r.unwrap_or(0));
}

pub fn put_timeouts(out: &mut [u8], at: usize, t: &Timeouts)
    requires { at + timeouts_form.width < 2 ^ 64 }
    ensures { out.new ≡ put out.old at (timeouts_form.save t.now) }
{
    put_reading(out, at, t.dkg_public);
    put_reading(out, at + DKG_PRIVATE_TIMEOUT, t.dkg_private);
    put_reading(out, at + DKG_END_TIMEOUT, t.dkg_end);
    put_reading(out, at + NONCE_TIMEOUT, t.nonce);
    put_reading(out, at + SIGN_TIMEOUT, t.sign);
}

pub fn put_ids(out: &mut [u8], at: usize, i: &Ids)
    requires { at + ids_form.width < 2 ^ 64 }
    ensures { out.new ≡ put out.old at (ids_form.save i.now) }
{
    wire::put_number(out, at, EIGHT, i.dkg_id);
    wire::put_number(out, at + SIGN_ID, EIGHT, i.sign_id);
    wire::put_number(out, at + SIGN_ITER_ID, EIGHT, i.sign_iter_id);
}

pub fn put_slot(out: &mut [u8], at: usize, r: &ResponseSlot)
    requires { at + slot_form.width < 2 ^ 64 }
    ensures { out.new ≡ put out.old at (slot_form.save r.now) }
{
    put_flag(out, at, r.held);
    put_flag(out, at + WAITS, r.waits);
    put_ids(out, at + SLOT_IDS, &r.ids);
    wire::put_number(out, at + SLOT_KEY_IDS, EIGHT, r.key_ids as u64);
    wire::put_number(out, at + SLOT_NONCES, EIGHT, r.nonces as u64);
    wire::put_number(out, at + SLOT_CLOCK, EIGHT, r.clock);
}

pub fn put_clocks(out: &mut [u8], at: usize, c: &Clocks)
    requires { at + clocks_form.width < 2 ^ 64 }
    ensures { out.new ≡ put out.old at (clocks_form.save c.now) }
{
    put_reading(out, at, c.nonce_start);
    put_reading(out, at + SIGN_START, c.sign_start);
}

pub fn put_keys(out: &mut [u8], at: usize, k: &Keys)
    requires { at + keys_form.width < 2 ^ 64 }
    ensures { out.new ≡ put out.old at (keys_form.save k.now) }
{
    put_flag(out, at, k.coordinator);
    put_flag(out, at + AGGREGATE, k.aggregate);
}
