// A whole state.
ghost use Rattle.std.specs.Prelude.{◌<◌, ◌^◌, ◌+◌, ◌≡◌, length};
ghost use Rattle.wire.specs.Bytes.{put};
ghost use Rattle.state_bytes.specs.Description.{config_form, saved_type, position_form, message_form};
ghost use Rattle.state_bytes.specs.Saved.{saved};

use layout::SignatureType;
use saving_arrays::arrays;
use saving_fields::fields;
use state::fields::{Config, Coordinator, Message, Position};
use state_bytes::{
    CLOCKS_START, COMMISSIONED_START, CONFIG_START, DKG_THRESHOLD, EIGHT, FOUR, IDS_START,
    JOB_START, KEYS_START, MARKS_START, MESSAGE_LEN, MESSAGE_START, NUM_KEYS, ONE, POSITION_START,
    RECORDS_START, ROOT, SHARES_START, SIGN_THRESHOLD, SIGNATURE_TYPE, SIGNER_COUNT, SIGNERS,
    THRESHOLD, TIMEOUTS, VERIFY_PACKET_SIGS, VERSION, VERSION_START, ZEROS, ZEROS_START,
};

fn put_config(out: &mut [u8], at: usize, g: &Config)
    requires { at + config_form.width < 2 ^ 64 }
    ensures written { out.new ≡ put out.old at (config_form.save g.now) }
    ensures long { length (config_form.save g.now) ≡ config_form.width }
{
    wire::put_number(out, at, FOUR, g.num_signers as u64);
    wire::put_number(out, at + NUM_KEYS, FOUR, g.num_keys as u64);
    wire::put_number(out, at + THRESHOLD, FOUR, g.threshold as u64);
    wire::put_number(out, at + DKG_THRESHOLD, FOUR, g.dkg_threshold as u64);
    wire::put_number(out, at + SIGN_THRESHOLD, FOUR, g.sign_threshold as u64);
    fields::put_timeouts(out, at + TIMEOUTS, &g.timeouts);
    arrays::put_each(out, at + SIGNERS, &g.signers);
    wire::put_number(out, at + SIGNER_COUNT, EIGHT, g.count as u64);
    fields::put_flag(out, at + VERIFY_PACKET_SIGS, g.verify_packet_sigs);
}

// The number of a state's type, 0 where it has none.
pub fn type_byte(t: Option<SignatureType>) -> u8
    ensures { result ≡ saved_type t }
{
    t.map_or(0, layout::type_number)
}

fn put_position(out: &mut [u8], at: usize, p: &Position)
    requires { at + position_form.width < 2 ^ 64 }
    ensures written { out.new ≡ put out.old at (position_form.save p.now) }
    ensures long { length (position_form.save p.now) ≡ position_form.width }
{
    let number = state_table::state_number(p.state);
    let type_number = type_byte(state_table::type_in(p.state));
    wire::put_number(out, at, ONE, number as u64);
    wire::put_number(out, at + SIGNATURE_TYPE, ONE, type_number as u64);
    wire::copy(out, at + ROOT, &p.root);
}

fn put_message(out: &mut [u8], at: usize, m: &Message)
    requires { at + message_form.width < 2 ^ 64 }
    ensures written { out.new ≡ put out.old at (message_form.save m.now) }
    ensures long { length (message_form.save m.now) ≡ message_form.width }
{
    wire::copy(out, at, &m.bytes);
    wire::put_number(out, at + MESSAGE_LEN, EIGHT, m.len as u64);
}

// The state's bytes at the buffer's front; what would lie past its end is not written.
pub fn save(out: &mut [u8], s: &Coordinator)
    ensures { out.new ≡ put out.old 0 (saved s.now) }
{
    wire::copy(out, 0, b"ROUNDCAB");
    wire::put_number(out, VERSION_START, EIGHT, VERSION);
    fields::put_flag(out, COMMISSIONED_START, s.commissioned);
    put_config(out, CONFIG_START, &s.config);
    fields::put_ids(out, IDS_START, &s.ids);
    put_position(out, POSITION_START, &s.position);
    put_message(out, MESSAGE_START, &s.message);
    arrays::put_records(out, RECORDS_START, &s.records);
    arrays::put_each(out, SHARES_START, &s.shares.slots);
    arrays::put_marks(out, MARKS_START, &s.marks);
    fields::put_clocks(out, CLOCKS_START, &s.clocks);
    fields::put_keys(out, KEYS_START, &s.keys);
    fields::put_flag(out, JOB_START, s.job);
    wire::put_number(out, ZEROS_START, ZEROS, 0);
}
