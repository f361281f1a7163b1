// A whole state.
ghost use Rattle.std.specs.Prelude.{◌<◌, ◌^◌, ◌+◌, ◌≡◌};
ghost use Rattle.wire.specs.Bytes.{le};
ghost use Rattle.form.specs.Form.{constant};
ghost use Rattle.state_bytes.specs.Version.{version};
ghost use Rattle.layout.specs.Types.{type_of};
ghost use Rattle.state_bytes.specs.Description.{timeouts_form, config_form, state_for, is_state, position_form, records_form};
ghost use Rattle.state_bytes.specs.Description.{marks_form, clocks_form, keys_form, coordinator_form};
ghost use Rattle.state_bytes.specs.Loaded.{is_saved};

use crate::strides;
use layout::{RECORD_LIMIT, SIGNER_LIMIT};
use state::fields::{ShareSlot, SignRoundInfo, SignerEntry};
use state_bytes::{
    AGGREGATE, CLOCKS_START, COMMISSIONED_START, CONFIG_START, DKG_END_TIMEOUT,
    DKG_PRIVATE_TIMEOUT, EIGHT, JOB_START, KEYS_START, MALICIOUS, MARKS_START, NONCE_TIMEOUT,
    POSITION_START, RECORDS_START, SHARES_START, SIGN_START, SIGN_TIMEOUT, SIGNATURE_TYPE, SIGNERS,
    STATE_LENGTH, TIMEOUTS, VERIFY_PACKET_SIGS, VERSION, VERSION_START, ZEROS, ZEROS_START,
};

fn is_version(s: &[u8], at: usize) -> bool
    ensures { result ≡ (constant (le 8 version)).left s.now at }
{
    let mut version = [0u8; EIGHT];
    wire::put_number(&mut version, 0, EIGHT, VERSION);
    strides::stands(s, at, &version)
}

fn are_timeouts(s: &[u8], at: usize) -> bool
    requires { at + timeouts_form.width < 2 ^ 64 }
    ensures { result ≡ timeouts_form.left s.now at }
{
    strides::is_reading(s, at)
        && strides::is_reading(s, at + DKG_PRIVATE_TIMEOUT)
        && strides::is_reading(s, at + DKG_END_TIMEOUT)
        && strides::is_reading(s, at + NONCE_TIMEOUT)
        && strides::is_reading(s, at + SIGN_TIMEOUT)
}

fn is_config(s: &[u8], at: usize) -> bool
    requires { at + config_form.width < 2 ^ 64 }
    ensures { result ≡ config_form.left s.now at }
{
    are_timeouts(s, at + TIMEOUTS)
        && strides::are_left::<SignerEntry>(s, at + SIGNERS, SIGNER_LIMIT)
        && strides::is_flag(s, at + VERIFY_PACKET_SIGS)
}

// Whether a state has just these two numbers.
fn is_state(n: u8, t: u8) -> bool
    ensures { result ≡ is_state (state_for n (type_of t)) n t }
{
    let state = loading::states::state_for(n, layout::signature_type(t));
    let type_number = saving::states::type_byte(state_table::type_in(state));
    state_table::state_number(state) == n as usize && type_number == t
}

fn is_position(s: &[u8], at: usize) -> bool
    requires { at + position_form.width < 2 ^ 64 }
    ensures { result ≡ position_form.left s.now at }
{
    is_state(wire::byte(s, at), wire::byte(s, at + SIGNATURE_TYPE))
}

fn are_records(s: &[u8], at: usize) -> bool
    requires { at + records_form.width < 2 ^ 64 }
    ensures { result ≡ records_form.left s.now at }
{
    strides::are_left::<SignRoundInfo>(s, at, RECORD_LIMIT)
}

fn are_marks(s: &[u8], at: usize) -> bool
    requires { at + marks_form.width < 2 ^ 64 }
    ensures { result ≡ marks_form.left s.now at }
{
    strides::are_left::<bool>(s, at, SIGNER_LIMIT)
        && strides::are_left::<bool>(s, at + MALICIOUS, SIGNER_LIMIT)
}

fn are_clocks(s: &[u8], at: usize) -> bool
    requires { at + clocks_form.width < 2 ^ 64 }
    ensures { result ≡ clocks_form.left s.now at }
{
    strides::is_reading(s, at) && strides::is_reading(s, at + SIGN_START)
}

fn are_keys(s: &[u8], at: usize) -> bool
    requires { at + keys_form.width < 2 ^ 64 }
    ensures { result ≡ keys_form.left s.now at }
{
    strides::is_flag(s, at) && strides::is_flag(s, at + AGGREGATE)
}

// Whether a save left bytes that are long enough for a state. All is looked at, so `&` in the place of `&&` costs no more and has no branches.
fn is_left(s: &[u8]) -> bool
    ensures { result ≡ coordinator_form.left s.now 0 }
{
    strides::stands(s, 0, b"ROUNDCAB")
        & is_version(s, VERSION_START)
        & strides::is_flag(s, COMMISSIONED_START)
        & is_config(s, CONFIG_START)
        & is_position(s, POSITION_START)
        & are_records(s, RECORDS_START)
        & strides::are_left::<ShareSlot>(s, SHARES_START, SIGNER_LIMIT)
        & are_marks(s, MARKS_START)
        & are_clocks(s, CLOCKS_START)
        & are_keys(s, KEYS_START)
        & strides::is_flag(s, JOB_START)
        & strides::stands(s, ZEROS_START, &[0u8; ZEROS])
}

pub fn is_saved(s: &[u8]) -> bool
    ensures { result ≡ is_saved s.now }
{
    s.len() >= STATE_LENGTH && is_left(s)
}
