// A whole state.
ghost use Rattle.std.specs.Prelude.{◌<◌, ◌^◌, ◌+◌, ◌≡◌};
ghost use Rattle.state_bytes.specs.Description.{config_form, state_for, position_form, message_form};
ghost use Rattle.state_bytes.specs.Loaded.{state_at};

use layout::SignatureType;
use loading_arrays::arrays;
use loading_fields::fields;
use state::fields::{Config, Coordinator, Message, Position, Shares};
use state_bytes::{
    CLOCKS_START, COMMISSIONED_START, CONFIG_START, DKG_THRESHOLD, IDS_START, JOB_START,
    KEYS_START, MARKS_START, MESSAGE_LEN, MESSAGE_START, NUM_KEYS, POSITION_START, RECORDS_START,
    ROOT, SHARES_START, SIGN_THRESHOLD, SIGNATURE_TYPE, SIGNER_COUNT, SIGNERS, THRESHOLD, TIMEOUTS,
    VERIFY_PACKET_SIGS,
};
use state_table::State;

fn config_at(s: &[u8], at: usize) -> Config
    requires { at + config_form.width < 2 ^ 64 }
    ensures { result ≡ config_form.load s.now at }
{
    Config {
        num_signers: wire::u32_at(s, at),
        num_keys: wire::u32_at(s, at + NUM_KEYS),
        threshold: wire::u32_at(s, at + THRESHOLD),
        dkg_threshold: wire::u32_at(s, at + DKG_THRESHOLD),
        sign_threshold: wire::u32_at(s, at + SIGN_THRESHOLD),
        timeouts: fields::timeouts_at(s, at + TIMEOUTS),
        signers: arrays::each_at(s, at + SIGNERS),
        count: wire::u64_at(s, at + SIGNER_COUNT) as usize,
        verify_packet_sigs: fields::flag_at(s, at + VERIFY_PACKET_SIGS),
    }
}

// The state of a number and a type.
pub fn state_for(n: u8, t: SignatureType) -> State
    ensures { result ≡ state_for n t }
{
    match n {
        0 => State::Idle,
        1 => State::DkgPublicDistribute,
        2 => State::DkgPublicGather,
        3 => State::DkgPublicSharesDoneDistribute,
        4 => State::DkgPublicSharesDoneGather,
        5 => State::DkgPrivateDistribute,
        6 => State::DkgPrivateGather,
        7 => State::DkgPrivateSharesDoneDistribute,
        8 => State::DkgPrivateSharesDoneGather,
        9 => State::DkgEndDistribute,
        10 => State::DkgEndGather,
        11 => State::NonceRequest(t),
        12 => State::NonceGather(t),
        13 => State::SigShareRequest(t),
        _ => State::SigShareGather(t),
    }
}

fn position_at(s: &[u8], at: usize) -> Position
    requires { at + position_form.width < 2 ^ 64 }
    ensures { result ≡ position_form.load s.now at }
{
    let signature_type = layout::signature_type(wire::byte(s, at + SIGNATURE_TYPE));
    Position {
        state: state_for(wire::byte(s, at), signature_type),
        root: fields::bytes_at(s, at + ROOT),
    }
}

fn message_at(s: &[u8], at: usize) -> Message
    requires { at + message_form.width < 2 ^ 64 }
    ensures { result ≡ message_form.load s.now at }
{
    Message {
        bytes: fields::bytes_at(s, at),
        len: wire::u64_at(s, at + MESSAGE_LEN) as usize,
    }
}

// What the bytes say, field by field.
pub fn state_at(s: &[u8]) -> Coordinator
    ensures { result ≡ state_at s.now }
{
    Coordinator {
        commissioned: fields::flag_at(s, COMMISSIONED_START),
        config: config_at(s, CONFIG_START),
        ids: fields::ids_at(s, IDS_START),
        position: position_at(s, POSITION_START),
        message: message_at(s, MESSAGE_START),
        records: arrays::records_at(s, RECORDS_START),
        shares: Shares {
            slots: arrays::each_at(s, SHARES_START),
        },
        marks: arrays::marks_at(s, MARKS_START),
        clocks: fields::clocks_at(s, CLOCKS_START),
        keys: fields::keys_at(s, KEYS_START),
        job: fields::flag_at(s, JOB_START),
    }
}
