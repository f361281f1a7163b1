// The signing phase as a library for a host in C or Rust, described by include/roundcabinet.h. The state crosses as bytes in a buffer that
// the host lends, beside the store and the answer buffer. No call asks anything of its arguments. Crate roundcabinet_c exports the calls.
#![tactic(auto)]

ghost use Rattle.std.specs.Prelude.{◌+◌, ◌≤◌, ◌≡◌, [], leb, length, take, drop};
ghost use Rattle.std.specs.Result.{result_unwrap_or};
ghost use Rattle.layout.specs.Decode.{decode};
ghost use Rattle.parts.specs.Parts.{part_in};
ghost use Rattle.packet_in_hand.specs.InHand.{counted};
ghost use Rattle.library_reader.specs.Plain.{packet_of, place_in};
ghost use Rattle.layout.specs.Messages.{nonce_request, dkg_begin, dkg_signer, dkg_coordinator};
ghost use Rattle.framing.specs.Writing.{write_message};
ghost use Rattle.body.specs.Body.{request_of};
ghost use Rattle.requests.specs.Requests.{write_share_request};
ghost use Rattle.writer.specs.Results.{write_nonce_timeout, write_insufficient_signers, write_arrivals};
ghost use Rattle.job.specs.Job.{write_job};
ghost use Rattle.responses.specs.Responses.{write_nonce_response, write_signature_share_response};
ghost use Rattle.library_writers.specs.Given.{head_of, response_head_of, signers_given, arrivals_given, responses_of, job_places_of};
ghost use Rattle.library_writers.specs.Written.{typed, WrotePlain};
ghost use Rattle.state_bytes.specs.Saved.{state_length};
ghost use Rattle.interface.specs.Configs.{config_of, is_yes};
ghost use Rattle.interface.specs.Called.{Called};
ghost use Rattle.library_commission.specs.Commissioned.{commissioned_turn};
ghost use Rattle.calls.specs.Calls.{set_key_turn, aggregated_turn};
ghost use Rattle.calls.specs.Resets.{reset_turn};
ghost use Rattle.results.specs.Results.{results_turn};
ghost use Rattle.arrivals.specs.Query.{arrivals_turn};
ghost use Rattle.state_bytes.specs.Loaded.{is_saved, loaded};
ghost use Rattle.library_start.specs.Given.{given_sign_id, started_turn, moved_turn};
ghost use Rattle.packet_entry.specs.declared.Entry.TheVariants.{Process, ProcessMessage};
ghost use Rattle.process.specs.Process.{receive_turn};
ghost use Rattle.process_timeout.specs.ProcessTimeout.{process_timeout_turn};
ghost use Rattle.calls.specs.declared.held_keys.HeldKey.TheVariants as Which;
ghost use Rattle.roundcabinet.specs.Version.{version};

use interface::answers::RcAnswer;
use interface::configs::RcConfig;
use library_reader::{RcPacket, RcPart};
use library_writers::given::{
    RcArrivals, RcHead, RcJobPlaces, RcResponseHead, RcResponses, RcSignerIds,
};
use library_writers::written::RcWritten;
use library_writers::{responses_written, written};

const VERSION: u32 = 1024;

// The version of the library that is linked, for a host to hold against the header's.
#[unsafe(no_mangle)]
pub extern "C" fn rc_version() -> u32
    ensures { result ≡ version }
{
    VERSION
}

// A state buffer that is too short is refused with 4, and nothing is written.
#[unsafe(no_mangle)]
pub extern "C" fn rc_commission(state: &mut [u8], store: &mut [u8], config: RcConfig) -> RcAnswer
    ensures { Called (leb state_length (length state.old))
        (commissioned_turn (config_of config) (length state.old) store.old)
        state.old [] result state.new store.new [] }
{
    library_commission::commission(state, store, config)
}

#[unsafe(no_mangle)]
pub extern "C" fn rc_set_coordinator_key(state: &mut [u8], store: &[u8], held: u8) -> RcAnswer
    ensures { Called (is_saved state.old)
        (set_key_turn Which.Coordinator (is_yes held) (loaded state.old) store.now)
        state.old [] result state.new store.now [] }
{
    library_updates::set_coordinator_key(state, store, held)
}

#[unsafe(no_mangle)]
pub extern "C" fn rc_set_group_key(state: &mut [u8], store: &[u8], held: u8) -> RcAnswer
    ensures { Called (is_saved state.old)
        (set_key_turn Which.Aggregate (is_yes held) (loaded state.old) store.now)
        state.old [] result state.new store.now [] }
{
    library_updates::set_group_key(state, store, held)
}

#[unsafe(no_mangle)]
pub extern "C" fn rc_take_results(
    state: &mut [u8],
    store: &[u8],
    dkg_id: u64,
    ended: &[u32],
) -> RcAnswer
    ensures { Called (is_saved state.old)
        (results_turn dkg_id ended.now (loaded state.old) store.now)
        state.old [] result state.new store.now [] }
{
    library_updates::take_results(state, store, dkg_id, ended)
}

// sign_id counts where sign_id_given is not 0; the root where the type is 3.
#[unsafe(no_mangle)]
pub extern "C" fn rc_start_signing_round(
    state: &mut [u8],
    store: &[u8],
    out: &mut [u8],
    clock: u64,
    message: &[u8],
    signature_type: u8,
    root: &[u8],
    sign_id_given: u8,
    sign_id: u64,
) -> RcAnswer
    ensures { Called (is_saved state.old)
        (started_turn clock message.now signature_type root.now (given_sign_id sign_id_given sign_id)
        (length out.old) (loaded state.old) store.now)
        state.old out.old result state.new store.now out.new }
{
    library_start::start_signing_round(
        state,
        store,
        out,
        clock,
        message,
        signature_type,
        root,
        sign_id_given,
        sign_id,
    )
}

#[unsafe(no_mangle)]
pub extern "C" fn rc_process(
    state: &mut [u8],
    store: &mut [u8],
    out: &mut [u8],
    clock: u64,
    verdict: u8,
    packet: &[u8],
) -> RcAnswer
    ensures { Called (is_saved state.old)
        (receive_turn Process clock (is_yes verdict) packet.now (length out.old)
        (loaded state.old) store.old)
        state.old out.old result state.new store.new out.new }
{
    library_process::process(state, store, out, clock, verdict, packet)
}

#[unsafe(no_mangle)]
pub extern "C" fn rc_process_message(
    state: &mut [u8],
    store: &mut [u8],
    out: &mut [u8],
    clock: u64,
    verdict: u8,
    packet: &[u8],
) -> RcAnswer
    ensures { Called (is_saved state.old)
        (receive_turn ProcessMessage clock (is_yes verdict) packet.now (length out.old)
        (loaded state.old) store.old)
        state.old out.old result state.new store.new out.new }
{
    library_process::process_message(state, store, out, clock, verdict, packet)
}

#[unsafe(no_mangle)]
pub extern "C" fn rc_process_timeout(
    state: &mut [u8],
    store: &[u8],
    out: &mut [u8],
    clock: u64,
) -> RcAnswer
    ensures { Called (is_saved state.old)
        (process_timeout_turn clock (length out.old) (loaded state.old) store.now)
        state.old out.old result state.new store.now out.new }
{
    library_process::process_timeout(state, store, out, clock)
}

#[unsafe(no_mangle)]
pub extern "C" fn rc_tell_arrivals(state: &[u8], store: &[u8], out: &mut [u8]) -> RcAnswer
    ensures { Called (is_saved state.now)
        (arrivals_turn (length out.old) (loaded state.now) store.now)
        state.now out.old result state.now store.now out.new }
{
    library_queries::tell_arrivals(state, store, out)
}

#[unsafe(no_mangle)]
pub extern "C" fn rc_aggregated(state: &mut [u8], store: &[u8], ok: u8) -> RcAnswer
    ensures { Called (is_saved state.old)
        (aggregated_turn (is_yes ok) (loaded state.old) store.now)
        state.old [] result state.new store.now [] }
{
    library_updates::aggregated(state, store, ok)
}

#[unsafe(no_mangle)]
pub extern "C" fn rc_reset(state: &mut [u8], store: &[u8]) -> RcAnswer
    ensures { Called (is_saved state.old) (reset_turn (loaded state.old) store.now)
        state.old [] result state.new store.now [] }
{
    library_updates::reset(state, store)
}

#[unsafe(no_mangle)]
pub extern "C" fn rc_can_move_to(
    state: &mut [u8],
    store: &[u8],
    next: u8,
    signature_type: u8,
    root: &[u8],
) -> RcAnswer
    ensures { Called (is_saved state.old)
        (moved_turn next signature_type root.now (loaded state.old) store.now)
        state.old [] result state.new store.now [] }
{
    library_start::can_move_to(state, store, next, signature_type, root)
}

#[unsafe(no_mangle)]
pub extern "C" fn rc_read_packet(packet: &[u8]) -> RcPacket
    ensures { result ≡ packet_of (decode packet.now) }
{
    library_reader::read_packet(packet)
}

// A part lies inside its packet, whatever the bytes.
#[unsafe(no_mangle)]
pub extern "C" fn rc_packet_part(packet: &[u8], i: u16) -> RcPart
    ensures { (result ≡ place_in packet.now (result_unwrap_or (counted (decode packet.now)) 0) i)
        × (take result.length (drop result.at packet.now)
        ≡ part_in packet.now (result_unwrap_or (counted (decode packet.now)) 0) i)
        × (result.at + result.length ≤ length packet.now) }
{
    library_reader::packet_part(packet, i)
}

// Bench's writers, called alone: 7 and 9, and 8 for a type above 3.
#[unsafe(no_mangle)]
pub extern "C" fn rc_write_nonce_request(out: &mut [u8], given: RcHead, message: &[u8]) -> RcWritten
    ensures { WrotePlain (typed given.signature_type
        (write_message (length out.old) (nonce_request (request_of (head_of given) message.now))))
        out.old result out.new }
{
    written::write_nonce_request(out, given, message)
}

#[unsafe(no_mangle)]
pub extern "C" fn rc_write_signature_share_request(
    out: &mut [u8],
    given: RcHead,
    message: &[u8],
    source: &[u8],
    places: RcResponses,
) -> RcWritten
    ensures { WrotePlain (typed given.signature_type
        (write_share_request (length out.old) (head_of given) message.now source.now (responses_of places)))
        out.old result out.new }
{
    written::write_signature_share_request(out, given, message, source, places)
}

#[unsafe(no_mangle)]
pub extern "C" fn rc_write_job(
    out: &mut [u8],
    given: RcHead,
    message: &[u8],
    source: &[u8],
    places: RcJobPlaces,
) -> RcWritten
    ensures { WrotePlain (typed given.signature_type
        (write_job (length out.old) (head_of given) message.now source.now (job_places_of places)))
        out.old result out.new }
{
    written::write_job(out, given, message, source, places)
}

#[unsafe(no_mangle)]
pub extern "C" fn rc_write_dkg_begin(out: &mut [u8], dkg_id: u64) -> RcWritten
    ensures { WrotePlain (write_message (length out.old) (dkg_begin dkg_id))
        out.old result out.new }
{
    written::write_dkg_begin(out, dkg_id)
}

#[unsafe(no_mangle)]
pub extern "C" fn rc_write_dkg_signer(out: &mut [u8], signer_id: u32, dkg_id: u64) -> RcWritten
    ensures { WrotePlain (write_message (length out.old) (dkg_signer signer_id dkg_id))
        out.old result out.new }
{
    written::write_dkg_signer(out, signer_id, dkg_id)
}

#[unsafe(no_mangle)]
pub extern "C" fn rc_write_dkg_coordinator(out: &mut [u8], dkg_id: u64) -> RcWritten
    ensures { WrotePlain (write_message (length out.old) (dkg_coordinator dkg_id))
        out.old result out.new }
{
    written::write_dkg_coordinator(out, dkg_id)
}

#[unsafe(no_mangle)]
pub extern "C" fn rc_write_nonce_timeout(
    out: &mut [u8],
    waiters: RcSignerIds,
    malicious: RcSignerIds,
) -> RcWritten
    ensures { WrotePlain (write_nonce_timeout (length out.old) (signers_given waiters) (signers_given malicious))
        out.old result out.new }
{
    written::write_nonce_timeout(out, waiters, malicious)
}

#[unsafe(no_mangle)]
pub extern "C" fn rc_write_insufficient_signers(out: &mut [u8], malicious: RcSignerIds) -> RcWritten
    ensures { WrotePlain (write_insufficient_signers (length out.old) (signers_given malicious))
        out.old result out.new }
{
    written::write_insufficient_signers(out, malicious)
}

#[unsafe(no_mangle)]
pub extern "C" fn rc_write_arrivals(out: &mut [u8], given: RcArrivals) -> RcWritten
    ensures { WrotePlain (write_arrivals (length out.old) (arrivals_given given))
        out.old result out.new }
{
    written::write_arrivals(out, given)
}

// A signer's writers: 9, then 26.
#[unsafe(no_mangle)]
pub extern "C" fn rc_write_nonce_response(
    out: &mut [u8],
    given: RcResponseHead,
    message: &[u8],
    key_ids: &[u32],
    nonces: &[u8],
) -> RcWritten
    ensures { WrotePlain (write_nonce_response (length out.old) (response_head_of given)
        message.now key_ids.now nonces.now)
        out.old result out.new }
{
    responses_written::write_nonce_response(out, given, message, key_ids, nonces)
}

#[unsafe(no_mangle)]
pub extern "C" fn rc_write_signature_share_response(
    out: &mut [u8],
    given: RcResponseHead,
    share_ids: &[u32],
    z_i: &[u8],
    key_counts: &[u32],
    key_ids: &[u32],
) -> RcWritten
    ensures { WrotePlain (write_signature_share_response (length out.old) (response_head_of given)
        share_ids.now z_i.now key_counts.now key_ids.now)
        out.old result out.new }
{
    responses_written::write_signature_share_response(
        out, given, share_ids, z_i, key_counts, key_ids,
    )
}
