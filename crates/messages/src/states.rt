// A message that is taken, by state: another coordinator's request in Idle, responses where they are gathered, nothing elsewhere.
ghost use Rattle.std.specs.Prelude.{Some};
ghost use Rattle.std.specs.Prelude.{◌≡◌, length};
ghost use Rattle.state.specs.Turns.{Did};
ghost use Rattle.messages.specs.Messages.{Incoming, in_nonces, in_shares, phase_turn, message_turn};

use crate::phases::Phase;
use crate::{phases, verified};
use layout::{Header, SignatureType, SignerId};
use nonce_gather::gather;
use state::answers;
use state::answers::Done;
use state::fields::Coordinator;

// Compiled by themselves, each way of hearing has a frame of its own, and a call takes the stack of one alone.
#[inline(never)]
fn in_nonce_gather(
    s: Coordinator,
    store: &mut [u8],
    out: &mut [u8],
    clock: u64,
    signature_type: SignatureType,
    packet: &[u8],
    h: Header,
) -> Done
    requires { Incoming s store.old packet.now h (length out.old) }
    ensures { Did (in_nonces clock signature_type packet.now s store.old)
        out.old result store.new out.new }
{
    if h.kind != 2 {
        return answers::quiet(s);
    }
    gather::gather_nonces(
        s,
        store,
        out,
        clock,
        signature_type,
        h.ids,
        SignerId(h.signer_id),
        parts::message(packet),
        parts::key_ids(packet),
        parts::nonces(packet),
    )
}

#[inline(never)]
fn in_share_gather(
    s: Coordinator,
    store: &mut [u8],
    out: &mut [u8],
    signature_type: SignatureType,
    packet: &[u8],
    h: Header,
) -> Done
    requires { Incoming s store.old packet.now h (length out.old) }
    ensures { Did (in_shares signature_type packet.now s store.old)
        out.old result store.new out.new }
{
    if h.kind != 4 {
        return answers::quiet(s);
    }
    share_gather::gather_shares(s, store, out, signature_type, packet, h)
}

fn by_phase(
    s: Coordinator,
    store: &mut [u8],
    out: &mut [u8],
    clock: u64,
    packet: &[u8],
    h: Header,
) -> Done
    requires { Incoming s store.old packet.now h (length out.old) }
    ensures { Did (phase_turn clock packet.now s store.old)
        out.old result store.new out.new }
{
    match phases::phase_of(s.position.state) {
        Phase::Idling => idle::idle(s, out, clock, packet, h),
        Phase::GatheringNonces(t) => in_nonce_gather(s, store, out, clock, t, packet, h),
        Phase::GatheringShares(t) => in_share_gather(s, store, out, t, packet, h),
        Phase::Resting => answers::quiet(s),
    }
}

// h: the packet's header. verdict: the host's on the packet's seal.
pub fn on_message(
    s: Coordinator,
    store: &mut [u8],
    out: &mut [u8],
    clock: u64,
    verdict: bool,
    packet: &[u8],
    h: Header,
) -> Done
    requires { Incoming s store.old packet.now h (length out.old) }
    ensures { Did (message_turn clock verdict packet.now s store.old)
        out.old result store.new out.new }
{
    let passed = verified::verified(s, h, verdict);
    match passed {
        Err(n) => answers::refused(s, n),
        Ok(()) => by_phase(s, store, out, clock, packet, h),
    }
}
