// Idle, on a message: another coordinator's nonce request starts a round; DkgBegin is asked its dkg id.
#![tactic(auto)]

ghost use Rattle.std.specs.Prelude.{◌≡◌, ℕ, List, length};
ghost use Rattle.layout.specs.LaidOut.{header_in};
ghost use Rattle.state.specs.Turns.{Did};
ghost use Rattle.idle.specs.Idle.{root_in, iterated, Heard, idle_request_turn, idle_turn};

use layout::{Header, Ids, ROOT_LENGTH};
use starts::naming::Start;
use starts::rounds;
use state::answers;
use state::answers::Done;
use state::fields::Coordinator;

// The root of a kind 1 packet, zeros where it has none.
fn root_of(packet: &[u8]) -> [u8; ROOT_LENGTH]
    ensures { result ≡ root_in packet.now }
{
    let mut root = [0; ROOT_LENGTH];
    wire::copy(&mut root, 0, parts::root(packet));
    root
}

// `request_nonces` adds 1 again.
fn with_iteration(s: Coordinator, iteration: u64) -> Coordinator
    ensures { result ≡ iterated iteration s }
{
    let ids = Ids {
        sign_iter_id: iteration.wrapping_sub(1),
        ..s.ids
    };
    Coordinator { ids, ..s }
}

// One with the current sign id does nothing. The dkg id is not compared.
fn nonce_request(s: Coordinator, out: &mut [u8], clock: u64, packet: &[u8], h: Header) -> Done
    requires { Heard packet.now h (length out.old) × (h.kind ≡ 1) }
    ensures { (store : List ℕ)
        → Did (idle_request_turn clock packet.now s store) out.old result store out.new }
{
    if h.ids.sign_id == s.ids.sign_id {
        return answers::quiet(s);
    }
    let t = with_iteration(s, h.ids.sign_iter_id);
    let by = Start {
        signature_type: layout::signature_type(h.signature_type),
        root: root_of(packet),
        sign_id: Some(h.ids.sign_id),
    };
    rounds::begin(t, out, clock, parts::message(packet), by)
}

// h: the packet's header. Compiled by itself, so that its frame is not in those that gather.
#[inline(never)]
pub fn idle(s: Coordinator, out: &mut [u8], clock: u64, packet: &[u8], h: Header) -> Done
    requires { Heard packet.now h (length out.old) }
    ensures { (store : List ℕ)
        → Did (idle_turn clock packet.now s store) out.old result store out.new }
{
    if h.kind == 1 {
        return nonce_request(s, out, clock, packet, h);
    }
    // no `match` on the kind: the default arm of one does not tell the proof which kinds it is not
    if h.kind != 5 {
        return answers::quiet(s);
    }
    if h.ids.dkg_id != s.ids.dkg_id {
        return answers::refused(s, 15);
    }
    answers::quiet(s)
}
