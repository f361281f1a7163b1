// SigShareGather, on a response: decided, the waiter freed, and its good shares taken.
#![tactic(auto)]

ghost use Rattle.std.specs.Prelude.{◌≡◌, ◌<◌, length};
ghost use Rattle.layout.specs.Limits.{signer_limit, record_limit};
ghost use Rattle.state.specs.Turns.{Did};
ghost use Rattle.share_gather.specs.ShareGather.{freed as freedOf, SharesGathering, gather_shares_turn};

use layout::{Header, SignatureType};
use share_verdicts::Verdict;
use state::answers;
use state::answers::{Class, Done};
use state::fields::Coordinator;

// The record r waits no more for the signer in slot i.
fn freed(mut s: Coordinator, r: usize, i: usize) -> Coordinator
    requires { (r < record_limit) × (i < signer_limit) }
    ensures { result ≡ freedOf r i s }
{
    s.records.rows[r].slots[i].waits = false;
    s
}

// h is the packet's header.
pub fn gather_shares(
    s: Coordinator,
    store: &mut [u8],
    out: &mut [u8],
    signature_type: SignatureType,
    packet: &[u8],
    h: Header,
) -> Done
    requires { SharesGathering s store.old packet.now h (length out.old) }
    ensures { Did (gather_shares_turn signature_type packet.now s store.old)
        out.old result store.new out.new }
{
    match share_verdicts::decide(s, store, packet, h) {
        Verdict::Unawaited => answers::quiet(s),
        Verdict::Wrong(number, got, expected) => answers::mismatched(
            s,
            Class::Result,
            number,
            got,
            expected,
        ),
        Verdict::Refused(number, r, i) => answers::blaming(freed(s, r, i), number, h.signer_id),
        Verdict::Unended(r, i) => answers::quiet(freed(s, r, i)),
        Verdict::Good(r, i) => {
            let t = freed(s, r, i);
            share_taking::take_shares(t, store, out, signature_type, packet, h, r, i)
        }
    }
}
