// The good shares of a waiter that is removed: kept, and where nobody is waited for any more, the job written.
#![tactic(auto)]

ghost use Rattle.std.specs.Prelude.{◌≡◌, ℕ, length};
ghost use Rattle.state.specs.Turns.{Did};
ghost use Rattle.share_taking.specs.Taking.{SharesRecorded, job_turn, Taking, take_turn};

use layout::{Header, SignatureType};
use signing_job::waiters;
use state::answers;
use state::answers::Done;
use state::fields::Coordinator;

// The last waiter's shares are recorded: the job of the record r is out.
fn hand_job(
    s: Coordinator,
    store: &[u8],
    out: &mut [u8],
    signature_type: SignatureType,
    r: usize,
) -> Done
    requires { SharesRecorded s r (length store.now) (length out.old) }
    ensures { (id : ℕ) → Did (job_turn signature_type id r s store.now)
        out.old result store.now out.new }
{
    let message = &s.message.bytes[..s.message.len];
    let given = signing_job::write_signing_job(s, store, out, r, message, signature_type);
    let t = Coordinator { job: true, ..s };
    match given.written {
        Ok(len) => answers::handing(t, given.whole, len),
        // there is room, and the lists are short
        Err(_) => answers::refused(t, 7),
    }
}

// The good shares of the waiter in slot i, which the record r waits for no more.
pub fn take_shares(
    s: Coordinator,
    store: &mut [u8],
    out: &mut [u8],
    signature_type: SignatureType,
    packet: &[u8],
    h: Header,
    r: usize,
    i: usize,
) -> Done
    requires { Taking s store.old packet.now h r i (length out.old) }
    ensures { Did (take_turn signature_type packet.now h r i s store.old)
        out.old result store.new out.new }
{
    if s.shares.slots[i].held {
        return answers::quiet(s);
    }
    let shares = shares::keep(s.shares, store, i, packet, h.pairs);
    let t = Coordinator { shares, ..s };
    if waiters::anyone_waits(s.config, s.records.rows[r]) {
        return answers::quiet(t);
    }
    hand_job(t, store, out, signature_type, r)
}
