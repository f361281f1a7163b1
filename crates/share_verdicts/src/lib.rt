// What is to be done with a share response: decided without a change.
#![tactic(auto)]

ghost use Rattle.std.specs.Prelude.{◌≡◌, map, ◌≤◌, ◌<◌};
ghost use Rattle.layout.specs.Limits.{signer_limit, record_limit};
ghost use Rattle.layout.specs.LaidOut.{header_in, parts_from};
ghost use Rattle.layout.specs.Decode.{share_in, share_response_in};
ghost use Rattle.step_definition.specs.Effects.{share_key_ids};
ghost use Rattle.shares.specs.Shares.{Shareable};
ghost use Rattle.share_verdicts.specs.Verdicts.{awaited_at, shares_verdict, waiter_verdict, verdict_of, Asked};

use layout::{Header, SignerId};
use records::admits;
use state::fields::{Coordinator, Records};
use validity::keys;

// r is the place of the current message's record, i the waiter's slot.
#[derive(Clone, Copy)]
pub enum Verdict {
    Unawaited,
    // 16 or 17, with what was got and what was expected
    Wrong(u32, u64, u64),
    // 21 or 22, r and i
    Refused(u32, usize, usize),
    Unended(usize, usize),
    Good(usize, usize),
}

// Whether the signer in slot i is waited for in the record r.
#[tactic(auto, unfolding(crate::specs::Verdicts::awaited_at))]
fn is_awaited(rs: &Records, r: usize, i: usize) -> bool
    requires { (rs.now.count ≤ record_limit) × (i < signer_limit) }
    ensures { result ≡ awaited_at rs.now r i }
{
    if rs.count <= r {
        return false;
    }
    let slot = &rs.rows[r].slots[i];
    slot.held && slot.waits
}

// Key generation ended, then 21, then 22.
fn shares_verdict(s: &Coordinator, r: usize, i: usize, packet: &[u8], pairs: u16) -> Verdict
    requires { Shareable (parts_from packet.now 32 pairs) × (i < signer_limit) }
    ensures { result ≡ shares_verdict s.now r i (share_key_ids (map share_in (parts_from packet.now 32 pairs))) }
{
    if !s.marks.ended[i] {
        return Verdict::Unended(r, i);
    }
    let entry = &s.config.signers[i];
    if !entry.has_keys {
        return Verdict::Refused(21, r, i);
    }
    let list = shares::share_keys(packet, pairs);
    if !keys::compare(list, entry.keys).same {
        return Verdict::Refused(22, r, i);
    }
    Verdict::Good(r, i)
}

// Waited for, then 16 and 17. "waiting is tested before the ids, the iteration never": a share of another iteration is of the same round.
fn waiter_verdict(s: &Coordinator, r: usize, i: usize, packet: &[u8], h: Header) -> Verdict
    requires { Asked s.now packet.now h × (i < signer_limit) }
    ensures { result ≡ waiter_verdict s.now (share_response_in packet.now) r i }
{
    if !is_awaited(&s.records, r, i) {
        return Verdict::Unawaited;
    }
    let (got, current) = (h.ids, s.ids);
    if got.dkg_id != current.dkg_id {
        return Verdict::Wrong(16, got.dkg_id, current.dkg_id);
    }
    if got.sign_id != current.sign_id {
        return Verdict::Wrong(17, got.sign_id, current.sign_id);
    }
    shares_verdict(s, r, i, packet, h.pairs)
}

// h is the packet's header.
pub fn decide(s: Coordinator, store: &[u8], packet: &[u8], h: Header) -> Verdict
    requires { Asked s packet.now h }
    ensures { result ≡ verdict_of s store.now (share_response_in packet.now) }
{
    let found = admits::slot_of(s.config, SignerId(h.signer_id));
    match found {
        // only live signers are waited for; so whoever is has a public key (20)
        None => Verdict::Unawaited,
        Some(i) => {
            let r = timeouts::current_place(s, store);
            waiter_verdict(&s, r, i, packet, h)
        }
    }
}
