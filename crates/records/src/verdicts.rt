// What is to be done with a nonce response: decided without a change.
ghost use Rattle.std.specs.Prelude.{◌≡◌, ◌≤◌, ◌<◌};
ghost use Rattle.layout.specs.Limits.{signer_limit, record_limit};
ghost use Rattle.records.specs.Records.{Placed};
ghost use Rattle.records.specs.Verdicts.{held_at, verdict_on, verdict_at, verdict_of, VerdictReady};

use crate::{admits, records};
use layout::{Ids, RECORD_LIMIT, SignerId};
use state::fields::{Coordinator, Records};

#[derive(Clone, Copy)]
pub enum Verdict {
    // 16 to 18, with what was got and what was expected
    Wrong(u32, u64, u64),
    // 19
    Full,
    Nothing,
    // the record and the signer's slot
    Record(usize, usize),
}

#[tactic(auto, unfolding(crate::specs::Verdicts::held_at))]
fn is_held_at(rs: &Records, r: usize, i: usize) -> bool
    requires { Placed rs.now r i }
    ensures { result ≡ held_at rs.now r i }
{
    r < rs.count && rs.rows[r].slots[i].held
}

#[tactic(auto, unfolding(crate::specs::Verdicts::verdict_on))]
fn verdict_on(rs: &Records, r: usize, i: usize) -> Verdict
    requires { (rs.now.count ≤ record_limit) × (i < signer_limit) }
    ensures { result ≡ verdict_on rs.now r i }
{
    if RECORD_LIMIT <= r {
        Verdict::Full
    } else if is_held_at(rs, r, i) {
        Verdict::Nothing
    } else {
        Verdict::Record(r, i)
    }
}

#[tactic(auto, unfolding(crate::specs::Verdicts::verdict_at))]
fn verdict_at(
    s: &Coordinator,
    store: &[u8],
    i: usize,
    message: &[u8],
    key_ids: &[u8],
    nonces: &[u8],
) -> Verdict
    requires { VerdictReady s.now key_ids.now × (i < signer_limit) }
    ensures { result ≡ verdict_at s.now store.now message.now key_ids.now nonces.now i }
{
    if !admits::is_admitted(s, i, key_ids, nonces) {
        return Verdict::Nothing;
    }
    verdict_on(&s.records, records::place(s.records, store, message), i)
}

// 16, 17 and 18, then the silent tests, then 19.
pub fn decide(
    s: Coordinator,
    store: &[u8],
    got: Ids,
    id: SignerId,
    message: &[u8],
    key_ids: &[u8],
    nonces: &[u8],
) -> Verdict
    requires { VerdictReady s key_ids.now }
    ensures { result
        ≡ verdict_of s got id.0 store.now message.now key_ids.now nonces.now }
{
    if got.dkg_id != s.ids.dkg_id {
        return Verdict::Wrong(16, got.dkg_id, s.ids.dkg_id);
    }
    if got.sign_id != s.ids.sign_id {
        return Verdict::Wrong(17, got.sign_id, s.ids.sign_id);
    }
    if got.sign_iter_id != s.ids.sign_iter_id {
        return Verdict::Wrong(18, got.sign_iter_id, s.ids.sign_iter_id);
    }
    match admits::slot_of(s.config, id) {
        None => Verdict::Nothing,
        Some(i) => verdict_at(&s, store, i, message, key_ids, nonces),
    }
}
