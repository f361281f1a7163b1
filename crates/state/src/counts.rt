// Question 4: "its counts within these limits". Live counts only.
ghost use Rattle.std.specs.Prelude.{◌≡◌, true, map, ◌≤◌, take};
ghost use Rattle.wire.specs.Bytes.{every};
ghost use Rattle.layout.specs.Limits.{list_limit};
ghost use Rattle.state.specs.Counts.{sum, entries, entry_within, key_count, config_within};
ghost use Rattle.state.specs.Counts.{slot_within, row_within_limits, records_within, shares_within, is_within_limits};

use crate::fields::{
    Config, Coordinator, Records, ResponseSlot, ShareSlot, Shares, SignRoundInfo, SignerEntry,
};
use layout::{LIST_LIMIT, MESSAGE_LIMIT, RECORD_LIMIT, SIGNER_LIMIT};

#[tactic(auto, unfolding(crate::specs::Counts::entry_within))]
fn is_entry_within(e: &SignerEntry) -> bool
    ensures { result ≡ entry_within e.now }
{
    !e.has_keys || e.keys.count <= LIST_LIMIT
}

#[tactic(auto, unfolding(crate::specs::Counts::key_count))]
fn key_count(e: &SignerEntry) -> usize
    ensures { result ≡ key_count e.now }
{
    if e.has_keys { e.keys.count } else { 0 }
}

fn are_entries_within(g: &Config) -> bool
    ensures { result ≡ every entry_within (entries g.now) }
{
    g.entries().iter().all(is_entry_within)
}

// The set sizes of the signers, summed.
fn key_total(g: &Config) -> usize
    requires { every entry_within (entries g.now) ≡ true }
    ensures { result ≡ sum (map key_count (entries g.now)) }
{
    let mut total = 0;
    for e in g.entries() {
        total += key_count(e);
    }
    total
}

#[tactic(auto, unfolding(crate::specs::Counts::config_within))]
fn is_config_within(g: &Config) -> bool
    ensures { result ≡ config_within g.now }
{
    g.count <= SIGNER_LIMIT && are_entries_within(g) && key_total(g) <= g.num_keys as usize
}

#[tactic(auto, unfolding(crate::specs::Counts::slot_within))]
fn is_slot_within(s: &ResponseSlot) -> bool
    ensures { result ≡ slot_within s.now }
{
    !s.held || (s.key_ids <= LIST_LIMIT && s.nonces <= LIST_LIMIT)
}

// Of the first n signers.
fn are_slots_within(n: usize, row: &SignRoundInfo) -> bool
    ensures { result ≡ every slot_within (take n row.now.slots) }
{
    row.slots.iter().take(n).all(is_slot_within)
}

#[tactic(auto, unfolding(crate::specs::Counts::row_within_limits))]
fn is_row_within(n: usize, row: &SignRoundInfo) -> bool
    ensures { result ≡ row_within_limits n row.now }
{
    row.message <= MESSAGE_LIMIT && are_slots_within(n, row)
}

fn are_rows_within(n: usize, records: &Records) -> bool
    ensures { result ≡ every (row_within_limits n) (take records.now.count records.now.rows) }
{
    records.live().iter().all(|row| is_row_within(n, row))
}

#[tactic(auto, unfolding(crate::specs::Counts::records_within))]
fn are_records_within(n: usize, records: &Records) -> bool
    ensures { result ≡ records_within n records.now }
{
    records.count <= RECORD_LIMIT && are_rows_within(n, records)
}

// The key ids of a signer's shares, counted.
fn share_keys(s: &ShareSlot) -> usize
    ensures { result ≡ sum (take s.now.count s.now.key_counts) }
{
    let mut total = 0;
    for n in s.live() {
        total += *n as usize;
    }
    total
}

#[tactic(auto, unfolding(crate::specs::Counts::shares_within))]
fn is_share_slot_within(s: &ShareSlot) -> bool
    ensures { result ≡ shares_within s.now }
{
    !s.held || (s.count <= LIST_LIMIT && share_keys(s) <= LIST_LIMIT)
}

fn are_shares_within(n: usize, shares: &Shares) -> bool
    ensures { result ≡ every shares_within (take n shares.now.slots) }
{
    shares.slots.iter().take(n).all(is_share_slot_within)
}

// "its counts within these limits (4)?"
#[tactic(auto, unfolding(crate::specs::Counts::is_within_limits))]
pub fn is_within(s: &Coordinator) -> bool
    ensures { result ≡ is_within_limits s.now }
{
    is_config_within(&s.config)
        && s.message.len <= MESSAGE_LIMIT
        && are_records_within(s.config.count, &s.records)
        && are_shares_within(s.config.count, &s.shares)
}
