// The signature share response, kind 4.
ghost use Rattle.std.specs.Prelude.{◌≡◌, ◌&&◌, true, map, eqb, leb, length, ◌+◌, ◌*◌, ◌≤◌};
ghost use Rattle.wire.specs.Bytes.{put, joined};
ghost use Rattle.layout.specs.Limits.{list_limit};
ghost use Rattle.layout.specs.Encode.{share_bytes};
ghost use Rattle.framing.specs.Writing.{Wrote, pairs, total};
ghost use Rattle.responses.specs.Responses.{share_of, shares_given, share_length, lists_agree, write_signature_share_response};

use crate::lists;
use crate::lists::ResponseHead;
use framing::Cursor;
use layout::{HEADER_LENGTH, ID_LENGTH, LIST_LIMIT, PAIR_LENGTH, SCALAR_LENGTH, SHARE_LENGTH};

// The key ids of all shares.
#[tactic(auto, using(framing::proofs::Laws::total_sum))]
fn total_of(counts: &[u32]) -> usize
    requires { length counts.now ≤ list_limit }
    ensures { result ≡ total counts.now }
{
    counts.iter().map(|n| *n as usize).sum()
}

// Whether there is a z_i and a count for each share, as many key ids as the counts say, and all within the limits.
fn are_shares_within(shares: usize, z_i: usize, key_counts: &[u32], keys: usize) -> bool
    ensures { result ≡ (leb shares list_limit && leb keys list_limit
        && (eqb z_i (shares * 32) && eqb (length key_counts.now) shares
        && eqb (total key_counts.now) keys)) }
{
    shares <= LIST_LIMIT
        && keys <= LIST_LIMIT
        && z_i == shares * SCALAR_LENGTH
        && key_counts.len() == shares
        && total_of(key_counts) == keys
}

// The pairs of the shares, from the first on.
fn put_share_pairs(out: &mut [u8], first: Cursor, key_counts: &[u32])
    requires { (first.pair ≡ 32) × (first.at ≤ 160) × (length key_counts.now ≤ list_limit) × (total key_counts.now ≤ list_limit) }
    ensures { out.new ≡ put out.old 32 (pairs first.at (map share_length key_counts.now)) }
{
    let mut next = first;
    for n in key_counts {
        next = next.put(out, SHARE_LENGTH + *n as usize * ID_LENGTH);
    }
}

// A share: its id, its z_i, its key ids. The z_i goes through an array, whose length the compiler knows: two loads and two stores.
fn put_share(out: &mut [u8], at: usize, id: u32, z_i: &[u8], key_ids: &[u32])
    requires { (at ≤ 1048576) × (length z_i.now ≡ 32) }
    ensures { out.new ≡ put out.old at
        (share_bytes (share_of id z_i.now key_ids.now)) }
{
    let mut z = [0; SCALAR_LENGTH];
    z.copy_from_slice(z_i);
    wire::put_number(out, at, ID_LENGTH, id as u64);
    wire::copy(out, at + ID_LENGTH, &z);
    lists::put_ids(out, (at + SHARE_LENGTH) as u32, key_ids);
}

// The shares, one after the other from `at`.
fn put_shares(
    out: &mut [u8],
    at: usize,
    share_ids: &[u32],
    z_i: &[u8],
    key_counts: &[u32],
    key_ids: &[u32],
)
    requires { (at ≤ 160) × (length share_ids.now ≤ list_limit) × (length key_ids.now ≤ list_limit)
        × (lists_agree share_ids.now z_i.now key_counts.now key_ids.now ≡ true) }
    ensures { out.new ≡ put out.old at (joined (map share_bytes
        (shares_given share_ids.now z_i.now key_counts.now key_ids.now))) }
{
    let mut next = at;
    let mut keys_from: usize = 0;
    for (i, id) in share_ids.iter().enumerate() {
        let n = key_counts[i] as usize;
        let z = wire::part(z_i, i * SCALAR_LENGTH, SCALAR_LENGTH);
        put_share(out, next, *id, z, &key_ids[keys_from..keys_from + n]);
        next += SHARE_LENGTH + n * ID_LENGTH;
        keys_from += n;
    }
}

// Asked 9, then 26. Share i has the id share_ids[i], 32 bytes of z_i, and as many of the key ids, from where the last share's end, as
// key_counts[i] says.
pub fn write_signature_share_response(
    out: &mut [u8],
    head: ResponseHead,
    share_ids: &[u32],
    z_i: &[u8],
    key_counts: &[u32],
    key_ids: &[u32],
) -> Result<usize, u8>
    ensures { Wrote (write_signature_share_response (length out.old) head
        share_ids.now z_i.now key_counts.now key_ids.now)
        out.old result out.new }
{
    let count = share_ids.len();
    framing::limits(are_shares_within(count, z_i.len(), key_counts, key_ids.len()))?;
    let first = Cursor {
        pair: HEADER_LENGTH,
        at: HEADER_LENGTH + count * PAIR_LENGTH,
    };
    let end = first.at + count * SHARE_LENGTH + key_ids.len() * ID_LENGTH;
    lists::room(out, end)?;
    framing::put_header(out, head.header(4, count as u16));
    put_share_pairs(out, first, key_counts);
    put_shares(out, first.at, share_ids, z_i, key_counts, key_ids);
    Ok(end)
}
