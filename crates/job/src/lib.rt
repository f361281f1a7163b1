// The job writer: kind 32, what the aggregator is given when the last waiter's shares are recorded. Each signer's lists lie in a
// source that the caller lends (the coordinator's store); the caller gives the signers in ascending order.
#![tactic(auto)]

ghost use Rattle.std.specs.Prelude.{◌≡◌, true, ℕ, [], ◌∷◌, ◌++◌, map, ◌+◌, ◌*◌, ◌≤◌, length, take, drop};
ghost use Rattle.wire.specs.Bytes.{every, put, joined};
ghost use Rattle.layout.specs.Limits.{message_limit, list_limit};
ghost use Rattle.layout.specs.Types.{type_number};
ghost use Rattle.layout.specs.Encode.{header_bytes, header_of, share_bytes};
ghost use Rattle.framing.specs.Writing.{Wrote, pairs, total};
ghost use Rattle.body.specs.Body.{root_of};
ghost use Rattle.job.specs.declared.JobList.TheVariants.{KeyIds, Nonces};
ghost use Rattle.job.specs.Job.{key_counts, share_keys_of, job_holds, jobs_hold, signers_in, shares_at_place, shares_of, write_job};
ghost use Rattle.job.specs.Job.{list_of, width, list_length, list_bytes, share_lengths};

use body::RequestHead;
use framing::Cursor;
use layout::{HEADER_LENGTH, ID_LENGTH, LIST_LIMIT, NONCE_LENGTH, PAIR_LENGTH, SHARE_LENGTH};
use pieces::places::Place;

// The bytes of the header and of the pairs of message, root, key ids and nonces.
const FRAME_LENGTH: usize = 64;

// Where a signer's lists lie: key ids (4 bytes each), nonces (66), shares (36: id and z_i), and the shares' key ids one after the
// other, so many for each share.
#[derive(Clone, Copy)]
pub struct JobPlace {
    pub key_ids: Place,
    pub nonces: Place,
    pub shares: Place,
    pub share_keys_at: usize,
    pub share_key_counts: [u8; layout::LIST_LIMIT],
}

#[derive(Clone, Copy)]
pub struct JobPlaces {
    pub places: [JobPlace; layout::SIGNER_LIMIT],
    pub count: usize,
}

// A list that is joined over the signers. An enum and no closure, since the contracts and the laws of the lists name a list by it.
#[derive(Clone, Copy)]
pub enum JobList {
    KeyIds,
    Nonces,
}

// The lengths of the joined lists, and the number of shares.
#[derive(Clone, Copy)]
pub struct Totals {
    pub keys: usize,
    pub nonces: usize,
    pub shares: usize,
}

impl JobPlace {
    // The key ids of each share, counted.
    #[tactic(auto, unfolding(crate::specs::Job::key_counts))]
    fn counts(&self) -> &[u8]
        ensures { (result.now ≡ key_counts self.now) × (length result.now ≤ list_limit) }
    {
        &self.share_key_counts[..self.shares.count.min(LIST_LIMIT)]
    }

    // The place of the shares' key ids, as many as the counts say.
    #[tactic(auto, unfolding(crate::specs::Job::share_keys_of), using(framing::proofs::Laws::total_sum))]
    fn share_keys(&self) -> Place
        ensures { result ≡ share_keys_of self.now }
    {
        Place {
            at: self.share_keys_at,
            count: self.counts().iter().map(|n| *n as usize).sum(),
        }
    }

    #[tactic(auto, unfolding(crate::specs::Job::job_holds))]
    fn is_held(&self, size: usize) -> bool
        ensures { result ≡ job_holds size self.now }
    {
        self.key_ids.is_held(size, ID_LENGTH, LIST_LIMIT)
            && self.nonces.is_held(size, NONCE_LENGTH, LIST_LIMIT)
            && self.shares.is_held(size, SHARE_LENGTH, LIST_LIMIT)
            && self.share_keys().is_held(size, ID_LENGTH, LIST_LIMIT)
    }
}

fn are_each_held(places: &[JobPlace], size: usize) -> bool
    ensures { result ≡ every (job_holds size) places.now }
{
    places.iter().all(|p| p.is_held(size))
}

impl JobPlaces {
    // The signers that count.
    #[tactic(auto, unfolding(crate::specs::Job::signers_in))]
    fn live(&self) -> &[JobPlace]
        ensures { result.now ≡ signers_in self.now }
    {
        &self.places[..self.count.min(layout::SIGNER_LIMIT)]
    }

    // Whether they are few enough and the lists of each lie in a source of `size` bytes.
    #[tactic(auto, unfolding(crate::specs::Job::jobs_hold))]
    pub fn are_held(&self, size: usize) -> bool
        ensures { result ≡ jobs_hold size self.now }
    {
        self.count <= layout::SIGNER_LIMIT && are_each_held(self.live(), size)
    }

    // The totals of the signers' lists.
    fn totals(&self) -> Totals
        requires { (size : ℕ) × (jobs_hold size self.now ≡ true) }
        ensures { (result.keys ≡ total (map (list_length KeyIds) (signers_in self.now)))
            × (result.nonces ≡ total (map (list_length Nonces) (signers_in self.now)))
            × (result.shares ≡ length (joined (map share_lengths (signers_in self.now)))) }
    {
        let mut t = Totals {
            keys: 0,
            nonces: 0,
            shares: 0,
        };
        for p in self.live() {
            t.keys += p.key_ids.count * ID_LENGTH;
            t.nonces += p.nonces.count * NONCE_LENGTH;
            t.shares += p.counts().len();
        }
        t
    }
}

impl JobList {
    fn width(self) -> usize
        ensures { result ≡ width self }
    {
        match self {
            JobList::KeyIds => ID_LENGTH,
            JobList::Nonces => NONCE_LENGTH,
        }
    }

    fn place(self, p: &JobPlace) -> Place
        ensures { result ≡ list_of self p.now }
    {
        match self {
            JobList::KeyIds => p.key_ids,
            JobList::Nonces => p.nonces,
        }
    }
}

// The header and the first four pairs; the next pair's place, and where the first share begins.
fn put_job_frame(out: &mut [u8], head: &RequestHead, len: usize, t: Totals) -> Cursor
    requires { (len ≤ message_limit) × (t.keys ≤ 640) × (t.nonces ≤ 10560) × (t.shares ≤ 160) }
    ensures { (result.pair ≡ 64) × (result.at ≡ 64 + 8 * t.shares + len + length (root_of head.now) + t.keys + t.nonces)
        × (out.new ≡ put out.old 0
        (header_bytes (header_of 32 (type_number head.now.signature_type) (4 + t.shares) 0 head.now.ids)
        ++ pairs (64 + 8 * t.shares) (len ∷ (length (root_of head.now) ∷ (t.keys ∷ (t.nonces ∷ [])))))) }
{
    let first = Cursor {
        pair: HEADER_LENGTH,
        at: FRAME_LENGTH + PAIR_LENGTH * t.shares,
    };
    framing::put_header(out, head.header(32, 4 + t.shares as u16));
    let lists = first.put(out, len).put(out, head.root().len());
    lists.put(out, t.keys).put(out, t.nonces)
}

// The pairs of one signer's shares.
fn put_share_pairs(out: &mut [u8], first: Cursor, p: &JobPlace) -> Cursor
    requires { (first.pair ≤ 65536) × (first.at ≤ 1048576) × ((size : ℕ) × (job_holds size p.now ≡ true)) }
    ensures { (result.pair ≡ first.pair + 8 * length (share_lengths p.now)) × (result.at ≡ first.at + total (share_lengths p.now))
        × (out.new ≡ put out.old first.pair (pairs first.at (share_lengths p.now))) }
{
    let mut next = first;
    for n in p.counts() {
        next = next.put(out, SHARE_LENGTH + *n as usize * ID_LENGTH);
    }
    next
}

// The pairs of all signers' shares. Answers where the packet ends.
fn put_all_share_pairs(out: &mut [u8], first: Cursor, ps: &JobPlaces) -> usize
    requires { (first.pair ≡ 64) × (first.at ≤ 13000) × ((size : ℕ) × (jobs_hold size ps.now ≡ true)) }
    ensures { (result ≡ first.at + total (joined (map share_lengths (signers_in ps.now))))
        × (out.new ≡ put out.old first.pair (pairs first.at (joined (map share_lengths (signers_in ps.now))))) }
{
    let mut next = first;
    for p in ps.live() {
        next = put_share_pairs(out, next, p);
    }
    next.at
}

// A list of every signer, joined from `at` on.
fn put_lists(out: &mut [u8], at: usize, list: JobList, source: &[u8], ps: &JobPlaces)
    requires { (at ≤ 13000) × (jobs_hold (length source.now) ps.now ≡ true) }
    ensures { out.new ≡ put out.old at (joined (map (list_bytes list source.now) (signers_in ps.now))) }
{
    let mut next = at;
    for p in ps.live() {
        let bytes = list.place(p).bytes(source, list.width());
        wire::copy(out, next, bytes);
        next += bytes.len();
    }
}

// One share: id and z_i, then its key ids.
fn put_share(
    out: &mut [u8],
    at: usize,
    source: &[u8],
    share_at: usize,
    keys_at: usize,
    count: usize,
)
    requires { (at ≤ 1048576) × (count ≤ 255) × (share_at + 36 ≤ length source.now) }
    ensures { out.new ≡ put out.old at
        (take 36 (drop share_at source.now) ++ take (count * 4) (drop keys_at source.now)) }
{
    wire::copy(out, at, wire::part(source, share_at, SHARE_LENGTH));
    wire::copy(
        out,
        at + SHARE_LENGTH,
        wire::part(source, keys_at, count * ID_LENGTH),
    );
}

// One signer's shares, one after the other from `at`. Answers where they end.
fn put_shares(out: &mut [u8], at: usize, source: &[u8], p: &JobPlace) -> usize
    requires { (at ≤ 1000000) × (job_holds (length source.now) p.now ≡ true) }
    ensures { (result ≡ at + total (share_lengths p.now))
        × (out.new ≡ put out.old at (joined (map share_bytes (shares_at_place source.now p.now)))) }
{
    let mut next = at;
    let mut share_at = p.shares.at;
    let mut keys_at = p.share_keys_at;
    for n in p.counts() {
        let count = *n as usize;
        put_share(out, next, source, share_at, keys_at, count);
        share_at += SHARE_LENGTH;
        keys_at += count * ID_LENGTH;
        next += SHARE_LENGTH + count * ID_LENGTH;
    }
    next
}

// All signers' shares.
fn put_all_shares(out: &mut [u8], at: usize, source: &[u8], ps: &JobPlaces)
    requires { (at ≤ 13000) × (jobs_hold (length source.now) ps.now ≡ true) }
    ensures { out.new ≡ put out.old at
        (joined (map share_bytes (shares_of source.now (signers_in ps.now)))) }
{
    let mut next = at;
    for p in ps.live() {
        next = put_shares(out, next, source, p);
    }
}

// Kind 32.
pub fn write_job(
    out: &mut [u8],
    head: RequestHead,
    message: &[u8],
    source: &[u8],
    ps: JobPlaces,
) -> Result<usize, u8>
    ensures { Wrote (write_job (length out.old) head message.now source.now ps)
        out.old result out.new }
{
    framing::room(out)?;
    framing::limits(message.len() <= layout::MESSAGE_LIMIT)?;
    framing::limits(ps.are_held(source.len()))?;
    let t = ps.totals();
    let shares = put_job_frame(out, &head, message.len(), t);
    let end = put_all_share_pairs(out, shares, &ps);
    body::put_body(out, FRAME_LENGTH + PAIR_LENGTH * t.shares, &head, message);
    let nonces_at = shares.at - t.nonces;
    put_lists(out, nonces_at - t.keys, JobList::KeyIds, source, &ps);
    put_lists(out, nonces_at, JobList::Nonces, source, &ps);
    put_all_shares(out, shares.at, source, &ps);
    Ok(end)
}
