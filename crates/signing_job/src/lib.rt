// The aggregator's job (kind 32) of a record, written from struct and store when the last waiter's shares are recorded; the mark beside
// it, and whether a record has a waiter left.
#![tactic(auto)]

ghost use Rattle.std.specs.Prelude.{◌≡◌, length};
ghost use Rattle.framing.specs.Writing.{Wrote, written};
ghost use Rattle.signing_job.specs.SigningJob.{JobReady, job_bytes, job_mark};

use body::RequestHead;
use layout::SignatureType;
use signers::order;
use state::fields::Coordinator;

pub mod keys;
pub mod places;
pub mod waiters;
pub mod whole;

// What became of the answer buffer, and whether the job is whole.
#[derive(Clone, Copy)]
pub struct SigningJob {
    pub written: Result<usize, u8>,
    pub whole: bool,
}

pub fn write_signing_job(
    s: Coordinator,
    store: &[u8],
    out: &mut [u8],
    r: usize,
    message: &[u8],
    signature_type: SignatureType,
) -> SigningJob
    requires { JobReady s r (length store.now) (length message.now) (length out.old) }
    ensures { Wrote (written (job_bytes s store.now r message.now signature_type))
        out.old result.written out.new
        × (result.whole ≡ job_mark s store.now r) }
{
    let config = s.config;
    let walked = order::ascending(config);
    let records = s.records;
    let row = records.rows[r];
    let shares = s.shares;
    let ps = places::job_places(walked, r, row, shares);
    let mark = whole::is_whole(walked, store, r, row, shares);
    let position = s.position;
    let root = position.root;
    let ids = s.ids;
    let head = RequestHead {
        ids,
        signature_type,
        root,
    };
    let written = job::write_job(out, head, message, store, ps);
    SigningJob {
        written,
        whole: mark,
    }
}
