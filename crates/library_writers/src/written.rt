// Bench's writers, each over plain numbers. A signature type above 3 is refused with 8, before 7 and 9.
ghost use Rattle.std.specs.Prelude.{◌≡◌, length};
ghost use Rattle.layout.specs.Messages.{nonce_request, dkg_begin, dkg_signer, dkg_coordinator};
ghost use Rattle.framing.specs.Writing.{write_message};
ghost use Rattle.body.specs.Body.{request_of};
ghost use Rattle.requests.specs.Requests.{write_share_request};
ghost use Rattle.writer.specs.Results.{write_nonce_timeout, write_insufficient_signers, write_arrivals};
ghost use Rattle.job.specs.Job.{write_job};
ghost use Rattle.library_writers.specs.Given.{head_of, signers_given, arrivals_given, responses_of, job_places_of};
ghost use Rattle.library_writers.specs.Written.{plain, typed, WrotePlain};

use crate::given::{RcArrivals, RcHead, RcJobPlaces, RcResponses, RcSignerIds};
use body::RequestHead;
use job::JobPlaces;
use layout::SignerId;
use pieces::places::{Arrivals, ResponsePlaces, SignerIds};
use writer::{dkg, results};

// refusal: 0, or 01's number, and then nothing was written.
#[repr(C)]
#[derive(Clone, Copy)]
pub struct RcWritten {
    pub refusal: u32,
    pub reserved: u32,
    pub length: u64,
}

// The last type, Taproot with a root, by number.
const LAST_TYPE: u8 = 3;

impl From<Result<usize, u8>> for RcWritten {
    ghost from_gives = { λ w r. r ≡ plain w };

    fn from(w: Result<usize, u8>) -> RcWritten {
        match w {
            Ok(n) => RcWritten {
                refusal: 0,
                reserved: 0,
                length: n as u64,
            },
            Err(n) => RcWritten {
                refusal: n as u32,
                reserved: 0,
                length: 0,
            },
        }
    }
}

pub fn write_nonce_request(out: &mut [u8], given: RcHead, message: &[u8]) -> RcWritten
    ensures { WrotePlain (typed given.signature_type
        (write_message (length out.old) (nonce_request (request_of (head_of given) message.now))))
        out.old result out.new }
{
    if LAST_TYPE < given.signature_type {
        return RcWritten::from(Err(8));
    }
    let head = RequestHead::from(given);
    RcWritten::from(requests::write_nonce_request(out, head, message))
}

pub fn write_signature_share_request(
    out: &mut [u8],
    given: RcHead,
    message: &[u8],
    source: &[u8],
    places: RcResponses,
) -> RcWritten
    ensures { WrotePlain (typed given.signature_type
        (write_share_request (length out.old) (head_of given) message.now source.now (responses_of places)))
        out.old result out.new }
{
    if LAST_TYPE < given.signature_type {
        return RcWritten::from(Err(8));
    }
    let head = RequestHead::from(given);
    let ps = ResponsePlaces::from(places);
    RcWritten::from(requests::write_signature_share_request(out, head, message, source, ps))
}

pub fn write_job(
    out: &mut [u8],
    given: RcHead,
    message: &[u8],
    source: &[u8],
    places: RcJobPlaces,
) -> RcWritten
    ensures { WrotePlain (typed given.signature_type
        (write_job (length out.old) (head_of given) message.now source.now (job_places_of places)))
        out.old result out.new }
{
    if LAST_TYPE < given.signature_type {
        return RcWritten::from(Err(8));
    }
    let head = RequestHead::from(given);
    let ps = JobPlaces::from(places);
    RcWritten::from(job::write_job(out, head, message, source, ps))
}

pub fn write_dkg_begin(out: &mut [u8], dkg_id: u64) -> RcWritten
    ensures { WrotePlain (write_message (length out.old) (dkg_begin dkg_id))
        out.old result out.new }
{
    RcWritten::from(dkg::write_dkg_begin(out, dkg_id))
}

pub fn write_dkg_signer(out: &mut [u8], signer_id: u32, dkg_id: u64) -> RcWritten
    ensures { WrotePlain (write_message (length out.old) (dkg_signer signer_id dkg_id))
        out.old result out.new }
{
    RcWritten::from(dkg::write_dkg_signer(out, SignerId(signer_id), dkg_id))
}

pub fn write_dkg_coordinator(out: &mut [u8], dkg_id: u64) -> RcWritten
    ensures { WrotePlain (write_message (length out.old) (dkg_coordinator dkg_id))
        out.old result out.new }
{
    RcWritten::from(dkg::write_dkg_coordinator(out, dkg_id))
}

pub fn write_nonce_timeout(
    out: &mut [u8],
    waiters: RcSignerIds,
    malicious: RcSignerIds,
) -> RcWritten
    ensures { WrotePlain (write_nonce_timeout (length out.old) (signers_given waiters) (signers_given malicious))
        out.old result out.new }
{
    let waiters = SignerIds::from(waiters);
    let malicious = SignerIds::from(malicious);
    RcWritten::from(results::write_nonce_timeout(out, waiters, malicious))
}

pub fn write_insufficient_signers(out: &mut [u8], malicious: RcSignerIds) -> RcWritten
    ensures { WrotePlain (write_insufficient_signers (length out.old) (signers_given malicious))
        out.old result out.new }
{
    RcWritten::from(results::write_insufficient_signers(out, SignerIds::from(malicious)))
}

pub fn write_arrivals(out: &mut [u8], given: RcArrivals) -> RcWritten
    ensures { WrotePlain (write_arrivals (length out.old) (arrivals_given given))
        out.old result out.new }
{
    RcWritten::from(results::write_arrivals(out, Arrivals::from(given)))
}
