// What a host gives a writer, as plain numbers. An array has the limit's places; its count may say more, which is refused with 9.
ghost use Rattle.std.specs.Prelude.{◌≡◌, map};
ghost use Rattle.library_writers.specs.Given.{head_of, response_head_of, signer_id_of, signers_given, place_of, response_of, responses_of, job_place_of, job_places_of};
ghost use Rattle.library_writers.specs.Given.{arrival_given, arrivals_given};

use body::RequestHead;
use job::{JobPlace, JobPlaces};
use layout::{Ids, LIST_LIMIT, ROOT_LENGTH, SIGNER_LIMIT, SignerId};
use pieces::places::{Arrival, Arrivals, Place, ResponsePlace, ResponsePlaces, SignerIds};
use responses::lists::ResponseHead;

// Ids, type and root of a request or a job. The root counts where the type is 3.
#[repr(C)]
#[derive(Clone, Copy)]
pub struct RcHead {
    pub dkg_id: u64,
    pub sign_id: u64,
    pub sign_iter_id: u64,
    pub signature_type: u8,
    pub reserved: [u8; 7],
    pub root: [u8; ROOT_LENGTH],
}

// Who responds, and to which request.
#[repr(C)]
#[derive(Clone, Copy)]
pub struct RcResponseHead {
    pub dkg_id: u64,
    pub sign_id: u64,
    pub sign_iter_id: u64,
    pub signer_id: u32,
    pub reserved: u32,
}

// The first `count` of the ids.
#[repr(C)]
#[derive(Clone, Copy)]
pub struct RcSignerIds {
    pub ids: [u32; SIGNER_LIMIT],
    pub count: u64,
}

// A signer, and when it answered.
#[repr(C)]
#[derive(Clone, Copy)]
pub struct RcArrival {
    pub signer_id: u32,
    pub reserved: u32,
    pub clock: u64,
}

// The first `count` of the arrivals.
#[repr(C)]
#[derive(Clone, Copy)]
pub struct RcArrivals {
    pub arrivals: [RcArrival; SIGNER_LIMIT],
    pub count: u64,
}

// A list in the source: where it begins, and how many entries it has.
#[repr(C)]
#[derive(Clone, Copy)]
pub struct RcPlace {
    pub at: u64,
    pub count: u64,
}

#[repr(C)]
#[derive(Clone, Copy)]
pub struct RcResponse {
    pub dkg_id: u64,
    pub sign_id: u64,
    pub sign_iter_id: u64,
    pub signer_id: u32,
    pub reserved: u32,
    pub message: RcPlace,
    pub key_ids: RcPlace,
    pub nonces: RcPlace,
}

#[repr(C)]
#[derive(Clone, Copy)]
pub struct RcResponses {
    pub places: [RcResponse; SIGNER_LIMIT],
    pub count: u64,
}

// The shares' key ids lie one after the other from share_keys_at, so many for each share.
#[repr(C)]
#[derive(Clone, Copy)]
pub struct RcJobPlace {
    pub key_ids: RcPlace,
    pub nonces: RcPlace,
    pub shares: RcPlace,
    pub share_keys_at: u64,
    pub share_key_counts: [u8; LIST_LIMIT],
}

#[repr(C)]
#[derive(Clone, Copy)]
pub struct RcJobPlaces {
    pub places: [RcJobPlace; SIGNER_LIMIT],
    pub count: u64,
}

impl From<RcHead> for RequestHead {
    ghost from_gives = { λ h r. r ≡ head_of h };

    #[tactic(auto, unfolding(crate::specs::Given::head_of))]
    fn from(h: RcHead) -> RequestHead {
        // An array's field goes into a literal by a variable: the borrow checker covers no shorter form.
        let root = h.root;
        RequestHead {
            ids: Ids {
                dkg_id: h.dkg_id,
                sign_id: h.sign_id,
                sign_iter_id: h.sign_iter_id,
            },
            signature_type: layout::signature_type(h.signature_type),
            root,
        }
    }
}

impl From<RcResponseHead> for ResponseHead {
    ghost from_gives = { λ given r. r ≡ response_head_of given };

    #[tactic(auto, unfolding(crate::specs::Given::response_head_of))]
    fn from(given: RcResponseHead) -> ResponseHead {
        ResponseHead {
            ids: Ids {
                dkg_id: given.dkg_id,
                sign_id: given.sign_id,
                sign_iter_id: given.sign_iter_id,
            },
            signer_id: SignerId(given.signer_id),
        }
    }
}

fn each_id(given: [u32; SIGNER_LIMIT]) -> [SignerId; SIGNER_LIMIT]
    ensures { result ≡ map signer_id_of given }
{
    given.map(|n| SignerId(n))
}

impl From<RcSignerIds> for SignerIds {
    ghost from_gives = { λ given r. r ≡ signers_given given };

    #[tactic(auto, unfolding(crate::specs::Given::signers_given))]
    fn from(given: RcSignerIds) -> SignerIds {
        let ids = each_id(given.ids);
        SignerIds {
            ids,
            count: given.count as usize,
        }
    }
}

impl From<RcArrival> for Arrival {
    ghost from_gives = { λ a r. r ≡ arrival_given a };

    #[tactic(auto, unfolding(crate::specs::Given::arrival_given))]
    fn from(a: RcArrival) -> Arrival {
        Arrival {
            signer_id: SignerId(a.signer_id),
            clock: a.clock,
        }
    }
}

fn each_arrival(given: [RcArrival; SIGNER_LIMIT]) -> [Arrival; SIGNER_LIMIT]
    ensures { result ≡ map arrival_given given }
{
    given.map(|a| Arrival::from(a))
}

impl From<RcArrivals> for Arrivals {
    ghost from_gives = { λ given r. r ≡ arrivals_given given };

    #[tactic(auto, unfolding(crate::specs::Given::arrivals_given))]
    fn from(given: RcArrivals) -> Arrivals {
        let arrivals = each_arrival(given.arrivals);
        Arrivals {
            arrivals,
            count: given.count as usize,
        }
    }
}

impl From<RcPlace> for Place {
    ghost from_gives = { λ p r. r ≡ place_of p };

    #[tactic(auto, unfolding(crate::specs::Given::place_of))]
    fn from(p: RcPlace) -> Place {
        Place {
            at: p.at as usize,
            count: p.count as usize,
        }
    }
}

impl From<RcResponse> for ResponsePlace {
    ghost from_gives = { λ p r. r ≡ response_of p };

    #[tactic(auto, unfolding(crate::specs::Given::response_of))]
    fn from(p: RcResponse) -> ResponsePlace {
        ResponsePlace {
            ids: Ids {
                dkg_id: p.dkg_id,
                sign_id: p.sign_id,
                sign_iter_id: p.sign_iter_id,
            },
            signer_id: SignerId(p.signer_id),
            message: Place::from(p.message),
            key_ids: Place::from(p.key_ids),
            nonces: Place::from(p.nonces),
        }
    }
}

fn each_response(given: [RcResponse; SIGNER_LIMIT]) -> [ResponsePlace; SIGNER_LIMIT]
    ensures { result ≡ map response_of given }
{
    given.map(|p| ResponsePlace::from(p))
}

impl From<RcResponses> for ResponsePlaces {
    ghost from_gives = { λ given r. r ≡ responses_of given };

    #[tactic(auto, unfolding(crate::specs::Given::responses_of))]
    fn from(given: RcResponses) -> ResponsePlaces {
        let places = each_response(given.places);
        ResponsePlaces {
            places,
            count: given.count as usize,
        }
    }
}

impl From<RcJobPlace> for JobPlace {
    ghost from_gives = { λ p r. r ≡ job_place_of p };

    #[tactic(auto, unfolding(crate::specs::Given::job_place_of))]
    fn from(p: RcJobPlace) -> JobPlace {
        // By a variable, as the root above.
        let share_key_counts = p.share_key_counts;
        JobPlace {
            key_ids: Place::from(p.key_ids),
            nonces: Place::from(p.nonces),
            shares: Place::from(p.shares),
            share_keys_at: p.share_keys_at as usize,
            share_key_counts,
        }
    }
}

fn each_job_place(given: [RcJobPlace; SIGNER_LIMIT]) -> [JobPlace; SIGNER_LIMIT]
    ensures { result ≡ map job_place_of given }
{
    given.map(|p| JobPlace::from(p))
}

impl From<RcJobPlaces> for JobPlaces {
    ghost from_gives = { λ given r. r ≡ job_places_of given };

    #[tactic(auto, unfolding(crate::specs::Given::job_places_of))]
    fn from(given: RcJobPlaces) -> JobPlaces {
        let places = each_job_place(given.places);
        JobPlaces {
            places,
            count: given.count as usize,
        }
    }
}
