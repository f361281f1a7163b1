// What a writer is given. A list is a place in the source that the caller lends (the coordinator's store): where it starts, and how
// many entries it has. A place outside the source is refused with 9.
ghost use Rattle.std.specs.Prelude.{◌≡◌, ◌*◌, ◌≤◌, length, take};
ghost use Rattle.wire.specs.Bytes.{every};
ghost use Rattle.pieces.specs.Places.{bytes_at, holds, response_holds, places_of, responses_hold};

use layout::{Ids, SignerId};

#[derive(Clone, Copy)]
pub struct Place {
    pub at: usize,
    pub count: usize,
}

#[derive(Clone, Copy)]
pub struct ResponsePlace {
    pub ids: Ids,
    pub signer_id: SignerId,
    pub message: Place,
    pub key_ids: Place,
    pub nonces: Place,
}

#[derive(Clone, Copy)]
pub struct ResponsePlaces {
    pub places: [ResponsePlace; layout::SIGNER_LIMIT],
    pub count: usize,
}

#[derive(Clone, Copy)]
pub struct SignerIds {
    pub ids: [SignerId; layout::SIGNER_LIMIT],
    pub count: usize,
}

// A recorded nonce response's signer and the clock reading of its call (02, e).
#[derive(Clone, Copy)]
pub struct Arrival {
    pub signer_id: SignerId,
    pub clock: u64,
}

#[derive(Clone, Copy)]
pub struct Arrivals {
    pub arrivals: [Arrival; layout::SIGNER_LIMIT],
    pub count: usize,
}

impl Place {
    // Whether a list of at most `limit` entries of w bytes lies in a source of `size` bytes. More bytes than a usize counts lie in none.
    #[tactic(auto, unfolding(crate::specs::Places::holds))]
    pub fn is_held(self, size: usize, w: usize, limit: usize) -> bool
        ensures { result ≡ holds size w limit self }
    {
        self.count <= limit
            && self.at <= size
            && self
                .count
                .checked_mul(w)
                .is_some_and(|n| n <= size - self.at)
    }

    // The bytes of the list, whose entries have w bytes each.
    #[tactic(auto, unfolding(crate::specs::Places::bytes_at))]
    pub fn bytes(self, source: &[u8], w: usize) -> &[u8]
        requires { self.count * w ≤ length source.now }
        ensures { result.now ≡ bytes_at w self source.now }
    {
        wire::part(source, self.at, self.count * w)
    }
}

impl ResponsePlace {
    #[tactic(auto, unfolding(crate::specs::Places::response_holds))]
    fn is_held(&self, size: usize) -> bool
        ensures { result ≡ response_holds size self.now }
    {
        self.message.is_held(size, 1, layout::MESSAGE_LIMIT)
            && self
                .key_ids
                .is_held(size, layout::ID_LENGTH, layout::LIST_LIMIT)
            && self
                .nonces
                .is_held(size, layout::NONCE_LENGTH, layout::LIST_LIMIT)
    }
}

fn are_each_held(places: &[ResponsePlace], size: usize) -> bool
    ensures { result ≡ every (response_holds size) places.now }
{
    places.iter().all(|p| p.is_held(size))
}

impl ResponsePlaces {
    // The places that count.
    #[tactic(auto, unfolding(crate::specs::Places::places_of))]
    pub fn live(&self) -> &[ResponsePlace]
        ensures { result.now ≡ places_of self.now }
    {
        &self.places[..self.count.min(layout::SIGNER_LIMIT)]
    }

    // Whether they are few enough and the lists of each lie in a source of `size` bytes.
    #[tactic(auto, unfolding(crate::specs::Places::responses_hold))]
    pub fn are_held(&self, size: usize) -> bool
        ensures { result ≡ responses_hold size self.now }
    {
        self.count <= layout::SIGNER_LIMIT && are_each_held(self.live(), size)
    }
}

impl SignerIds {
    // The ids that count.
    pub fn live(&self) -> &[SignerId]
        ensures { result.now ≡ take self.now.count self.now.ids }
    {
        &self.ids[..self.count.min(layout::SIGNER_LIMIT)]
    }
}

impl Arrivals {
    // The arrivals that count.
    pub fn live(&self) -> &[Arrival]
        ensures { result.now ≡ take self.now.count self.now.arrivals }
    {
        &self.arrivals[..self.count.min(layout::SIGNER_LIMIT)]
    }
}
