// Where the lists lie that a job joins: for each signer whose response is held, ascending, its key ids, its nonces and its shares.
ghost use Rattle.std.specs.Prelude.{◌≡◌, ◌≤◌, ◌<◌};
ghost use Rattle.layout.specs.Limits.{signer_limit, record_limit};
ghost use Rattle.job.specs.Job.{signers_in};
ghost use Rattle.state.specs.Slots.{collect, signer_slot};
ghost use Rattle.signers.specs.Order.{ordered};
ghost use Rattle.signing_job.specs.Places.{held_shares, place_at, job_place_in};

use job::{JobPlace, JobPlaces};
use layout::{LIST_LIMIT, SIGNER_LIMIT};
use pieces::places::Place;
use signers::order;
use signers::order::Order;
use state::fields::{ResponseSlot, ShareSlot, Shares, SignRoundInfo};
use state::places::{
    KEYS_START, NONCES_START, RECORD_BYTES, RESPONSE_BYTES, SHARE_BYTES, SHARE_KEYS_START,
    SHARES_START,
};

// Shares that are not held count for nothing.
fn held_shares(slot: ShareSlot) -> ShareSlot
    ensures { result ≡ held_shares slot }
{
    if !slot.held {
        return ShareSlot {
            held: false,
            count: 0,
            key_counts: [0; LIST_LIMIT],
        };
    }
    slot
}

// Where the lists of the signer in slot i lie: key ids and nonces as its response had them, and its shares.
fn place_at(r: usize, i: usize, response: ResponseSlot, shares: ShareSlot) -> JobPlace
    requires { (r < record_limit) × (i < signer_limit) }
    ensures { result ≡ place_at r i response shares }
{
    let kept = held_shares(shares);
    let share_key_counts = kept.key_counts;
    let base = RECORD_BYTES * r + RESPONSE_BYTES * i;
    let shares_at = SHARES_START + SHARE_BYTES * i;
    JobPlace {
        key_ids: Place {
            at: base + KEYS_START,
            count: response.key_ids,
        },
        nonces: Place {
            at: base + NONCES_START,
            count: response.nonces,
        },
        shares: Place {
            at: shares_at,
            count: kept.count,
        },
        share_keys_at: shares_at + SHARE_KEYS_START,
        share_key_counts,
    }
}

// Where the signer's lists lie whose response the slot holds, if it holds one.
fn job_place_in(r: usize, row: &SignRoundInfo, shares: &Shares, slot: usize) -> Option<JobPlace>
    requires { r < record_limit }
    ensures { result ≡ job_place_in r row.now shares.now (signer_slot 0 slot) }
{
    let response = row.slots.get(slot)?;
    let share_slot = shares.slots.get(slot)?;
    if !response.held {
        return None;
    }
    Some(place_at(r, slot, *response, *share_slot))
}

// Where the lists of the record's responders lie, ascending by signer.
pub fn job_places(o: Order, r: usize, row: SignRoundInfo, shares: Shares) -> JobPlaces
    requires { r < record_limit }
    ensures { (signers_in result ≡ collect (job_place_in r row shares) (ordered o)) × (result.count ≤ signer_limit) }
{
    let none = Place { at: 0, count: 0 };
    let nowhere = JobPlace {
        key_ids: none,
        nonces: none,
        shares: none,
        share_keys_at: 0,
        share_key_counts: [0; LIST_LIMIT],
    };
    let mut places = [nowhere; SIGNER_LIMIT];
    let count = order::along(
        &o,
        |_, slot| job_place_in(r, &row, &shares, slot),
        &mut places,
    );
    JobPlaces { places, count }
}
