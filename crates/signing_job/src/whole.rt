// The mark beside a job: whether every responder's shares are held and no key id occurs twice in the joined list.
ghost use Rattle.std.specs.Prelude.{◌≡◌, ◌&&◌, length};
ghost use Rattle.wire.specs.Bytes.{every};
ghost use Rattle.step_definition.specs.Ids.{distinct};
ghost use Rattle.step_definition.specs.Effects.{joined_keys};
ghost use Rattle.signers.specs.Order.{ordered};
ghost use Rattle.signing_job.specs.SigningJob.{responses, shares_are_held};
ghost use Rattle.signing_job.specs.SentKeys.{Listed};

use crate::keys;
use signers::order::Order;
use state::fields::{Shares, SignRoundInfo, SignerSlot};

// Nothing is asked of a signer without a response.
#[tactic(auto, unfolding(crate::specs::SigningJob::shares_are_held))]
fn shares_are_held(row: &SignRoundInfo, shares: &Shares, e: SignerSlot) -> bool
    ensures { result ≡ shares_are_held row.now.slots shares.now.slots e }
{
    let Some(response) = row.slots.get(e.slot) else {
        return true;
    };
    !response.held || shares.slots[e.slot].held
}

// Along the order, so that of equal ids only the first slot counts.
fn all_shares_held(o: &Order, row: &SignRoundInfo, shares: &Shares) -> bool
    ensures { result ≡ every (shares_are_held row.now.slots shares.now.slots) (ordered o.now) }
{
    o.live().iter().all(|e| shares_are_held(row, shares, *e))
}

// Of the signers in order and a record, with the shares held.
pub fn is_whole(o: Order, source: &[u8], r: usize, row: SignRoundInfo, shares: Shares) -> bool
    requires { Listed o (length source.now) r row }
    ensures { result ≡ (every (shares_are_held row.slots shares.slots) (ordered o)
        && distinct (joined_keys (responses (ordered o) source.now r row))) }
{
    all_shares_held(&o, &row, &shares) && keys::none_twice(o, source, r, row)
}
