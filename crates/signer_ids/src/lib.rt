// The ids of flagged signers in ascending order, as the writers take them; the signers that a record waits for as flags.
#![tactic(auto)]

ghost use Rattle.std.specs.Prelude.{◌≡◌, ◌≤◌, map};
ghost use Rattle.layout.specs.Limits.{signer_limit};
ghost use Rattle.pieces.specs.Places.{signers_of};
ghost use Rattle.state.specs.Slots.{signer_slot, collect};
ghost use Rattle.state.specs.View.{flagged_in};
ghost use Rattle.signers.specs.Order.{ordered};
ghost use Rattle.signer_ids.specs.Flags.{is_waiting, flagged_id};

use layout::{SIGNER_LIMIT, SignerId};
use pieces::places::SignerIds;
use signers::order;
use signers::order::Order;
use state::fields::{ResponseSlot, SignRoundInfo};

// The signer's id, where its slot is flagged.
fn flagged(flags: &[bool; SIGNER_LIMIT], id: u32, slot: usize) -> Option<SignerId>
    ensures { result ≡ flagged_id flags.now (signer_slot id slot) }
{
    if *flags.get(slot)? {
        Some(SignerId(id))
    } else {
        None
    }
}

// The flagged signers' ids, along the order.
pub fn flagged_ids(o: Order, flags: [bool; SIGNER_LIMIT]) -> SignerIds
    ensures { (signers_of result ≡ collect (flagged_in flags) (ordered o)) × (result.count ≤ signer_limit) }
{
    let mut ids = [SignerId(0); SIGNER_LIMIT];
    let count = order::along(&o, |id, slot| flagged(&flags, id, slot), &mut ids);
    SignerIds { ids, count }
}

// A waiter counts only where its response is held.
fn is_waiting(slot: ResponseSlot) -> bool
    ensures { result ≡ is_waiting slot }
{
    slot.held && slot.waits
}

// The record's waiters.
pub fn waiting(row: SignRoundInfo) -> [bool; SIGNER_LIMIT]
    ensures { result ≡ map is_waiting row.slots }
{
    row.slots.map(is_waiting)
}
