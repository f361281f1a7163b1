// The arrivals of a record's responses, along the signers in ascending order.
ghost use Rattle.std.specs.Prelude.{◌≡◌, ◌≤◌, []};
ghost use Rattle.layout.specs.Limits.{signer_limit};
ghost use Rattle.pieces.specs.Places.{arrivals_of};
ghost use Rattle.state.specs.Slots.{signer_slot, collect};
ghost use Rattle.state.specs.View.{arrival_in};
ghost use Rattle.arrivals.specs.Walks.{arrival_at};
ghost use Rattle.signers.specs.Order.{ordered};

use layout::{SIGNER_LIMIT, SignerId};
use pieces::places::{Arrival, Arrivals};
use signers::order;
use signers::order::Order;
use state::fields::SignRoundInfo;

pub fn nobody() -> Arrivals
    ensures { (arrivals_of result ≡ []) × (result.count ≤ 0) }
{
    let none = Arrival {
        signer_id: SignerId(0),
        clock: 0,
    };
    Arrivals {
        arrivals: [none; SIGNER_LIMIT],
        count: 0,
    }
}

// The signer's arrival, where its response is held.
fn arrival(row: &SignRoundInfo, id: u32, slot: usize) -> Option<Arrival>
    ensures { result ≡ arrival_at row.now.slots (signer_slot id slot) }
{
    let response = row.slots.get(slot)?;
    if !response.held {
        return None;
    }
    Some(Arrival {
        signer_id: SignerId(id),
        clock: response.clock,
    })
}

pub fn arrivals_along(o: Order, row: SignRoundInfo) -> Arrivals
    ensures { (arrivals_of result ≡ collect (arrival_in row.slots) (ordered o)) × (result.count ≤ signer_limit) }
{
    let mut arrivals = nobody().arrivals;
    let count = order::along(&o, |id, slot| arrival(&row, id, slot), &mut arrivals);
    Arrivals { arrivals, count }
}
