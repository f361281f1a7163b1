// Whether somebody's shares are still waited for.
ghost use Rattle.std.specs.Prelude.{◌≡◌, ℕ, ◌≤◌, List};
ghost use Rattle.layout.specs.Limits.{signer_limit};
ghost use Rattle.pieces.specs.Places.{signers_of};
ghost use Rattle.step_definition.specs.SigShareGather.{any_waits};
ghost use Rattle.state.specs.View.{slots_of, row_of};

use pieces::places::SignerIds;
use signers::order;
use state::fields::{Config, SignRoundInfo};

fn is_any(list: SignerIds) -> bool
    requires { list.count ≤ signer_limit }
    ensures { result ≡ any_waits (signers_of list) }
{
    0 < list.count
}

// Only live signers count, and of equal ids the first slot.
pub fn anyone_waits(g: Config, row: SignRoundInfo) -> bool
    requires { g.count ≤ signer_limit }
    ensures { (r : ℕ) (store : List ℕ) → result ≡ any_waits (row_of (slots_of g) store r row).sign_wait_signer_ids }
{
    let o = order::ascending(g);
    let flags = signer_ids::waiting(row);
    let waiters = signer_ids::flagged_ids(o, flags);
    is_any(waiters)
}
