// How many keys signers have. The order is walked from the last on, as the definition adds up.
ghost use Rattle.std.specs.Prelude.{◌≡◌, ℕ, ◌≤◌, true, List, length};
ghost use Rattle.wire.specs.Bytes.{every};
ghost use Rattle.layout.specs.Limits.{list_limit, signer_limit};
ghost use Rattle.step_definition.specs.Configuration.{num_key_ids};
ghost use Rattle.step_definition.specs.Effects.{recv_key_ids};
ghost use Rattle.state.specs.Slots.{collect};
ghost use Rattle.state.specs.Counts.{entries, entry_within};
ghost use Rattle.state.specs.View.{slots_of, config_of, held_in, flagged_in};
ghost use Rattle.signers.specs.Order.{ordered};
ghost use Rattle.key_counts.specs.Sets.{set_of, InOrder, held_keys, flagged_sizes};

use crate::keys;
use id_lists::{IdList, KEY_LIMIT};
use layout::SIGNER_LIMIT;
use signers::order;
use signers::order::Order;
use state::fields::{Config, SignRoundInfo, SignerEntry};

// A signer without a key set has no keys.
fn set_size(e: SignerEntry) -> usize
    requires { entry_within e ≡ true }
    ensures { (result ≡ length (set_of e)) × (result ≤ list_limit) }
{
    if e.has_keys { e.keys.count } else { 0 }
}

// Along the order, so that of equal ids only the first slot counts.
fn flagged_sizes(o: Order, g: Config, flags: [bool; SIGNER_LIMIT]) -> usize
    requires { InOrder o g }
    ensures { result ≡ flagged_sizes g.signers flags (ordered o) }
{
    let mut total: usize = 0;
    for k in (0..o.count).rev() {
        let i = o.slots[k].slot;
        if flags[i] {
            total += set_size(g.signers[i]);
        }
    }
    total
}

// The sizes of the flagged signers' key sets, summed.
pub fn keys_of(g: Config, flags: [bool; SIGNER_LIMIT]) -> usize
    requires { (g.count ≤ signer_limit) × (every entry_within (entries g) ≡ true) }
    ensures { result ≡ num_key_ids (config_of g) (collect (flagged_in flags) (slots_of g)) }
{
    let o = order::ascending(g);
    flagged_sizes(o, g, flags)
}

// Along the order, so that of equal ids only the first slot counts.
fn held_keys(o: Order, g: Config, row: SignRoundInfo) -> usize
    requires { InOrder o g }
    ensures { result ≡ length (held_keys g.signers row.slots (ordered o)) }
{
    let mut set = IdList {
        ids: [0; KEY_LIMIT],
        count: 0,
    };
    for k in (0..o.count).rev() {
        let i = o.slots[k].slot;
        if row.slots[i].held {
            set = keys::add_entry(set, g.signers[i]);
        }
    }
    set.count
}

// How many different keys the signers have that responded, whatever keys their responses name.
pub fn received_keys(g: Config, row: SignRoundInfo) -> usize
    requires { (g.count ≤ signer_limit) × (every entry_within (entries g) ≡ true) }
    ensures { (r : ℕ) (store : List ℕ) →
        result ≡ length (recv_key_ids (config_of g) (collect (held_in r row.message store row.slots) (slots_of g))) }
{
    let o = order::ascending(g);
    held_keys(o, g, row)
}
