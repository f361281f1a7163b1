// Whether no key id occurs twice in the lists that a job joins: by each list's comparison, and list against list.
ghost use Rattle.std.specs.Prelude.{◌≡◌, not, ◌≤◌, ◌<◌, length};
ghost use Rattle.layout.specs.Limits.{list_limit, signer_limit, record_limit, store_length};
ghost use Rattle.validity.specs.Keys.{listed};
ghost use Rattle.step_definition.specs.Ids.{distinct};
ghost use Rattle.step_definition.specs.Effects.{joined_keys};
ghost use Rattle.signers.specs.Order.{ordered};
ghost use Rattle.signing_job.specs.SigningJob.{responses};
ghost use Rattle.signing_job.specs.SentKeys.{sent_keys, FewKeys, Listed};

use id_lists::KEY_LIMIT;
use layout::{ID_LENGTH, KeyId, LIST_LIMIT};
use signers::order::Order;
use state::fields::{ResponseSlot, SignRoundInfo};
use state::places::{KEYS_START, RECORD_BYTES, RESPONSE_BYTES};
use validity::ids::LAST_BYTES;
use validity::keys;
use validity::keys::KeyIds;

// The list of the signer in slot i as it was sent; a signer without a response has none.
fn sent_keys(source: &[u8], r: usize, i: usize, slot: ResponseSlot) -> KeyIds
    requires { (r < record_limit) × (i < signer_limit) × (store_length ≤ length source.now) × FewKeys slot }
    ensures { (listed result ≡ sent_keys source.now r i slot) × (result.count ≤ list_limit) }
{
    if !slot.held {
        return KeyIds {
            ids: [KeyId(0); LIST_LIMIT],
            count: 0,
        };
    }
    let at = RECORD_BYTES * r + RESPONSE_BYTES * i + KEYS_START;
    let part = wire::part(source, at, slot.key_ids * ID_LENGTH);
    keys::key_list(part)
}

// The comparison counts the list's own repeats, whatever it is held against. With itself that takes least, and a responder may be one
// without a key set.
fn has_repeat(list: KeyIds) -> bool
    ensures { result ≡ not (distinct (listed list)) }
{
    let found = keys::compare(list, list);
    found.repeats != 0
}

// Along the order, so that of equal ids only the first slot counts: no list has a repeat, and none shares a key with one before it.
pub fn none_twice(o: Order, source: &[u8], r: usize, row: SignRoundInfo) -> bool
    requires { Listed o (length source.now) r row }
    ensures { result ≡ distinct (joined_keys (responses (ordered o) source.now r row)) }
{
    let mut ids = [0u32; KEY_LIMIT];
    let mut seen = [false; LAST_BYTES];
    let mut joined: usize = 0;
    for e in o.live() {
        let list = sent_keys(source, r, e.slot, row.slots[e.slot]);
        if has_repeat(list) {
            return false;
        }
        if !id_lists::add_new_keys(&mut ids, joined, &mut seen, list) {
            return false;
        }
        joined += list.count;
    }
    true
}
