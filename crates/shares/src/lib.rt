// Recording a signer's signature shares: the key ids of all joined, and the shares written in the places of the signer's slot, each
// share's id and z_i first, then the key ids of all, one after the other.
#![tactic(auto)]

ghost use Rattle.std.specs.Prelude.{◌≡◌, ◌++◌, map, ◌+◌, ◌≤◌, ◌<◌};
ghost use Rattle.layout.specs.Limits.{list_limit, signer_limit};
ghost use Rattle.layout.specs.LaidOut.{parts_from};
ghost use Rattle.layout.specs.Decode.{share_in};
ghost use Rattle.validity.specs.Keys.{listed};
ghost use Rattle.step_definition.specs.Effects.{share_key_ids};
ghost use Rattle.shares.specs.Shares.{Shareable, part_keys, put_share, kept_store, kept_slot, kept_shares};

use layout::{ID_LENGTH, KeyId, LIST_LIMIT, SHARE_LENGTH};
use state::fields::{ShareSlot, Shares};
use state::places::{SHARE_BYTES, SHARE_KEYS_START, SHARES_START};
use validity::keys;
use validity::keys::KeyIds;

// Two lists, one after the other.
fn join(list: KeyIds, more: KeyIds) -> KeyIds
    requires { list.count + more.count ≤ list_limit }
    ensures { (listed result ≡ listed list ++ listed more) × (result.count ≡ list.count + more.count) }
{
    let mut ids = list.ids;
    let mut count = list.count;
    // by the key: `copy_from_slice` would want memmove of the C library
    for i in 0..more.count {
        ids[count] = more.ids[i];
        count += 1;
    }
    KeyIds { ids, count }
}

// The key ids of all shares of a kind 4 packet, in the order of its parts.
pub fn share_keys(packet: &[u8], pairs: u16) -> KeyIds
    requires { Shareable (parts_from packet.now 32 pairs) }
    ensures { listed result ≡ share_key_ids (map share_in (parts_from packet.now 32 pairs)) }
{
    let mut list = KeyIds {
        ids: [KeyId(0); LIST_LIMIT],
        count: 0,
    };
    for k in 0..pairs {
        let share = parts::share(packet, k as u8);
        list = join(list, keys::key_list(parts::share_key_ids(share)));
    }
    list
}

// One share: its id and z_i at `at`, its key ids at `keys`. How many key ids it has.
fn put_share(store: &mut [u8], at: usize, keys: usize, share: &[u8]) -> usize
    ensures value { result ≡ part_keys share.now }
    ensures store_after { store.new ≡ put_share at keys share.now store.old }
{
    let key_ids = parts::share_key_ids(share);
    wire::copy(store, at, wire::part(share, 0, SHARE_LENGTH));
    wire::copy(store, keys, key_ids);
    key_ids.len() / ID_LENGTH
}

// All shares of a packet, in the places of slot i; what is known of them after.
fn put_shares(store: &mut [u8], i: usize, packet: &[u8], pairs: u16) -> ShareSlot
    requires { Shareable (parts_from packet.now 32 pairs) × (i < signer_limit) }
    ensures value { result ≡ kept_slot (parts_from packet.now 32 pairs) }
    ensures store_after { store.new ≡ kept_store i (parts_from packet.now 32 pairs) store.old }
{
    let mut key_counts: [u8; LIST_LIMIT] = [0; LIST_LIMIT];
    let mut at = SHARES_START + SHARE_BYTES * i;
    let mut keys = at + SHARE_KEYS_START;
    for k in 0..pairs {
        let n = put_share(store, at, keys, parts::share(packet, k as u8));
        key_counts[k as usize] = n as u8;
        at += SHARE_LENGTH;
        keys += n * ID_LENGTH;
    }
    ShareSlot {
        held: true,
        count: pairs as usize,
        key_counts,
    }
}

// A signer's shares recorded: written in the store, and known in slot i.
pub fn keep(held: Shares, store: &mut [u8], i: usize, packet: &[u8], pairs: u16) -> Shares
    requires { Shareable (parts_from packet.now 32 pairs) × (i < signer_limit) }
    ensures value { result ≡ kept_shares i (parts_from packet.now 32 pairs) held }
    ensures store_after { store.new ≡ kept_store i (parts_from packet.now 32 pairs) store.old }
{
    let mut slots = held.slots;
    slots[i] = put_shares(store, i, packet, pairs);
    Shares { slots }
}
