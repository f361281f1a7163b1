// Key lists by value, and their comparison as sets: order and repeats don't count, and how often an entry repeats an earlier one is told.
ghost use Rattle.std.specs.Prelude.{◌≡◌, false, map};
ghost use Rattle.std.specs.List.{list_all};
ghost use Rattle.wire.specs.Bytes.{are_same_bytes};
ghost use Rattle.validity.specs.Keys.{key_number, key_list, listed, member, same_set, repeats, comparison};

use crate::ids;
use layout::KeyId;

// A list of key ids: the first `count` of sixteen places.
#[derive(Clone, Copy)]
pub struct KeyIds {
    pub ids: [KeyId; layout::LIST_LIMIT],
    pub count: usize,
}

// What the comparison of a key list with a key set finds: whether they have the same keys, and how many entries of the list repeat an
// earlier one.
#[derive(Clone, Copy)]
pub struct KeyComparison {
    pub same: bool,
    pub repeats: usize,
}

impl KeyIds {
    // The ids that count: at most the sixteen that there are.
    #[tactic(auto, using(crate::proofs::Places::listed_places))]
    pub fn listed(&self) -> &[KeyId]
        ensures { map key_number result.now ≡ listed self.now }
    {
        &self.ids[..self.count.min(layout::LIST_LIMIT)]
    }
}

// The key ids in a part of four bytes each, the first sixteen of them; the places past the count hold 0.
pub fn key_list(s: &[u8]) -> KeyIds
    ensures { result ≡ key_list s.now }
{
    let mut ids = [KeyId(0); layout::LIST_LIMIT];
    let count = (s.len() / layout::ID_LENGTH).min(layout::LIST_LIMIT);
    // The index is both the place that is filled and where the id stands in the part.
    for i in 0..count {
        ids[i] = KeyId(wire::u32_at(s, layout::ID_LENGTH * i));
    }
    KeyIds { ids, count }
}

#[tactic(auto, using(crate::proofs::Sets::member_any))]
fn is_member(key: KeyId, ids: &[KeyId]) -> bool
    ensures { result ≡ member key.0 (map key_number ids.now) }
{
    ids.contains(&key)
}

// Whether each key of the list is in the set.
fn is_subset(list: &[KeyId], set: &[KeyId]) -> bool
    ensures { result ≡ list_all (λ x. member (key_number x) (map key_number set.now)) list.now }
{
    list.iter().all(|key| is_member(*key, set))
}

// The same keys in the same places. Each is looked at, so that the loop has one end and is compiled to wide comparisons.
fn is_equal(list: &[KeyId], set: &[KeyId]) -> bool
    ensures { result ≡ are_same_bytes (map key_number list.now) (map key_number set.now) }
{
    if list.len() != set.len() {
        return false;
    }
    let mut so_far = true;
    for (i, key) in list.iter().enumerate() {
        so_far &= *key == set[i];
    }
    so_far
}

// A list that is the set place by place is looked for first: many signers list their keys so.
#[tactic(auto, using(crate::proofs::Sets::same_lists, crate::proofs::Sets::subset_all), unfolding(crate::specs::Keys::same_set))]
fn is_same_set(list: &[KeyId], set: &[KeyId]) -> bool
    ensures { result ≡ same_set (map key_number list.now) (map key_number set.now) }
{
    is_equal(list, set) || (is_subset(list, set) && is_subset(set, list))
}

// Whether a key is among those before it; they are looked through only where that may be.
fn is_repeat(key: KeyId, before: &[KeyId], may_be: bool) -> bool
    requires { may_be ≡ false → member key.0 (map key_number before.now) ≡ false }
    ensures { result ≡ member key.0 (map key_number before.now) }
{
    may_be && is_member(key, before)
}

// How many keys are among those before them. One can be a repeat only where its last byte is noted.
fn count_repeats(list: &[KeyId]) -> usize
    ensures { result ≡ repeats (map key_number list.now) }
{
    let mut seen = [false; ids::LAST_BYTES];
    let mut found: usize = 0;
    for (i, key) in list.iter().enumerate() {
        let last = ids::last_byte(key.0);
        if is_repeat(*key, &list[..i], seen[last]) {
            found += 1;
        }
        seen[last] = true;
    }
    found
}

// A key list against a key set: both answers, whatever the other is.
pub fn compare(list: KeyIds, set: KeyIds) -> KeyComparison
    ensures { result ≡ comparison (listed list) (listed set) }
{
    KeyComparison {
        same: is_same_set(list.listed(), set.listed()),
        repeats: count_repeats(list.listed()),
    }
}
