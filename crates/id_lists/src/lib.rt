// Lists of ids in an array: an id looked for among them, whether one is there twice, and lists joined that share no key.
#![tactic(auto)]

ghost use Rattle.std.specs.Prelude.{◌≡◌, ◌≤◌, true, false, ◌||◌, eqb, length, take};
ghost use Rattle.validity.specs.Keys.{listed, member, disjoint};
ghost use Rattle.step_definition.specs.Ids.{distinct};
ghost use Rattle.id_lists.specs.Adding.{Adding, Added};

use layout::{LIST_LIMIT, SIGNER_LIMIT};
use validity::ids::LAST_BYTES;
use validity::keys::KeyIds;

// Room for every key of every signer.
pub const KEY_LIMIT: usize = SIGNER_LIMIT * LIST_LIMIT;

// A list of ids: the first `count` of its places.
#[derive(Clone, Copy)]
pub struct IdList {
    pub ids: [u32; KEY_LIMIT],
    pub count: usize,
}

// Whether an id is among the first `count`.
pub fn contains(ids: &[u32], count: usize, id: u32) -> bool
    requires { count ≤ length ids.now }
    ensures { result ≡ member id (take count ids.now) }
{
    ids[..count].contains(&id)
}

// Whether an id is among the first `count`; they are looked through only where that may be.
fn is_among(ids: &[u32], count: usize, id: u32, may_be: bool) -> bool
    requires { (count ≤ length ids.now) × (may_be ≡ false → member id (take count ids.now) ≡ false) }
    ensures { result ≡ member id (take count ids.now) }
{
    may_be && contains(ids, count, id)
}

// None twice.
pub fn is_distinct(ids: &[u32]) -> bool
    ensures { result ≡ distinct ids.now }
{
    let mut seen = [false; LAST_BYTES];
    for (i, id) in ids.iter().enumerate() {
        let last = validity::ids::last_byte(*id);
        if is_among(ids, i, *id, seen[last]) {
            return false;
        }
        seen[last] = true;
    }
    true
}

// The keys of a list put after the first `count` ids, and whether none of them is among those: at the first that is, the rest is left.
// `seen` notes the last bytes of those that are there.
pub fn add_new_keys(ids: &mut [u32], count: usize, seen: &mut [bool], list: KeyIds) -> bool
    requires { Adding ids.old count seen.old list }
    ensures { (result ≡ disjoint (take count ids.old) (listed list))
        × (result ≡ true → Added ids.old count ids.new seen.new list) }
{
    for (i, key) in list.ids[..list.count].iter().enumerate() {
        let byte = validity::ids::last_byte(key.0);
        if is_among(ids, count, key.0, seen[byte]) {
            return false;
        }
        ids[count + i] = key.0;
        seen[byte] = true;
    }
    true
}
