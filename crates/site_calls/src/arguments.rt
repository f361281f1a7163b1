// The other calls' arguments.
use crate::configs;
use layout::ROOT_LENGTH;
use starts::naming::Start;
use state_table::State;

// Most ids of signers that a case may name as ended.
pub const ENDED_PLACES: usize = 16;

// The root in the 32 bytes at `at`.
pub fn root(s: &[u8], at: usize) -> [u8; ROOT_LENGTH] {
    let mut root = [0u8; ROOT_LENGTH];
    wire::copy(&mut root, 0, wire::part(s, at, ROOT_LENGTH));
    root
}

// What follows the argument before it.
pub fn rest(s: &[u8], at: usize) -> &[u8] {
    wire::part(s, at, s.len())
}

// The state of a move question.
pub fn state(s: &[u8]) -> State {
    script::states::state_of(wire::byte(s, 0), layout::signature_type(wire::byte(s, 1)))
}

fn sign_id(s: &[u8]) -> Option<u64> {
    if configs::flag(s, 41) {
        Some(wire::u64_at(s, 42))
    } else {
        None
    }
}

// A start's type, root and sign id, after its clock. The message begins at byte 50.
pub fn start(s: &[u8]) -> Start {
    Start {
        signature_type: layout::signature_type(wire::byte(s, 8)),
        root: root(s, 9),
        sign_id: sign_id(s),
    }
}

pub fn ended_count(s: &[u8]) -> usize {
    rest(s, 8).len() / layout::ID_LENGTH
}

// The signers that ended key generation, and how many there are.
pub fn ended(s: &[u8], ids: &mut [u32; ENDED_PLACES]) -> usize {
    for (i, id) in ids.iter_mut().enumerate() {
        *id = wire::u32_at(s, 8 + layout::ID_LENGTH * i);
    }
    ended_count(s).min(ENDED_PLACES)
}

// The first `count` ids, all where there are fewer.
pub fn first(ids: &[u32], count: usize) -> &[u32] {
    &ids[..count.min(ids.len())]
}
