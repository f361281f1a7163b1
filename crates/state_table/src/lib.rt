// The table of states: fire.rs, `can_move_to`, over all fifteen states of coordinator/mod.rs, in its order.
#![tactic(auto)]

ghost use Rattle.std.specs.Prelude.{◌≡◌, ◌<◌};
ghost use Rattle.state_table.specs.States.{state_number, type_in, same_type, types_agree, position};
ghost use Rattle.state_table.specs.Moves.{can_move_to, allowed};

use layout::SignatureType;

// coordinator/mod.rs: State. A signing state carries its signature type; the root lies beside the state.
#[derive(Clone, Copy)]
pub enum State {
    Idle,
    DkgPublicDistribute,
    DkgPublicGather,
    DkgPublicSharesDoneDistribute,
    DkgPublicSharesDoneGather,
    DkgPrivateDistribute,
    DkgPrivateGather,
    DkgPrivateSharesDoneDistribute,
    DkgPrivateSharesDoneGather,
    DkgEndDistribute,
    DkgEndGather,
    NonceRequest(SignatureType),
    NonceGather(SignatureType),
    SigShareRequest(SignatureType),
    SigShareGather(SignatureType),
}

// A row for each previous state, an answer for each next state, both in the order of State. Where both states carry a type, the types
// are compared besides.
const TABLE: [[bool; 15]; 15] = [
    // Idle
    [
        true, true, false, false, false, false, false, false, false, false, false, true, false,
        false, false,
    ],
    // DkgPublicDistribute
    [
        true, false, true, false, false, false, false, false, false, false, false, false, false,
        false, false,
    ],
    // DkgPublicGather
    [
        true, false, true, true, false, false, false, false, false, false, false, false, false,
        false, false,
    ],
    // DkgPublicSharesDoneDistribute
    [
        true, false, false, false, true, false, false, false, false, false, false, false, false,
        false, false,
    ],
    // DkgPublicSharesDoneGather
    [
        true, false, false, false, true, true, false, false, false, false, false, false, false,
        false, false,
    ],
    // DkgPrivateDistribute
    [
        true, false, false, false, false, false, true, false, false, false, false, false, false,
        false, false,
    ],
    // DkgPrivateGather
    [
        true, false, false, false, false, false, true, true, false, false, false, false, false,
        false, false,
    ],
    // DkgPrivateSharesDoneDistribute
    [
        true, false, false, false, false, false, false, false, true, false, false, false, false,
        false, false,
    ],
    // DkgPrivateSharesDoneGather
    [
        true, false, false, false, false, false, false, false, true, true, false, false, false,
        false, false,
    ],
    // DkgEndDistribute
    [
        true, false, false, false, false, false, false, false, false, false, true, false, false,
        false, false,
    ],
    // DkgEndGather
    [
        true, false, false, false, false, false, false, false, false, false, false, true, false,
        false, false,
    ],
    // NonceRequest
    [
        true, false, false, false, false, false, false, false, false, false, false, false, true,
        false, false,
    ],
    // NonceGather
    [
        true, false, false, false, false, false, false, false, false, false, false, false, true,
        true, false,
    ],
    // SigShareRequest
    [
        true, false, false, false, false, false, false, false, false, false, false, false, false,
        false, true,
    ],
    // SigShareGather
    [
        true, false, false, false, false, false, false, false, false, false, false, true, false,
        false, true,
    ],
];

// The place of a state in the table.
pub fn state_number(s: State) -> usize
    ensures { result ≡ state_number s }
{
    match s {
        State::Idle => 0,
        State::DkgPublicDistribute => 1,
        State::DkgPublicGather => 2,
        State::DkgPublicSharesDoneDistribute => 3,
        State::DkgPublicSharesDoneGather => 4,
        State::DkgPrivateDistribute => 5,
        State::DkgPrivateGather => 6,
        State::DkgPrivateSharesDoneDistribute => 7,
        State::DkgPrivateSharesDoneGather => 8,
        State::DkgEndDistribute => 9,
        State::DkgEndGather => 10,
        State::NonceRequest(_) => 11,
        State::NonceGather(_) => 12,
        State::SigShareRequest(_) => 13,
        State::SigShareGather(_) => 14,
    }
}

// The type that a state carries.
pub fn type_in(s: State) -> Option<SignatureType>
    ensures { result ≡ type_in s }
{
    match s {
        State::Idle => None,
        State::DkgPublicDistribute => None,
        State::DkgPublicGather => None,
        State::DkgPublicSharesDoneDistribute => None,
        State::DkgPublicSharesDoneGather => None,
        State::DkgPrivateDistribute => None,
        State::DkgPrivateGather => None,
        State::DkgPrivateSharesDoneDistribute => None,
        State::DkgPrivateSharesDoneGather => None,
        State::DkgEndDistribute => None,
        State::DkgEndGather => None,
        State::NonceRequest(t) => Some(t),
        State::NonceGather(t) => Some(t),
        State::SigShareRequest(t) => Some(t),
        State::SigShareGather(t) => Some(t),
    }
}

// Whether two types are the same, a Taproot root included.
pub fn is_same_type(a: SignatureType, a_root: [u8; 32], b: SignatureType, b_root: [u8; 32]) -> bool
    ensures { result ≡ same_type a a_root b b_root }
{
    let n = layout::type_number(a);
    if n != layout::type_number(b) {
        return false;
    }
    if n != 3 {
        return true;
    }
    wire::same(&a_root, &b_root)
}

fn are_types_same(
    a: Option<SignatureType>,
    a_root: [u8; 32],
    b: Option<SignatureType>,
    b_root: [u8; 32],
) -> bool
    ensures { result ≡ types_agree a a_root b b_root }
{
    match b {
        None => true,
        Some(next) => match a {
            None => true,
            Some(prev) => is_same_type(prev, a_root, next, b_root),
        },
    }
}

// The table's answer.
fn entry(prev: usize, next: usize) -> bool
    requires { (prev < 15) × (next < 15) }
    ensures { result ≡ allowed prev next }
{
    let row = TABLE[prev];
    row[next]
}

// fire.rs: can_move_to.
pub fn can_move_to(prev: State, prev_root: [u8; 32], next: State, next_root: [u8; 32]) -> bool
    ensures { result ≡ can_move_to (position prev prev_root) (position next next_root) }
{
    let from = state_number(prev);
    let to = state_number(next);
    if !entry(from, to) {
        return false;
    }
    are_types_same(type_in(prev), prev_root, type_in(next), next_root)
}
