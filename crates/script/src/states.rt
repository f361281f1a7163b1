// A state from its number and its type.
use layout::SignatureType;
use state_table::State;

pub fn state_of(n: u8, t: SignatureType) -> State {
    match n {
        0 => State::Idle,
        1 => State::DkgPublicDistribute,
        2 => State::DkgPublicGather,
        3 => State::DkgPublicSharesDoneDistribute,
        4 => State::DkgPublicSharesDoneGather,
        5 => State::DkgPrivateDistribute,
        6 => State::DkgPrivateGather,
        7 => State::DkgPrivateSharesDoneDistribute,
        8 => State::DkgPrivateSharesDoneGather,
        9 => State::DkgEndDistribute,
        10 => State::DkgEndGather,
        11 => State::NonceRequest(t),
        12 => State::NonceGather(t),
        13 => State::SigShareRequest(t),
        _ => State::SigShareGather(t),
    }
}
