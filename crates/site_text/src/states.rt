// The coordinator that a call left: state, ids, malicious signers, whether a job is out.
use layout::SIGNER_LIMIT;
use script::print;
use signers::order;
use state::fields::{Config, Coordinator};
use state_table::State;

// The Rust's name of a state.
fn name(state: State) -> &'static str {
    match state {
        State::Idle => "Idle",
        State::DkgPublicDistribute => "DkgPublicDistribute",
        State::DkgPublicGather => "DkgPublicGather",
        State::DkgPublicSharesDoneDistribute => "DkgPublicSharesDoneDistribute",
        State::DkgPublicSharesDoneGather => "DkgPublicSharesDoneGather",
        State::DkgPrivateDistribute => "DkgPrivateDistribute",
        State::DkgPrivateGather => "DkgPrivateGather",
        State::DkgPrivateSharesDoneDistribute => "DkgPrivateSharesDoneDistribute",
        State::DkgPrivateSharesDoneGather => "DkgPrivateSharesDoneGather",
        State::DkgEndDistribute => "DkgEndDistribute",
        State::DkgEndGather => "DkgEndGather",
        State::NonceRequest(_) => "NonceRequest",
        State::NonceGather(_) => "NonceGather",
        State::SigShareRequest(_) => "SigShareRequest",
        State::SigShareGather(_) => "SigShareGather",
    }
}

// The flagged signers, ascending, `-` for nobody.
fn flagged(rt: &impl Print, config: Config, flags: [bool; SIGNER_LIMIT]) {
    if SIGNER_LIMIT < config.count {
        print::text(rt, " miscounted");
        return;
    }
    let list = signer_ids::flagged_ids(order::ascending(config), flags);
    print::either(rt, list.count == 0, " -", "");
    for id in list.ids.iter().take(list.count) {
        print::field(rt, " ", id.0 as u64);
    }
}

fn standing(rt: &impl Print, s: Coordinator) {
    let state = s.position.state;
    print::text(rt, name(state));
    if let Some(t) = state_table::type_in(state) {
        print::field(rt, " type ", layout::type_number(t) as u64);
    }
    print::field(rt, ", dkg ", s.ids.dkg_id);
    print::field(rt, ", sign ", s.ids.sign_id);
    print::field(rt, ", iteration ", s.ids.sign_iter_id);
}

pub fn coordinator(rt: &impl Print, s: Coordinator) {
    if !s.commissioned {
        print::text(rt, "uncommissioned");
        return;
    }
    standing(rt, s);
    print::text(rt, ", struck");
    flagged(rt, s.config, s.marks.malicious);
    print::either(rt, s.job, ", job out", "");
}
