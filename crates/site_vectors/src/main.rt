// The same program on fire.rs's own answers: scripts/vectors.py turns its traces into the script and the expected output.
#![tactic(auto)]

fn main(rt: HostRuntime) {
    replay::replay(&rt);
}
