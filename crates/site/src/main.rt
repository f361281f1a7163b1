// The host's test program for Site. scripts/site.py, which follows document 01 and shares no code with the crates, writes the script and
// the expected output.
#![tactic(auto)]

fn main(rt: HostRuntime) {
    replay::replay(&rt);
}
