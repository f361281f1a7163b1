// The waiters excluded, and the keys that are left then.
ghost use Rattle.std.specs.Prelude.{◌≡◌, true};
ghost use Rattle.state.specs.Counts.{is_within_limits};
ghost use Rattle.share_timeout.specs.Exclusion.{joined_flags, excluded_in, too_few_keys};

use layout::SIGNER_LIMIT;
use state::fields::{Coordinator, Marks};

// A place is set where it is in one of the two.
fn joined(a: [bool; SIGNER_LIMIT], b: [bool; SIGNER_LIMIT]) -> [bool; SIGNER_LIMIT]
    ensures { result ≡ joined_flags a b }
{
    let mut flags = a;
    for (i, other) in b.iter().enumerate() {
        if *other {
            flags[i] = true;
        }
    }
    flags
}

// Those who are waited for are malicious now, beside those that were.
pub fn exclude(s: Coordinator, waits: [bool; SIGNER_LIMIT]) -> Coordinator
    ensures { result ≡ excluded_in waits s }
{
    let marks = Marks {
        malicious: joined(waits, s.marks.malicious),
        ..s.marks
    };
    Coordinator { marks, ..s }
}

// Whether too few keys are left without these signers. The sizes of all key sets add up to at most num_keys (4).
pub fn is_too_few(s: &Coordinator, flags: [bool; SIGNER_LIMIT]) -> bool
    requires { is_within_limits s.now ≡ true }
    ensures { result ≡ too_few_keys flags s.now }
{
    let malicious_keys = key_counts::counts::keys_of(s.config, flags);
    let left = (s.config.num_keys as usize) - malicious_keys;
    left < (s.config.threshold as usize)
}
