// Flags, readings and constants, and arrays.
ghost use Rattle.std.specs.Prelude.{◌<◌, ◌^◌, ◌+◌, ◌*◌, ◌≡◌};
ghost use Rattle.form.specs.Form.{flag, constant, each};
ghost use Rattle.state_bytes.specs.Description.{reading_form};

use layout::SIGNER_LIMIT;
use loading_arrays::arrays::Element;
use state::fields::{ResponseSlot, ShareSlot, SignRoundInfo, SignerEntry};
use state_bytes::{HAS_KEYS, NANOSECONDS, SLOTS, WAITS};

pub fn is_flag(s: &[u8], at: usize) -> bool
    ensures { result ≡ flag.left s.now at }
{
    wire::byte(s, at) <= 1
}

// Bytes that are always the same.
pub fn stands<'a>(s: &'a [u8], at: usize, bytes: &'a [u8]) -> bool
    ensures { result ≡ (constant bytes.now).left s.now at }
{
    wire::same(bytes, wire::part(s, at, bytes.len()))
}

// A reading is there, or its number is 0.
pub fn is_reading(s: &[u8], at: usize) -> bool
    requires { at + reading_form.width < 2 ^ 64 }
    ensures { result ≡ reading_form.left s.now at }
{
    match wire::byte(s, at) {
        0 => wire::u64_at(s, at + NANOSECONDS) == 0,
        1 => true,
        _ => false,
    }
}

// A value that stands in an array, and whether a save left its bytes: what can be any number is not looked at.
pub trait Tested: Element {
    fn is_left(s: &[u8], at: usize) -> bool
        requires { at + Self.form.width < 2 ^ 64 }
        ensures { result ≡ Self.form.left s.now at };
}

// Whether a save left n elements, one after the other.
pub fn are_left<T: Tested>(s: &[u8], at: usize, n: usize) -> bool
    requires { at + T.form.width * n < 2 ^ 64 }
    ensures { result ≡ (each n T.form).left s.now at }
{
    for i in 0..n {
        if !T::is_left(s, at + T::width() * i) {
            return false;
        }
    }
    true
}

impl Tested for bool {
    fn is_left(s: &[u8], at: usize) -> bool {
        is_flag(s, at)
    }
}

impl Tested for SignerEntry {
    fn is_left(s: &[u8], at: usize) -> bool {
        is_flag(s, at + HAS_KEYS)
    }
}

impl Tested for ResponseSlot {
    fn is_left(s: &[u8], at: usize) -> bool {
        is_flag(s, at) && is_flag(s, at + WAITS)
    }
}

impl Tested for SignRoundInfo {
    fn is_left(s: &[u8], at: usize) -> bool {
        are_left::<ResponseSlot>(s, at + SLOTS, SIGNER_LIMIT)
    }
}

impl Tested for ShareSlot {
    fn is_left(s: &[u8], at: usize) -> bool {
        is_flag(s, at)
    }
}
