// Ids looked at one after the other: a step of a test of all, and the last byte, by which most ids are told apart.
ghost use Rattle.std.specs.Prelude.{◌≡◌, ◌&&◌, ◌%◌};

// How many last bytes an id can have.
pub const LAST_BYTES: usize = 256;

// An id can be a repeat only of one with the same last byte.
pub fn last_byte(id: u32) -> usize
    ensures { result ≡ id % 256 }
{
    (id as usize) % LAST_BYTES
}

// Whether one more test passes too.
pub fn both(all: bool, one: bool) -> bool
    ensures { result ≡ (one && all) }
{
    all & one
}
