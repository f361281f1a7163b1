// The lent store.
ghost use Rattle.std.specs.Prelude.{◌≡◌, length, replicate};

// The whole store, however long.
pub fn zero(store: &mut [u8])
    ensures { store.new ≡ replicate (length store.old) 0 }
{
    // by the byte, and not by `fill`: an edit says of a single byte that it is not zeroed
    for i in 0..store.len() {
        store[i] = 0;
    }
}
