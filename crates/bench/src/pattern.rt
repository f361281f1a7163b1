// The writers' store, filled with bytes that differ from place to place: 7 i + i / 251, by 256.
pub fn store() -> [u8; layout::STORE_LENGTH] {
    let mut store = [0u8; layout::STORE_LENGTH];
    for (i, place) in store.iter_mut().enumerate() {
        *place = ((7 * i + i / 251) % 256) as u8;
    }
    store
}
