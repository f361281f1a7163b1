// A response put on the record of its message, which is opened where there is none.
ghost use Rattle.std.specs.Prelude.{◌≡◌, ◌≤◌, ◌<◌, length};
ghost use Rattle.layout.specs.Limits.{record_limit};
ghost use Rattle.wire.specs.Bytes.{are_same_bytes};
ghost use Rattle.records.specs.Records.{row_message, record_place, opened, opened_store, added_records, added_store, Placed};

use layout::{Ids, SIGNER_LIMIT};
use state::fields::{Records, ResponseSlot, SignRoundInfo};
use state::places::{KEYS_START, NONCES_START, RECORD_BYTES, RESPONSE_BYTES};

// Whether the record r is that of this message.
fn is_of(row: &SignRoundInfo, r: usize, store: &[u8], message: &[u8]) -> bool
    requires { r < record_limit }
    ensures { result ≡ are_same_bytes message.now (row_message r row.now store.now) }
{
    wire::same(message, wire::part(store, RECORD_BYTES * r, row.message))
}

// The record of a message; where there is none, the place of the next.
pub fn place(records: Records, store: &[u8], message: &[u8]) -> usize
    ensures { result ≡ record_place message.now records store.now }
{
    let rows = records.live();
    for (r, row) in rows.iter().enumerate() {
        if is_of(row, r, store, message) {
            return r;
        }
    }
    rows.len()
}

// The record r, opened where it is not open.
fn open(mut records: Records, store: &mut [u8], r: usize, message: &[u8]) -> Records
    requires { Placed records r 0 }
    ensures value { result ≡ opened r (length message.now) records }
    ensures store_after { store.new ≡ opened_store r message.now records store.old }
{
    if r < records.count {
        return records;
    }
    wire::copy(store, RECORD_BYTES * r, message);
    let empty = ResponseSlot {
        held: false,
        waits: false,
        ids: Ids {
            dkg_id: 0,
            sign_id: 0,
            sign_iter_id: 0,
        },
        key_ids: 0,
        nonces: 0,
        clock: 0,
    };
    records.rows[r] = SignRoundInfo {
        message: message.len(),
        slots: [empty; SIGNER_LIMIT],
    };
    records.count += 1;
    records
}

// The response of the signer in slot i, on record r, with the clock reading of its call.
pub fn add(
    records: Records,
    store: &mut [u8],
    clock: u64,
    r: usize,
    i: usize,
    ids: Ids,
    message: &[u8],
    key_ids: &[u8],
    nonces: &[u8],
) -> Records
    requires { Placed records r i }
    ensures value { result ≡ added_records clock r i ids message.now key_ids.now nonces.now records }
    ensures store_after { store.new
        ≡ added_store r i message.now key_ids.now nonces.now records store.old }
{
    let mut after = open(records, store, r, message);
    let base = RECORD_BYTES * r + RESPONSE_BYTES * i;
    wire::copy(store, base + KEYS_START, key_ids);
    wire::copy(store, base + NONCES_START, nonces);
    after.rows[r].slots[i] = ResponseSlot {
        held: true,
        waits: true,
        ids,
        key_ids: key_ids.len() / 4,
        nonces: nonces.len() / 66,
        clock,
    };
    after
}
