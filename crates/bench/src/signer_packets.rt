// The cases of what a signer sends. A case says all that its writer is given: at 0 the length of the lent buffer, at 2 the signer, at 6
// the three ids, from 30 on the lengths of the lists (numbers are counted, else bytes), then the lists.
ghost use Rattle.std.specs.Prelude.{◌<◌};

use crate::writes;
use layout::{ID_LENGTH, Ids, SignerId};
use responses::lists::ResponseHead;
use responses::{nonces, shares};
use script::print;

// The numbers that a list of the program has room for: more than any limit.
const ROOM: usize = 40;

fn length(s: &[u8], at: usize) -> usize
    ensures { result < 65536 }
{
    wire::u16_at(s, at) as usize
}

fn head(s: &[u8]) -> ResponseHead {
    ResponseHead {
        ids: Ids {
            dkg_id: wire::u64_at(s, 6),
            sign_id: wire::u64_at(s, 14),
            sign_iter_id: wire::u64_at(s, 22),
        },
        signer_id: SignerId(wire::u32_at(s, 2)),
    }
}

// The bytes from `at` on.
fn rest(s: &[u8], at: usize) -> &[u8] {
    wire::part(s, at, s.len())
}

// The numbers in the first bytes of s.
fn numbers(s: &[u8]) -> [u32; ROOM] {
    let mut list = [0u32; ROOM];
    for (i, number) in list.iter_mut().enumerate() {
        *number = wire::u32_at(s, ID_LENGTH * i);
    }
    list
}

// The first n numbers of a list, as many of them as there are.
fn first(list: &[u32], n: usize) -> &[u32] {
    &list[..n.min(list.len())]
}

fn tell_room(rt: &impl Print) {
    print::text(rt, "not run: no list of numbers is longer than 40");
}

fn tell_lists(rt: &impl Print) {
    print::text(rt, "not run: the lists are not as long as the case says");
}

fn nonce_response(rt: &impl Print, s: &[u8], out: &mut [u8]) {
    let message_len = length(s, 30);
    let key_count = length(s, 32);
    let nonces_len = length(s, 34);
    if ROOM < key_count {
        tell_room(rt);
        return;
    }
    let key_bytes = key_count * ID_LENGTH;
    if s.len() != 36 + message_len + key_bytes + nonces_len {
        tell_lists(rt);
        return;
    }
    let lists = rest(s, 36);
    let after = rest(lists, message_len);
    let message = wire::part(lists, 0, message_len);
    let key_ids = numbers(after);
    let bytes = rest(after, key_bytes);
    let w = nonces::write_nonce_response(out, head(s), message, first(&key_ids, key_count), bytes);
    writes::show(rt, w, out);
}

fn signature_share_response(rt: &impl Print, s: &[u8], out: &mut [u8]) {
    let share_count = length(s, 30);
    let z_i_len = length(s, 32);
    let counts_len = length(s, 34);
    let key_count = length(s, 36);
    if ROOM < share_count || ROOM < counts_len || ROOM < key_count {
        tell_room(rt);
        return;
    }
    if s.len() != 38 + (share_count + counts_len + key_count) * ID_LENGTH + z_i_len {
        tell_lists(rt);
        return;
    }
    let lists = rest(s, 38);
    let share_ids = numbers(lists);
    let from_z_i = rest(lists, share_count * ID_LENGTH);
    let from_counts = rest(from_z_i, z_i_len);
    let key_counts = numbers(from_counts);
    let key_ids = numbers(rest(from_counts, counts_len * ID_LENGTH));
    let w = shares::write_signature_share_response(
        out,
        head(s),
        first(&share_ids, share_count),
        wire::part(from_z_i, 0, z_i_len),
        first(&key_counts, counts_len),
        first(&key_ids, key_count),
    );
    writes::show(rt, w, out);
}

// A part of the buffer is lent, as for the other writers.
pub fn run(rt: &impl Print, letter: u8, s: &[u8]) {
    let mut out = [0xaau8; 19240];
    let n = length(s, 0);
    if 19240 < n {
        writes::tell_buffer(rt);
        return;
    }
    let part = &mut out[0..n];
    if letter == b'2' {
        nonce_response(rt, s, part);
    } else {
        signature_share_response(rt, s, part);
    }
}
