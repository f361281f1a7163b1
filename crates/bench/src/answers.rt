// One case, by its letter: R a packet read, V nonces tested, K key lists compared, M a move asked, and the writers (writes.rt,
// signer_packets.rt).
use crate::{lists, signer_packets, writes};
use layout::{Header, Ids};
use script::{print, states, tokens};
use state_table::State;
use validity::keys::KeyIds;

fn ids(rt: &impl Print, ids: Ids) {
    print::field(rt, ", ids ", ids.dkg_id);
    print::field(rt, " ", ids.sign_id);
    print::field(rt, " ", ids.sign_iter_id);
}

fn header(rt: &impl Print, h: Header) {
    print::field(rt, "kind ", h.kind as u64);
    print::field(rt, ", type ", h.signature_type as u64);
    print::field(rt, ", signer ", h.signer_id as u64);
    ids(rt, h.ids);
    print::field(rt, ", pairs ", h.pairs as u64);
}

// What the reader says of these bytes: refused with a number, or a packet, which is taken apart.
pub fn read(rt: &impl Print, s: &[u8]) {
    match packet_in_hand::open(s) {
        Ok(packet) => {
            header(rt, packet.header());
            lists::all(rt, packet.bytes, packet.kind(), packet.pairs);
        }
        Err(refusal) => print::field(rt, "refused ", refusal as u64),
    }
}

fn yes_or_no(rt: &impl Print, b: bool) {
    print::either(rt, b, "yes", "no");
}

// A list of key ids and the set after it: byte 0 says how many bytes the list has.
fn list_in(s: &[u8]) -> KeyIds {
    validity::keys::key_list(wire::part(s, 1, wire::byte(s, 0) as usize))
}

fn set_in(s: &[u8]) -> KeyIds {
    let at = 1 + (wire::byte(s, 0) as usize);
    validity::keys::key_list(wire::part(s, at, s.len()))
}

fn compare(rt: &impl Print, s: &[u8]) {
    let found = validity::keys::compare(list_in(s), set_in(s));
    yes_or_no(rt, found.same);
    print::field(rt, ", repeats ", found.repeats as u64);
}

// A state: its number and its type; a third byte is the last of its root.
fn state_in(s: &[u8]) -> State {
    let t = layout::signature_type(wire::byte(s, 1));
    states::state_of(wire::byte(s, 0), t)
}

fn root_in(s: &[u8]) -> [u8; layout::ROOT_LENGTH] {
    let mut root = [0u8; layout::ROOT_LENGTH];
    root[31] = wire::byte(s, 2);
    root
}

// A move: the previous state's three bytes, then the next state's.
fn moves(rt: &impl Print, s: &[u8]) {
    let to = wire::part(s, 3, 3);
    if 14 < wire::byte(s, 0) || 14 < wire::byte(to, 0) {
        print::text(rt, "not run: no state is above 14");
        return;
    }
    if 3 < wire::byte(s, 1) || 3 < wire::byte(to, 1) {
        print::text(rt, "not run: no signature type is above 3");
        return;
    }
    yes_or_no(
        rt,
        state_table::can_move_to(state_in(s), root_in(s), state_in(to), root_in(to)),
    );
}

// The letters that name a case.
pub fn is_letter(b: u8) -> bool {
    matches!(
        b,
        b'R' | b'V'
            | b'K'
            | b'M'
            | b'2'
            | b'4'
            | b'N'
            | b'S'
            | b'J'
            | b'T'
            | b'I'
            | b'A'
            | b'5'
            | b'6'
            | b'7'
    )
}

// The case that a letter names.
pub fn run(
    rt: &impl Print,
    letter: u8,
    args: &[u8; tokens::CASE_LENGTH],
    n: usize,
    store: &[u8; layout::STORE_LENGTH],
) {
    let s = wire::part(args, 0, n);
    match letter {
        b'R' => read(rt, s),
        b'V' => yes_or_no(rt, validity::nonces::are_valid(s)),
        b'K' => compare(rt, s),
        b'M' => moves(rt, s),
        b'2' | b'4' => signer_packets::run(rt, letter, s),
        _ => writes::run(rt, letter, s, store),
    }
}
