// A packet in the answer buffer, printed field by field as it is read back.
use layout::Ids;
use script::print;

// A clock reading has eight bytes.
const READING_LENGTH: usize = 8;

// Bytes as hexadecimal digits, `-` for none.
fn hex(rt: &impl Print, name: &str, s: &[u8]) {
    print::text(rt, name);
    if s.is_empty() {
        print::text(rt, "-");
    }
    for b in s {
        print::byte(rt, *b);
    }
}

// Ids of four bytes each, `-` for none.
fn ids(rt: &impl Print, name: &str, s: &[u8]) {
    print::text(rt, name);
    print::either(rt, s.len() < layout::ID_LENGTH, " -", "");
    print::ids(rt, s);
}

// Clock readings, `-` for none.
fn readings(rt: &impl Print, name: &str, s: &[u8]) {
    print::text(rt, name);
    print::either(rt, s.len() < READING_LENGTH, " -", "");
    for reading in s.chunks_exact(READING_LENGTH) {
        print::field(rt, " ", wire::u64_at(reading, 0));
    }
}

fn round(rt: &impl Print, i: Ids) {
    print::field(rt, ", dkg ", i.dkg_id);
    print::field(rt, ", sign ", i.sign_id);
    print::field(rt, ", iteration ", i.sign_iter_id);
}

// What kinds 1, 3 and 32 begin with.
fn request(rt: &impl Print, name: &str, s: &[u8]) {
    let h = frame::header(s);
    print::text(rt, name);
    round(rt, h.ids);
    print::field(rt, ", type ", h.signature_type as u64);
    hex(rt, ", message ", frame::part_at(s, 0));
    hex(rt, ", root ", frame::part_at(s, 1));
}

fn nonces(rt: &impl Print, s: &[u8]) {
    print::field(rt, ", nonces ", (s.len() / layout::NONCE_LENGTH) as u64);
}

// A response of a kind 3 packet.
fn response(rt: &impl Print, s: &[u8]) {
    let h = frame::header(s);
    print::field(rt, " [signer ", h.signer_id as u64);
    round(rt, h.ids);
    hex(rt, ", message ", parts::message(s));
    ids(rt, ", keys", parts::key_ids(s));
    nonces(rt, parts::nonces(s));
    print::text(rt, "]");
}

// A share of a job.
fn share(rt: &impl Print, s: &[u8]) {
    print::field(rt, " [share ", parts::share_id(s) as u64);
    ids(rt, ", keys", parts::share_key_ids(s));
    print::text(rt, "]");
}

// The responses or the shares: the parts from `from` on.
fn each(rt: &impl Print, kind: u8, s: &[u8], from: u16, pairs: u16) {
    for i in from..pairs {
        item(rt, kind, frame::part_at(s, i));
    }
}

fn item(rt: &impl Print, kind: u8, s: &[u8]) {
    if kind == 3 {
        response(rt, s)
    } else {
        share(rt, s)
    }
}

// The packet's fields, by its kind.
pub fn fields(rt: &impl Print, s: &[u8]) {
    let h = frame::header(s);
    match h.kind {
        1 => request(rt, "nonce request", s),
        3 => {
            request(rt, "share request", s);
            each(rt, h.kind, s, 2, h.pairs);
        }
        32 => {
            request(rt, "job", s);
            ids(rt, ", keys", frame::part_at(s, 2));
            nonces(rt, frame::part_at(s, 3));
            each(rt, h.kind, s, 4, h.pairs);
        }
        33 => {
            ids(rt, "nonce timeout, waiters", frame::part_at(s, 0));
            ids(rt, ", struck", frame::part_at(s, 1));
        }
        34 => ids(rt, "insufficient signers, struck", frame::part_at(s, 0)),
        35 => {
            ids(rt, "arrivals, signers", frame::part_at(s, 0));
            readings(rt, ", readings", frame::part_at(s, 1));
        }
        _ => print::field(rt, "kind ", h.kind as u64),
    }
}
