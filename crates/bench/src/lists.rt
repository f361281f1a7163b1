// Lists of ids, printed, and a packet's lists.
use script::print;

fn ids(rt: &impl Print, s: &[u8]) {
    print::text(rt, ", key ids {");
    print::ids(rt, s);
    print::text(rt, " }");
}

// A kind 2 packet's lists.
fn response(rt: &impl Print, s: &[u8]) {
    print::field(rt, "; message ", parts::message(s).len() as u64);
    ids(rt, parts::key_ids(s));
    let nonces = parts::nonces(s);
    print::field(
        rt,
        ", nonces ",
        (nonces.len() / layout::NONCE_LENGTH) as u64,
    );
    print::either(
        rt,
        validity::nonces::are_valid(nonces),
        " valid",
        " not valid",
    );
}

// A response of a kind 3 packet.
fn nested(rt: &impl Print, s: &[u8]) {
    let h = frame::header(s);
    print::field(rt, "\n  response of ", h.signer_id as u64);
    print::field(rt, ", sign id ", h.ids.sign_id);
    response(rt, s);
}

// A share of a kind 4 packet.
fn share(rt: &impl Print, s: &[u8]) {
    print::field(rt, "\n  share ", parts::share_id(s) as u64);
    print::text(rt, ", z_i ");
    print::sum(rt, parts::share_z_i(s));
    ids(rt, parts::share_key_ids(s));
}

fn request(rt: &impl Print, s: &[u8]) {
    print::field(rt, "; message ", parts::message(s).len() as u64);
    print::field(rt, ", root ", parts::root(s).len() as u64);
}

// The lists of a packet of that kind.
pub fn all(rt: &impl Print, s: &[u8], kind: u8, pairs: u16) {
    match kind {
        1 => request(rt, s),
        2 => response(rt, s),
        3 => {
            request(rt, s);
            for i in 0..pairs.saturating_sub(2) {
                nested(rt, parts::nested(s, (i % 256) as u8));
            }
        }
        4 => {
            for i in 0..pairs {
                share(rt, parts::share(s, (i % 256) as u8));
            }
        }
        _ => {}
    }
}
