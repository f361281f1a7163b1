// An answer: its class, its number and values, its bytes.
use crate::packets;
use script::print;
use state::answers::{Answer, Class};

// The values of a number: an id got and expected, or a signer.
fn values(rt: &impl Print, a: Answer) {
    if a.values == 2 {
        print::field(rt, ", got ", a.first);
        print::field(rt, ", expected ", a.second);
    }
    if a.values == 1 {
        print::field(rt, ", signer ", a.first);
    }
}

fn numbered(rt: &impl Print, name: &str, a: Answer) {
    print::field(rt, name, a.number as u64);
    values(rt, a);
}

// A sum over the whole buffer, so that a byte written past the packet shows; then the packet's fields.
fn packet(rt: &impl Print, length: usize, out: &[u8]) {
    print::text(rt, ", sum ");
    print::sum(rt, out);
    print::text(rt, ": ");
    packets::fields(rt, wire::part(out, 0, length));
}

fn written(rt: &impl Print, name: &str, length: usize, out: &[u8]) {
    print::field(rt, name, length as u64);
    print::text(rt, " bytes");
    packet(rt, length, out);
}

// An aggregator's job, with its mark.
fn job(rt: &impl Print, a: Answer, out: &[u8]) {
    print::field(rt, "job of ", a.length as u64);
    print::text(rt, " bytes, whole ");
    print::either(rt, a.mark, "yes", "no");
    packet(rt, a.length, out);
}

fn result(rt: &impl Print, a: Answer, out: &[u8]) {
    if a.number != 0 {
        numbered(rt, "result ", a);
    } else if a.values != 0 {
        print::field(rt, "told ", a.first);
    } else {
        written(rt, "result of ", a.length, out);
    }
}

// before: the buffer's sum before the call, which a call that writes nothing keeps.
pub fn answer(rt: &impl Print, a: Answer, before: u32, out: &[u8]) {
    match a.class {
        Class::Nothing => print::text(rt, "nothing"),
        Class::Packet => written(rt, "packet of ", a.length, out),
        Class::Job => job(rt, a, out),
        Class::Result => result(rt, a, out),
        Class::Error => numbered(rt, "error ", a),
    }
    if a.length == 0 {
        print::either(rt, print::sum_of(out) == before, "", ", buffer changed");
    }
}
