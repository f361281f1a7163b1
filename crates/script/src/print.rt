// Text and numbers on standard output. A write that fails is passed over: what follows is tried all the same.

pub fn text(rt: &impl Print, s: &str) {
    let _ = print!(rt; "{s}");
}

// Bytes as they are, which need not be text.
pub fn bytes(rt: &impl Print, s: &[u8]) {
    let _ = rt.write_all(s);
}

pub fn either(rt: &impl Print, b: bool, yes: &str, no: &str) {
    text(rt, if b { yes } else { no })
}

// A name and a number.
pub fn field(rt: &impl Print, name: &str, n: u64) {
    text(rt, name);
    let _ = print!(rt; "{n}");
}

// A sum over bytes that tells their order: h * 31 + byte, by 2 ^ 32.
pub fn sum_of(s: &[u8]) -> u32 {
    s.iter()
        .fold(0u32, |h, b| h.wrapping_mul(31).wrapping_add(*b as u32))
}

// As eight hexadecimal digits.
pub fn sum(rt: &impl Print, s: &[u8]) {
    let h = sum_of(s);
    let _ = print!(rt; "{h:08x}");
}

// As two hexadecimal digits.
pub fn byte(rt: &impl Print, b: u8) {
    let _ = print!(rt; "{b:02x}");
}

// The numbers of four bytes each in s, each after a blank.
pub fn ids(rt: &impl Print, s: &[u8]) {
    for id in s.chunks_exact(layout::ID_LENGTH) {
        field(rt, " ", wire::u32_at(id, 0) as u64);
    }
}
