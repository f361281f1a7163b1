// A case's bytes from its tokens. `6f` is a byte in hexadecimal, `4:56` the number 56 in four bytes, little-endian, `257*00` a byte 257
// times; a blank ends a token. What is none of these, or does not fit its bytes or the case, is a fault, and the first one is told.
use crate::faults::Fault;

pub const CASE_LENGTH: usize = 32768;

// The tokens as far as they are read: how many bytes they made, and the first fault. Of the last one: its mark, the number before the
// mark, the digits since then in both bases and how many there are, whether one of them is a letter, whether its numbers pass 64 bits,
// and whether it is no token at all.
#[derive(Clone, Copy)]
struct Token {
    made: usize,
    fault: Option<Fault>,
    mark: Option<u8>,
    count: u64,
    value: u64,
    byte: u8,
    digits: u8,
    letters: bool,
    wide: bool,
    odd: bool,
}

// Between two tokens.
fn fresh(made: usize, fault: Option<Fault>) -> Token {
    Token {
        made,
        fault,
        mark: None,
        count: 1,
        value: 0,
        byte: 0,
        digits: 0,
        letters: false,
        wide: false,
        odd: false,
    }
}

// The first fault stays.
fn with_fault(t: Token, fault: Fault) -> Token {
    fresh(t.made, t.fault.or(Some(fault)))
}

fn with_digit(t: Token, d: u8) -> Token {
    let digit = (d % 16) as u64;
    let most = (u64::MAX - digit) / 10;
    let wide = most < t.value;
    Token {
        value: if wide { 0 } else { t.value * 10 + digit },
        byte: (t.byte % 16) * 16 + d % 16,
        digits: if t.digits < 3 { t.digits + 1 } else { 3 },
        letters: t.letters || 9 < digit,
        wide: t.wide || wide,
        ..t
    }
}

// The number so far is a width or a count.
fn with_mark(t: Token, mark: u8) -> Token {
    Token {
        mark: Some(mark),
        count: t.value,
        value: 0,
        byte: 0,
        digits: 0,
        letters: false,
        odd: t.odd || t.mark.is_some() || t.digits == 0 || t.letters,
        ..t
    }
}

// Whether x fits w bytes, of which there are 1 to 8.
fn fits(w: u64, x: u64) -> bool {
    match w {
        1..=7 => x >> (8 * w) == 0,
        8 => true,
        _ => false,
    }
}

// Writes a finished number or byte, where it fits.
fn put(t: Token, args: &mut [u8; CASE_LENGTH]) -> Token {
    let end = t.made.saturating_add(t.count as usize);
    if CASE_LENGTH < end {
        return with_fault(t, Fault::TooLong);
    }
    if t.mark == Some(b':') {
        wire::put_number(args, t.made, t.count as usize, t.value);
    } else {
        args[t.made..end].fill(t.byte);
    }
    fresh(end, t.fault)
}

// Whether a finished token's numbers fit their bytes.
fn is_narrow(t: Token) -> bool {
    !t.wide
        && if t.mark == Some(b':') {
            fits(t.count, t.value)
        } else {
            t.digits < 3
        }
}

// A token ends; between two blanks there is none.
fn end(t: Token, args: &mut [u8; CASE_LENGTH]) -> Token {
    if t.digits == 0 && t.mark.is_none() && !t.odd {
        return t;
    }
    if t.odd || t.digits == 0 || (t.mark == Some(b':') && t.letters) {
        return with_fault(t, Fault::NoNumber);
    }
    if !is_narrow(t) {
        return with_fault(t, Fault::TooWide);
    }
    put(t, args)
}

// Takes one more character.
fn step(t: Token, b: u8, args: &mut [u8; CASE_LENGTH]) -> Token {
    match b {
        b'0'..=b'9' => with_digit(t, b - b'0'),
        b'a'..=b'f' => with_digit(t, b - b'a' + 10),
        b':' | b'*' => with_mark(t, b),
        b' ' => end(t, args),
        _ => Token { odd: true, ..t },
    }
}

// Writes the bytes that the tokens in s say; answers how many, or the first fault.
pub fn assemble(s: &[u8], args: &mut [u8; CASE_LENGTH]) -> Result<usize, Fault> {
    let mut t = fresh(0, None);
    for b in s {
        t = step(t, *b, args);
    }
    let last = end(t, args);
    match last.fault {
        Some(fault) => Err(fault),
        None => Ok(last.made),
    }
}
