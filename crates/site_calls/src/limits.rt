// What the program cannot take of a case: more than its arrays hold, or a number that names nothing.
use crate::{arguments, configs};
use std::fmt;

#[derive(Clone, Copy, PartialEq, Eq, Debug)]
pub enum Fault {
    Signers,
    Keys,
    Ended,
    State,
    Type,
    Lent,
}

impl fmt::Display for Fault {
    fn fmt<W: fmt::Write>(&self, f: &mut fmt::Formatter<W>) -> fmt::Result {
        f.write_str(match self {
            Fault::Signers => "no configuration has more than 11 signers",
            Fault::Keys => "no signer has more than 17 keys",
            Fault::Ended => "no results have more than 16 signers",
            Fault::State => "no state is above 14",
            Fault::Type => "no signature type is above 3",
            Fault::Lent => "no more is lent than 52224 and 19232 bytes",
        })
    }
}

// Nothing where it holds, else the fault.
fn unless(holds: bool, fault: Fault) -> Result<(), Fault> {
    if holds { Ok(()) } else { Err(fault) }
}

fn config(s: &[u8]) -> Result<(), Fault> {
    unless(configs::are_signers_taken(s), Fault::Signers)?;
    unless(configs::are_keys_taken(s), Fault::Keys)
}

fn signature_type(s: &[u8], at: usize) -> Result<(), Fault> {
    unless(wire::byte(s, at) <= 3, Fault::Type)
}

fn state(s: &[u8]) -> Result<(), Fault> {
    unless(wire::byte(s, 0) <= 14, Fault::State)?;
    signature_type(s, 1)
}

fn lent(s: &[u8]) -> Result<(), Fault> {
    let store = wire::u32_at(s, 0) as usize;
    let room = wire::u32_at(s, 4) as usize;
    unless(
        store <= layout::STORE_LENGTH && room <= layout::ANSWER_LENGTH,
        Fault::Lent,
    )
}

fn ended(s: &[u8]) -> Result<(), Fault> {
    unless(
        arguments::ended_count(s) <= arguments::ENDED_PLACES,
        Fault::Ended,
    )
}

// Whether the program can take the case; else the first thing that it cannot.
pub fn taken(letter: u8, s: &[u8]) -> Result<(), Fault> {
    match letter {
        b'B' => lent(s),
        b'C' => config(s),
        b'E' => ended(s),
        b'Q' => state(s),
        b'S' => signature_type(s, 8),
        _ => Ok(()),
    }
}

// The letters that name a case.
pub fn is_letter(b: u8) -> bool {
    matches!(
        b,
        b'B' | b'C' | b'K' | b'E' | b'Q' | b'S' | b'P' | b'M' | b'T' | b'A' | b'Z' | b'W'
    )
}
