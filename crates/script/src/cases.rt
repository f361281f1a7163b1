// A line's case: a letter, a label, a bar, and the case's bytes as tokens; or why it is not run.
use crate::faults::Fault;
use crate::{lines, print, tokens};
use std::fmt::Display;

// The place after the bar, where there is one.
fn after_bar(line: &[u8]) -> Option<usize> {
    let bar = line.iter().position(|b| *b == b'|')?;
    Some(bar + 1)
}

// The label: what stands between the letter and the bar, without the blanks beside it.
pub fn label(rt: &impl Print, line: &[u8]) {
    let end = after_bar(line).map_or(line.len(), |at| at.saturating_sub(2));
    print::bytes(rt, lines::from_to(line, 2, end));
}

// The bytes of the case on a line: how many they are. known: whether its letter names one.
pub fn read(
    line: &[u8],
    long: bool,
    known: bool,
    args: &mut [u8; tokens::CASE_LENGTH],
) -> Result<usize, Fault> {
    if long {
        return Err(Fault::LongLine);
    }
    let at = after_bar(line).ok_or(Fault::NoBar)?;
    if !known {
        return Err(Fault::NoLetter);
    }
    tokens::assemble(lines::from_to(line, at, line.len()), args)
}

// What is told of a case that is not run.
pub fn tell(rt: &impl Print, fault: &impl Display) {
    let _ = print!(rt; "not run: {fault}");
}
