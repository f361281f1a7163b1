// Why a line's case is not run.
use std::fmt;

#[derive(Clone, Copy, PartialEq, Eq, Debug)]
pub enum Fault {
    NoNumber,
    TooWide,
    TooLong,
    LongLine,
    NoBar,
    NoLetter,
}

impl fmt::Display for Fault {
    fn fmt<W: fmt::Write>(&self, f: &mut fmt::Formatter<W>) -> fmt::Result {
        f.write_str(match self {
            Fault::NoNumber => "a token is no byte and no number",
            Fault::TooWide => "a number does not fit its bytes",
            Fault::TooLong => "the case is longer than 32768 bytes",
            Fault::LongLine => "the line is longer than 8192 bytes",
            Fault::NoBar => "the line has no bar",
            Fault::NoLetter => "no case has this letter",
        })
    }
}
