// What a call answers, and what every call is asked before its own work.
ghost use Rattle.std.specs.Prelude.{◌≡◌};
ghost use Rattle.state.specs.Turns.{plain_answer, refused_answer, failed_answer, telling_answer, sending_answer, asked};
ghost use Rattle.state.specs.Turns.{mismatched_answer, blaming_answer, handing_answer};

use crate::counts;
use crate::fields::Coordinator;
use layout::{ANSWER_LENGTH, STORE_LENGTH};

#[derive(Clone, Copy)]
pub enum Class {
    Nothing,
    Packet,
    Job,
    Result,
    Error,
}

// number: document 01's, 0 where no question is answered no. The first `values` of the two values count. length: how many bytes were
// written to the answer buffer.
#[derive(Clone, Copy)]
pub struct Answer {
    pub class: Class,
    pub number: u32,
    pub first: u64,
    pub second: u64,
    pub values: usize,
    pub mark: bool,
    pub length: usize,
}

#[derive(Clone, Copy)]
pub struct Done {
    pub answer: Answer,
    pub after: Coordinator,
}

// Which of 5, 6 and 7 a call is asked.
#[derive(Clone, Copy)]
pub struct Asks {
    pub no_job: bool,
    pub a_job: bool,
    pub room: bool,
}

// An answer without a number, values, a mark or bytes.
fn plain(class: Class) -> Answer
    ensures { result ≡ sending_answer class 0 }
{
    Answer {
        class,
        number: 0,
        first: 0,
        second: 0,
        values: 0,
        mark: false,
        length: 0,
    }
}

pub fn quiet(s: Coordinator) -> Done
    ensures { result ≡ record { answer = plain_answer; after = s } }
{
    Done {
        answer: plain(Class::Nothing),
        after: s,
    }
}

pub fn refused(s: Coordinator, number: u32) -> Done
    ensures { result ≡ record { answer = refused_answer number; after = s } }
{
    let answer = Answer {
        number,
        ..plain(Class::Error)
    };
    Done { answer, after: s }
}

// A result with a number.
pub fn failed(s: Coordinator, number: u32) -> Done
    ensures { result ≡ record { answer = failed_answer number; after = s } }
{
    let answer = Answer {
        number,
        ..plain(Class::Result)
    };
    Done { answer, after: s }
}

// A result that tells a value.
pub fn telling(s: Coordinator, value: u64) -> Done
    ensures { result ≡ record { answer = telling_answer value; after = s } }
{
    let answer = Answer {
        first: value,
        values: 1,
        ..plain(Class::Result)
    };
    Done { answer, after: s }
}

// An id that is not current: what was got and what was expected.
pub fn mismatched(s: Coordinator, class: Class, number: u32, got: u64, expected: u64) -> Done
    ensures { result ≡ record { answer = mismatched_answer class number got expected; after = s } }
{
    let answer = Answer {
        number,
        first: got,
        second: expected,
        values: 2,
        ..plain(class)
    };
    Done { answer, after: s }
}

// A result with a number and the signer that it is about.
pub fn blaming(s: Coordinator, number: u32, signer: u32) -> Done
    ensures { result ≡ record { answer = blaming_answer number signer; after = s } }
{
    let answer = Answer {
        number,
        first: signer as u64,
        values: 1,
        ..plain(Class::Result)
    };
    Done { answer, after: s }
}

// A job in the answer buffer, with its mark.
pub fn handing(s: Coordinator, mark: bool, length: usize) -> Done
    ensures { result ≡ record { answer = handing_answer mark length; after = s } }
{
    let answer = Answer {
        mark,
        length,
        ..plain(Class::Job)
    };
    Done { answer, after: s }
}

// Bytes in the answer buffer.
pub fn sending(s: Coordinator, class: Class, length: usize) -> Done
    ensures { result ≡ record { answer = sending_answer class length; after = s } }
{
    let answer = Answer {
        length,
        ..plain(class)
    };
    Done { answer, after: s }
}

// 4, then 5, 6 and 7 where they are asked.
#[tactic(auto, unfolding(crate::specs::Turns::asked, crate::specs::Turns::asked_if))]
pub fn before(s: Coordinator, size: usize, room: usize, a: Asks) -> Result<(), u32>
    ensures { result ≡ asked a size room s }
{
    if !s.commissioned || !counts::is_within(&s) || size < STORE_LENGTH {
        return Err(4);
    }
    if a.no_job && s.job {
        return Err(5);
    }
    if a.a_job && !s.job {
        return Err(6);
    }
    if a.room && room < ANSWER_LENGTH {
        return Err(7);
    }
    Ok(())
}
