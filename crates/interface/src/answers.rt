// An answer as plain numbers.
ghost use Rattle.std.specs.Prelude.{◌≡◌};
ghost use Rattle.interface.specs.Answers.{class_number, flat};

use state::answers::{Answer, Class};

// class: 0 nothing, 1 a packet, 2 a job, 3 a result, 4 an error. number: document 01's, 0 where no question is answered no. The first
// `values` of the two values count. mark: 1 where a job is whole. length: how many bytes were written to the answer buffer.
#[repr(C)]
#[derive(Clone, Copy)]
pub struct RcAnswer {
    pub class: u32,
    pub number: u32,
    pub first: u64,
    pub second: u64,
    pub values: u64,
    pub mark: u64,
    pub length: u64,
}

fn class_number(c: Class) -> u32
    ensures { result ≡ class_number c }
{
    match c {
        Class::Nothing => 0,
        Class::Packet => 1,
        Class::Job => 2,
        Class::Result => 3,
        Class::Error => 4,
    }
}

pub fn flat_answer(a: Answer) -> RcAnswer
    ensures { result ≡ flat a }
{
    RcAnswer {
        class: class_number(a.class),
        number: a.number,
        first: a.first,
        second: a.second,
        values: a.values as u64,
        mark: u64::from(a.mark),
        length: a.length as u64,
    }
}
