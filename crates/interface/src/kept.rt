// The state that a call leaves, saved over the bytes that it was loaded from.
ghost use Rattle.std.specs.Prelude.{◌≡◌, cond, not, ◌&&◌, ◌||◌};
ghost use Rattle.wire.specs.Bytes.{put};
ghost use Rattle.state_bytes.specs.Saved.{saved, Saves};
ghost use Rattle.state.specs.Turns.{class_of};
ghost use Rattle.step_definition.specs.Calls.{is_nothing};
ghost use Rattle.step_definition.specs.Refusals.{unchanging};
ghost use Rattle.interface.specs.Answers.{flat};

use crate::answers;
use crate::answers::RcAnswer;
use state::answers::{Answer, Class, Done};

// Whether a refusal's number is one after which nothing differs.
fn is_unchanging(n: u32) -> bool
    ensures { result ≡ unchanging n }
{
    !matches!(n, 0..=3 | 10 | 11 | 20..=23)
}

// Whether the answer tells that the call gave back the struct that it was given. still: whether an answer of nothing does.
fn is_quiet(still: bool, a: &Answer) -> bool
    ensures { result ≡ ((still && is_nothing (class_of a.now.class)) || unchanging a.now.number) }
{
    let nothing = matches!(a.class, Class::Nothing);
    still && nothing || is_unchanging(a.number)
}

// was_saved: whether a save left the state's bytes. Other bytes stay. still: whether an answer of nothing tells that the struct is the one that the call
// was given; saving that would leave the bytes as they are.
pub fn keep(state: &mut [u8], was_saved: bool, still: bool, d: Done) -> RcAnswer
    ensures value { result ≡ flat d.answer }
    ensures state_after { state.new ≡ cond (was_saved && not ((still && is_nothing (class_of d.answer.class)) || unchanging d.answer.number))
        (put state.old 0 (saved d.after)) state.old }
    ensures saves { Saves d.after }
{
    if was_saved && !is_quiet(still, &d.answer) {
        saving::states::save(state, &d.after);
    }
    answers::flat_answer(d.answer)
}
