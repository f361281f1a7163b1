// The host starts a round or asks for a move, over the state's bytes.
#![tactic(auto)]

ghost use Rattle.std.specs.Prelude.{◌≡◌, [], length};
ghost use Rattle.state.specs.Turns.{Did};
ghost use Rattle.state_bytes.specs.Loaded.{is_saved, loaded};
ghost use Rattle.interface.specs.Called.{Called};
ghost use Rattle.library_start.specs.Given.{root_given, given_sign_id, type_said, started_turn, moved_turn};

use interface::answers::RcAnswer;
use interface::{kept, loads};
use layout::ROOT_LENGTH;
use loading::states;
use starts::naming::Start;
use state::answers;
use state::answers::Done;
use state::fields::Coordinator;

// The last type, Taproot with a root, and the last state, SigShareGather, by number.
const LAST_TYPE: u8 = 3;

const LAST_STATE: u8 = 14;

// The first 32 bytes of a root, zeros where there are fewer.
fn root_given(root: &[u8]) -> [u8; ROOT_LENGTH]
    ensures { result ≡ root_given root.now }
{
    let mut given = [0u8; ROOT_LENGTH];
    wire::copy(&mut given, 0, root);
    given
}

fn sign_id_of(given: u8, sign_id: u64) -> Option<u64>
    ensures { result ≡ given_sign_id given sign_id }
{
    if given == 0 { None } else { Some(sign_id) }
}

// A type at most 3, and with the last one a root of 32 bytes.
fn type_said(n: u8, root: &[u8]) -> bool
    ensures { result ≡ type_said n root.now }
{
    if LAST_TYPE < n {
        return false;
    }
    if n == LAST_TYPE {
        return root.len() == ROOT_LENGTH;
    }
    true
}

// A type above 3, or the last one with a root of another length, is refused with 8.
fn start(
    s: Coordinator,
    store: &[u8],
    out: &mut [u8],
    clock: u64,
    message: &[u8],
    signature_type: u8,
    root: &[u8],
    sign_id: Option<u64>,
) -> Done
    ensures { Did (started_turn clock message.now signature_type root.now sign_id
        (length out.old) s store.now)
        out.old result store.now out.new }
{
    if !type_said(signature_type, root) {
        return answers::refused(s, 8);
    }
    let t = layout::signature_type(signature_type);
    let root = root_given(root);
    let by = Start {
        signature_type: t,
        root,
        sign_id,
    };
    coordinator::start_signing_round(s, store, out, clock, message, by)
}

// sign_id counts where sign_id_given is not 0; the root where the type is 3.
pub fn start_signing_round(
    state: &mut [u8],
    store: &[u8],
    out: &mut [u8],
    clock: u64,
    message: &[u8],
    signature_type: u8,
    root: &[u8],
    sign_id_given: u8,
    sign_id: u64,
) -> RcAnswer
    ensures { Called (is_saved state.old)
        (started_turn clock message.now signature_type root.now (given_sign_id sign_id_given sign_id)
        (length out.old) (loaded state.old) store.now)
        state.old out.old result state.new store.now out.new }
{
    let from = loads::load(state);
    let s = from.state;
    let id = sign_id_of(sign_id_given, sign_id);
    let d = start(s, store, out, clock, message, signature_type, root, id);
    kept::keep(state, from.saved, false, d)
}

// A state above 14, a type above 3, or the last type with a root of another length, is refused with 8.
fn moves(s: Coordinator, store: &[u8], next: u8, signature_type: u8, root: &[u8]) -> Done
    ensures { Did (moved_turn next signature_type root.now s store.now) [] result store.now [] }
{
    if LAST_STATE < next {
        return answers::refused(s, 8);
    }
    if !type_said(signature_type, root) {
        return answers::refused(s, 8);
    }
    let t = layout::signature_type(signature_type);
    let to = states::state_for(next, t);
    let root = root_given(root);
    coordinator::can_move_to(s, store, to, root)
}

pub fn can_move_to(
    state: &mut [u8],
    store: &[u8],
    next: u8,
    signature_type: u8,
    root: &[u8],
) -> RcAnswer
    ensures { Called (is_saved state.old)
        (moved_turn next signature_type root.now (loaded state.old) store.now)
        state.old [] result state.new store.now [] }
{
    let from = loads::load(state);
    let s = from.state;
    let d = moves(s, store, next, signature_type, root);
    kept::keep(state, from.saved, false, d)
}
