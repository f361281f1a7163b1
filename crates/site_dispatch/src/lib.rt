// One call, by its letter.
#![tactic(auto)]

use calls::held_keys::HeldKey;
use site_calls::{arguments, configs};
use state::answers::Done;
use state::fields::Coordinator;

fn set_key(s: Coordinator, store: &[u8], args: &[u8]) -> Done {
    let which = if configs::flag(args, 0) {
        HeldKey::Aggregate
    } else {
        HeldKey::Coordinator
    };
    coordinator::set_key(s, store, which, configs::flag(args, 1))
}

fn with_ended(
    s: Coordinator,
    store: &[u8],
    dkg_id: u64,
    ids: &[u32; arguments::ENDED_PLACES],
    count: usize,
) -> Done {
    coordinator::take_results(s, store, dkg_id, arguments::first(ids, count))
}

fn take_results(s: Coordinator, store: &[u8], args: &[u8]) -> Done {
    let mut ids = [0u32; arguments::ENDED_PLACES];
    let count = arguments::ended(args, &mut ids);
    with_ended(s, store, wire::u64_at(args, 0), &ids, count)
}

fn can_move_to(s: Coordinator, store: &[u8], args: &[u8]) -> Done {
    coordinator::can_move_to(s, store, arguments::state(args), arguments::root(args, 2))
}

fn start(s: Coordinator, store: &[u8], out: &mut [u8], args: &[u8]) -> Done {
    let by = arguments::start(args);
    coordinator::start_signing_round(
        s,
        store,
        out,
        wire::u64_at(args, 0),
        arguments::rest(args, 50),
        by,
    )
}

fn process(s: Coordinator, store: &mut [u8], out: &mut [u8], args: &[u8]) -> Done {
    let clock = wire::u64_at(args, 0);
    let verdict = configs::flag(args, 8);
    coordinator::process(s, store, out, clock, verdict, arguments::rest(args, 9))
}

fn process_message(s: Coordinator, store: &mut [u8], out: &mut [u8], args: &[u8]) -> Done {
    let clock = wire::u64_at(args, 0);
    let verdict = configs::flag(args, 8);
    coordinator::process_message(s, store, out, clock, verdict, arguments::rest(args, 9))
}

fn process_timeout(s: Coordinator, store: &[u8], out: &mut [u8], args: &[u8]) -> Done {
    coordinator::process_timeout(s, store, out, wire::u64_at(args, 0))
}

pub fn call(letter: u8, args: &[u8], s: Coordinator, store: &mut [u8], out: &mut [u8]) -> Done {
    match letter {
        b'C' => coordinator::commission(configs::config(args), store),
        b'K' => set_key(s, store, args),
        b'E' => take_results(s, store, args),
        b'Q' => can_move_to(s, store, args),
        b'S' => start(s, store, out, args),
        b'P' => process(s, store, out, args),
        b'M' => process_message(s, store, out, args),
        b'T' => process_timeout(s, store, out, args),
        b'A' => coordinator::aggregated(s, store, configs::flag(args, 0)),
        b'W' => coordinator::tell_arrivals(s, store, out),
        _ => coordinator::reset(s, store),
    }
}
