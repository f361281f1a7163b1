// What the host keeps between calls: the coordinator, and how much it lends of the store and of the answer buffer.
use script::{cases, print, tokens};
use site_calls::limits;
use site_text::{answers, states};
use state::fields::Coordinator;

#[derive(Clone, Copy)]
pub struct Host {
    pub coordinator: Coordinator,
    pub store: usize,
    pub room: usize,
}

pub fn fresh() -> Host {
    Host {
        coordinator: commission::fresh::fresh(false, configuration::made::blank_config()),
        store: layout::STORE_LENGTH,
        room: layout::ANSWER_LENGTH,
    }
}

pub fn standing(rt: &impl Print, host: Host) {
    states::coordinator(rt, host.coordinator);
}

// Lends so much from now on.
fn lend(rt: &impl Print, host: Host, args: &[u8]) -> Host {
    print::text(rt, "nothing");
    Host {
        store: wire::u32_at(args, 0) as usize,
        room: wire::u32_at(args, 4) as usize,
        ..host
    }
}

// The call, with what is lent, and its answer printed.
fn call(
    rt: &impl Print,
    letter: u8,
    args: &[u8],
    s: Coordinator,
    store: &mut [u8],
    out: &mut [u8],
) -> Coordinator {
    let before = print::sum_of(out);
    let done = site_dispatch::call(letter, args, s, store, out);
    answers::answer(rt, done.answer, before, out);
    done.after
}

fn run_call(
    rt: &impl Print,
    letter: u8,
    args: &[u8],
    host: Host,
    store: &mut [u8],
    out: &mut [u8],
) -> Host {
    if store.len() < host.store || out.len() < host.room {
        return host;
    }
    let lent = &mut store[..host.store];
    let room = &mut out[..host.room];
    let coordinator = call(rt, letter, args, host.coordinator, lent, room);
    Host {
        coordinator,
        ..host
    }
}

// args: a case's bytes, of which the first n count.
pub fn run(
    rt: &impl Print,
    letter: u8,
    args: &[u8; tokens::CASE_LENGTH],
    n: usize,
    host: Host,
    store: &mut [u8; layout::STORE_LENGTH],
    out: &mut [u8; layout::ANSWER_LENGTH],
) -> Host {
    let s = wire::part(args, 0, n);
    if let Err(fault) = limits::taken(letter, s) {
        cases::tell(rt, &fault);
        return host;
    }
    if letter == b'B' {
        return lend(rt, host, s);
    }
    run_call(rt, letter, s, host, store, out)
}
