// What Site's test programs do: a script of calls is replayed from standard input, a call a line, and each call's answer and the
// coordinator that it left are printed. docs/SITE.md says how a line reads.
#![tactic(auto)]

use script::lines::{LINE_LENGTH, Line};
use script::{cases, lines, print, tokens};
use site_host::host;
use site_host::host::Host;

// The line that is read and what the calls so far have left.
#[derive(Clone, Copy)]
pub struct Progress {
    pub line: Line,
    pub host: Host,
}

fn run_line(
    rt: &impl Print,
    line: &[u8],
    long: bool,
    host: Host,
    store: &mut [u8; layout::STORE_LENGTH],
    out: &mut [u8; layout::ANSWER_LENGTH],
) -> Host {
    let letter = wire::byte(line, 0);
    let mut args = [0u8; tokens::CASE_LENGTH];
    cases::label(rt, line);
    print::text(rt, ": ");
    let next = match cases::read(line, long, site_calls::limits::is_letter(letter), &mut args) {
        Ok(made) => host::run(rt, letter, &args, made, host, store, out),
        Err(fault) => {
            cases::tell(rt, &fault);
            host
        }
    };
    print::text(rt, ". ");
    host::standing(rt, next);
    print::text(rt, "\n");
    next
}

// A heading is printed alone.
fn heading(rt: &impl Print, line: &[u8]) {
    print::text(rt, "== ");
    cases::label(rt, line);
    print::text(rt, "\n");
}

fn run_or_head(
    rt: &impl Print,
    line: &[u8],
    long: bool,
    host: Host,
    store: &mut [u8; layout::STORE_LENGTH],
    out: &mut [u8; layout::ANSWER_LENGTH],
) -> Host {
    if wire::byte(line, 0) == b'H' {
        heading(rt, line);
        host
    } else {
        run_line(rt, line, long, host, store, out)
    }
}

// A line that has ended is run.
fn run_ended(
    rt: &impl Print,
    at: Progress,
    kept: &[u8; LINE_LENGTH],
    store: &mut [u8; layout::STORE_LENGTH],
    out: &mut [u8; layout::ANSWER_LENGTH],
) -> Progress {
    let line = at.line;
    if !line.ended {
        return at;
    }
    let host = run_or_head(
        rt,
        wire::part(kept, 0, line.len),
        line.long,
        at.host,
        store,
        out,
    );
    Progress {
        line: Line::empty(),
        host,
    }
}

fn run_piece(
    rt: &impl Print,
    piece: &[u8],
    at: Progress,
    kept: &mut [u8; LINE_LENGTH],
    store: &mut [u8; layout::STORE_LENGTH],
    out: &mut [u8; layout::ANSWER_LENGTH],
) -> Progress {
    let mut next = at;
    for part in piece.split_inclusive(|b| *b == b'\n') {
        next.line = next.line.gather(part, kept);
        next = run_ended(rt, next, kept, store, out);
    }
    next
}

// A last line without its newline is a line.
fn finish(
    rt: &impl Print,
    at: Progress,
    ended: bool,
    kept: &[u8; LINE_LENGTH],
    store: &mut [u8; layout::STORE_LENGTH],
    out: &mut [u8; layout::ANSWER_LENGTH],
) {
    let line = at.line;
    if 0 < line.len {
        run_or_head(
            rt,
            wire::part(kept, 0, line.len),
            line.long,
            at.host,
            store,
            out,
        );
    }
    lines::finish(rt, ended);
}

// The whole of standard input.
pub fn replay(rt: &(impl Input + Print)) {
    let mut store = [0u8; layout::STORE_LENGTH];
    let mut out = [0u8; layout::ANSWER_LENGTH];
    let mut kept = [0u8; LINE_LENGTH];
    let mut piece = [0u8; lines::PIECE_LENGTH];
    let mut reader = rt.reader();
    let mut at = Progress {
        line: Line::empty(),
        host: host::fresh(),
    };
    let mut ended = false;
    for _ in 0..lines::PIECES {
        let got = lines::read_full(&mut reader, &mut piece);
        at = run_piece(
            rt,
            wire::part(&piece, 0, got),
            at,
            &mut kept,
            &mut store,
            &mut out,
        );
        ended = got < lines::PIECE_LENGTH;
        if ended {
            break;
        }
    }
    finish(rt, at, ended, &kept, &mut store, &mut out);
}
