// The host's test program for Bench: replays the script on standard input, a case a line, and prints what the reader, the writers,
// the tests of a response and the table of states answer. docs/BENCH.md says how a line reads; scripts/bench.py, which follows
// documents 01 and 02 and shares no code with the crates, writes the script and the expected output.
#![tactic(auto)]

mod answers;
mod lists;
mod pattern;
mod signer_packets;
mod writes;

use script::lines::{LINE_LENGTH, Line};
use script::{cases, lines, print, tokens};

// Runs the case on a line.
fn run_line(rt: &impl Print, line: &[u8], long: bool, store: &[u8; layout::STORE_LENGTH]) {
    cases::label(rt, line);
    print::text(rt, ": ");
    let mut args = [0u8; tokens::CASE_LENGTH];
    let letter = wire::byte(line, 0);
    match cases::read(line, long, answers::is_letter(letter), &mut args) {
        Ok(made) => answers::run(rt, letter, &args, made, store),
        Err(fault) => cases::tell(rt, &fault),
    }
    print::text(rt, "\n");
}

// A line that has ended is run.
fn run_ended(
    rt: &impl Print,
    line: Line,
    kept: &[u8; LINE_LENGTH],
    store: &[u8; layout::STORE_LENGTH],
) -> Line {
    if !line.ended {
        return line;
    }
    run_line(rt, wire::part(kept, 0, line.len), line.long, store);
    Line::empty()
}

fn run_piece(
    rt: &impl Print,
    piece: &[u8],
    line: Line,
    kept: &mut [u8; LINE_LENGTH],
    store: &[u8; layout::STORE_LENGTH],
) -> Line {
    let mut next = line;
    for part in piece.split_inclusive(|b| *b == b'\n') {
        next = run_ended(rt, next.gather(part, kept), kept, store);
    }
    next
}

// A last line without its newline is a line.
fn finish(
    rt: &impl Print,
    line: Line,
    ended: bool,
    kept: &[u8; LINE_LENGTH],
    store: &[u8; layout::STORE_LENGTH],
) {
    if 0 < line.len {
        run_line(rt, wire::part(kept, 0, line.len), line.long, store);
    }
    lines::finish(rt, ended);
}

fn main(rt: HostRuntime) {
    let store = pattern::store();
    let mut kept = [0u8; LINE_LENGTH];
    let mut piece = [0u8; lines::PIECE_LENGTH];
    let mut reader = rt.reader();
    let mut line = Line::empty();
    let mut ended = false;
    for _ in 0..lines::PIECES {
        let got = lines::read_full(&mut reader, &mut piece);
        line = run_piece(&rt, wire::part(&piece, 0, got), line, &mut kept, &store);
        ended = got < lines::PIECE_LENGTH;
        if ended {
            break;
        }
    }
    finish(&rt, line, ended, &kept, &store);
}
