// The script's lines, put together from the pieces in which it is read.
ghost use Rattle.std.specs.Prelude.{◌≤◌, length};

use crate::print;
use std::io::Read;

pub const LINE_LENGTH: usize = 8192;

// The script is read in pieces of 4,096 bytes, at most so many of them: 2 ^ 44 bytes in all.
pub const PIECE_LENGTH: usize = 4096;

pub const PIECES: u64 = 0x1_0000_0000;

// Reads until the piece is full, the input ends or a read fails: how many bytes the piece has then. A `while`, because each read says
// how far it came.
pub fn read_full(reader: &mut impl Read, piece: &mut [u8; PIECE_LENGTH]) -> usize
    ensures { result ≤ length piece.new }
{
    let mut done: usize = 0;
    while done < PIECE_LENGTH {
        let got = reader.read(&mut piece[done..]).unwrap_or(0);
        if got == 0 {
            return done;
        }
        done += got;
    }
    done
}

// The bytes from a up to b, as many of them as there are.
pub fn from_to(s: &[u8], a: usize, b: usize) -> &[u8] {
    wire::part(s, a, b.saturating_sub(a))
}

// A line as far as it is read: how many of its bytes are kept, whether there are more, and whether its newline has come.
#[derive(Clone, Copy)]
pub struct Line {
    pub len: usize,
    pub long: bool,
    pub ended: bool,
}

impl Line {
    pub fn empty() -> Line {
        Line {
            len: 0,
            long: false,
            ended: false,
        }
    }

    // With the next bytes of a piece, of which the last is the newline where the line ends. What finds no room is not kept.
    pub fn gather(self, part: &[u8], kept: &mut [u8; LINE_LENGTH]) -> Line {
        let ended = part.last() == Some(&b'\n');
        let more = if ended { &part[..part.len() - 1] } else { part };
        let room = LINE_LENGTH.saturating_sub(self.len);
        wire::copy(kept, self.len, more);
        Line {
            len: self.len.saturating_add(more.len().min(room)),
            long: self.long || room < more.len(),
            ended,
        }
    }
}

// After 2 ^ 44 bytes.
pub fn finish(rt: &impl Print, ended: bool) {
    if !ended {
        print::text(rt, "not read: what follows 17592186044416 bytes\n");
    }
}
