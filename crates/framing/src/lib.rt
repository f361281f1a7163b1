// The frame of a packet, written: the header and a pair. Nothing is written past the buffer's end.
#![tactic(auto)]

ghost use Rattle.std.specs.Prelude.{◌≡◌, true, false, ◌++◌, ◌+◌, ◌^◌, ◌≤◌, ◌<◌, length, MatchResult};
ghost use Rattle.wire.specs.Bytes.{le, put};
ghost use Rattle.layout.specs.Encode.{header_bytes, header_of};
ghost use Rattle.layout.specs.Limits.{answer_length};

use layout::{Header, Ids};

// What every writer of an answer asks: 7 where the buffer is shorter than an answer may be, then 9 where a limit is passed.
pub fn room(out: &[u8]) -> Result<(), u8>
    ensures { MatchResult result (λ _. answer_length ≤ length out.now) (λ e. (e ≡ 7) × (length out.now < answer_length)) }
{
    if out.len() < layout::ANSWER_LENGTH {
        Err(7)
    } else {
        Ok(())
    }
}

pub fn limits(fine: bool) -> Result<(), u8>
    ensures { MatchResult result (λ _. fine ≡ true) (λ e. (e ≡ 9) × (fine ≡ false)) }
{
    if fine { Ok(()) } else { Err(9) }
}

// A header without signature type and signer, which a kind that has them puts in by struct update.
pub fn header(kind: u8, pairs: u16, ids: Ids) -> Header
    ensures { result ≡ header_of kind 0 pairs 0 ids }
{
    Header {
        kind,
        signature_type: 0,
        pairs,
        signer_id: 0,
        ids,
    }
}

// Compiled into each writer: one that has asked for room knows the length, and its seven numbers are written without a test.
#[inline(always)]
pub fn put_header(out: &mut [u8], h: Header)
    ensures { out.new ≡ put out.old 0 (header_bytes h) }
{
    wire::put_number(out, 0, 1, h.kind as u64);
    wire::put_number(out, 1, 1, h.signature_type as u64);
    wire::put_number(out, 2, 2, h.pairs as u64);
    wire::put_number(out, 4, 4, h.signer_id as u64);
    wire::put_number(out, 8, 8, h.ids.dkg_id);
    wire::put_number(out, 16, 8, h.ids.sign_id);
    wire::put_number(out, 24, 8, h.ids.sign_iter_id);
}

// Where the next pair goes, and where its part begins.
#[derive(Clone, Copy)]
pub struct Cursor {
    pub pair: usize,
    pub at: usize,
}

impl Cursor {
    // The pair of a part of `len` bytes: its offset and its length. Gives the place after it.
    pub fn put(self, out: &mut [u8], len: usize) -> Cursor
        requires { (self.pair < 2 ^ 32) × (self.at < 2 ^ 32) × (len < 2 ^ 32) }
        ensures { (result.pair ≡ self.pair + 8) × (result.at ≡ self.at + len)
            × (out.new ≡ put out.old self.pair (le 4 self.at ++ le 4 len)) }
    {
        wire::put_number(out, self.pair, 4, self.at as u64);
        wire::put_number(out, self.pair + 4, 4, len as u64);
        Cursor {
            pair: self.pair + layout::PAIR_LENGTH,
            at: self.at + len,
        }
    }
}
