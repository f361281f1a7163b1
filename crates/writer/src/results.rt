// Results that are packets: NonceTimeout (kind 33), InsufficientSigners (kind 34) and when each signer answered (kind 35).
ghost use Rattle.std.specs.Prelude.{◌≡◌, ◌+◌, ◌*◌, ◌≤◌, length};
ghost use Rattle.wire.specs.Bytes.{put};
ghost use Rattle.layout.specs.Limits.{signer_limit, answer_length};
ghost use Rattle.layout.specs.Encode.{header_bytes, header_of, no_ids, id_bytes};
ghost use Rattle.framing.specs.Writing.{Wrote};
ghost use Rattle.pieces.specs.Places.{signers_of, arrival_of, arrivals_of};
ghost use Rattle.writer.specs.Columns.{width, column_of, column_bytes};
ghost use Rattle.writer.specs.Results.{write_nonce_timeout, write_insufficient_signers, write_arrivals};

use crate::NO_IDS;
use framing::Cursor;
use pieces::places::{Arrival, Arrivals, SignerIds};

// The bytes of a clock reading.
const CLOCK_LENGTH: usize = 8;

// Which of an arrival's two numbers a part lists. An enum and no closure, since the contract of a column names it by this.
#[derive(Clone, Copy)]
pub enum Column {
    Signers,
    Clocks,
}

impl Column {
    fn width(self) -> usize
        ensures { result ≡ width self }
    {
        match self {
            Column::Signers => layout::ID_LENGTH,
            Column::Clocks => CLOCK_LENGTH,
        }
    }

    fn number(self, a: &Arrival) -> u64
        ensures { result ≡ column_of self (arrival_of a.now) }
    {
        match self {
            Column::Signers => a.signer_id.0 as u64,
            Column::Clocks => a.clock,
        }
    }
}

// A list of signer ids at `at`, four bytes each.
fn put_signers(out: &mut [u8], at: usize, list: &SignerIds)
    requires { (list.now.count ≤ signer_limit) × (at ≤ answer_length) }
    ensures { out.new ≡ put out.old at (id_bytes (signers_of list.now)) }
{
    for (i, signer) in list.live().iter().enumerate() {
        wire::put_number(
            out,
            at + layout::ID_LENGTH * i,
            layout::ID_LENGTH,
            signer.0 as u64,
        );
    }
}

// A column of the arrivals at `at`.
fn put_column(out: &mut [u8], at: usize, column: Column, list: &Arrivals)
    requires { (list.now.count ≤ signer_limit) × (at ≤ answer_length) }
    ensures { out.new ≡ put out.old at (column_bytes column (arrivals_of list.now)) }
{
    let w = column.width();
    let mut next = at;
    for a in list.live() {
        wire::put_number(out, next, w, column.number(a));
        next += w;
    }
}

// The header of a result: nothing but its kind and its pairs. Gives the place of the first pair and of its part. Compiled into each writer,
// as `put_header` is.
#[inline(always)]
fn put_result_header(out: &mut [u8], kind: u8, pairs: u16) -> Cursor
    requires { pairs ≤ 2 }
    ensures { (result.pair ≡ 32) × (result.at ≡ 32 + 8 * pairs)
        × (out.new ≡ put out.old 0 (header_bytes (header_of kind 0 pairs 0 no_ids))) }
{
    framing::put_header(out, framing::header(kind, pairs, NO_IDS));
    Cursor {
        pair: layout::HEADER_LENGTH,
        at: layout::HEADER_LENGTH + layout::PAIR_LENGTH * (pairs as usize),
    }
}

// Kind 33.
pub fn write_nonce_timeout(
    out: &mut [u8],
    waiters: SignerIds,
    malicious: SignerIds,
) -> Result<usize, u8>
    ensures { Wrote (write_nonce_timeout (length out.old) waiters malicious) out.old result out.new }
{
    framing::room(out)?;
    framing::limits(waiters.count <= layout::SIGNER_LIMIT)?;
    framing::limits(malicious.count <= layout::SIGNER_LIMIT)?;
    let first = put_result_header(out, 33, 2);
    let second = first.put(out, layout::ID_LENGTH * waiters.count);
    let end = second.put(out, layout::ID_LENGTH * malicious.count);
    put_signers(out, first.at, &waiters);
    put_signers(out, second.at, &malicious);
    Ok(end.at)
}

// Kind 34.
pub fn write_insufficient_signers(out: &mut [u8], malicious: SignerIds) -> Result<usize, u8>
    ensures { Wrote (write_insufficient_signers (length out.old) malicious) out.old result out.new }
{
    framing::room(out)?;
    framing::limits(malicious.count <= layout::SIGNER_LIMIT)?;
    let first = put_result_header(out, 34, 1);
    let end = first.put(out, layout::ID_LENGTH * malicious.count);
    put_signers(out, first.at, &malicious);
    Ok(end.at)
}

// Kind 35.
pub fn write_arrivals(out: &mut [u8], list: Arrivals) -> Result<usize, u8>
    ensures { Wrote (write_arrivals (length out.old) list) out.old result out.new }
{
    framing::room(out)?;
    framing::limits(list.count <= layout::SIGNER_LIMIT)?;
    let first = put_result_header(out, 35, 2);
    let second = first.put(out, layout::ID_LENGTH * list.count);
    let end = second.put(out, CLOCK_LENGTH * list.count);
    put_column(out, first.at, Column::Signers, &list);
    put_column(out, second.at, Column::Clocks, &list);
    Ok(end.at)
}
