// The lists of a response as a signer holds them: numbers as numbers.
ghost use Rattle.std.specs.Prelude.{◌≡◌, ◌≤◌, ◌<◌, length, MatchResult};
ghost use Rattle.wire.specs.Bytes.{put};
ghost use Rattle.layout.specs.Encode.{header_of, id_bytes};

use layout::{Header, Ids, SignerId};

// Who responds, and to which request.
#[derive(Clone, Copy)]
pub struct ResponseHead {
    pub ids: Ids,
    pub signer_id: SignerId,
}

impl ResponseHead {
    // The header of a packet of so many pairs.
    pub fn header(self, kind: u8, pairs: u16) -> Header
        ensures { result ≡ header_of kind 0 pairs self.signer_id.0 self.ids }
    {
        Header {
            signer_id: self.signer_id.0,
            ..framing::header(kind, pairs, self.ids)
        }
    }
}

// The last question of a signer's writers: 26 where the buffer is shorter than the packet.
pub fn room(out: &[u8], end: usize) -> Result<(), u8>
    ensures { MatchResult result (λ _. end ≤ length out.now) (λ e. (e ≡ 26) × (length out.now < end)) }
{
    if out.len() < end { Err(26) } else { Ok(()) }
}

// A list of ids from `at` on, four bytes each.
pub fn put_ids(out: &mut [u8], at: u32, ids: &[u32])
    ensures { out.new ≡ put out.old at (id_bytes ids.now) }
{
    for (i, id) in ids.iter().enumerate() {
        wire::put_number(
            out,
            at as usize + layout::ID_LENGTH * i,
            layout::ID_LENGTH,
            *id as u64,
        );
    }
}
