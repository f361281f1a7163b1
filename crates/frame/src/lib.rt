// The frame of a packet, read: its header, its pairs, and the part that a pair names. Each is defined for every slice.
#![tactic(auto)]

ghost use Rattle.std.specs.Prelude.{◌≡◌, ◌+◌, ◌*◌, ◌<◌};
ghost use Rattle.wire.specs.Bytes.{number_at};
ghost use Rattle.layout.specs.LaidOut.{header_in, part_at, tiles, dkg_only, headed, framed};

use layout::{Header, Ids};

pub fn header(s: &[u8]) -> Header
    ensures { result ≡ header_in s.now }
{
    Header {
        kind: wire::byte(s, 0),
        signature_type: wire::byte(s, 1),
        pairs: wire::u16_at(s, 2),
        signer_id: wire::u32_at(s, 4),
        ids: Ids {
            dkg_id: wire::u64_at(s, 8),
            sign_id: wire::u64_at(s, 16),
            sign_iter_id: wire::u64_at(s, 24),
        },
    }
}

// What pair i says: where its part begins, and how long it is.
fn pair_at(s: &[u8], i: u16) -> (usize, usize)
    ensures { (result.0 ≡ number_at 4 (32 + 8 * i) s.now) × (result.1 ≡ number_at 4 (32 + 8 * i + 4) s.now) × (result.1 < 0x1_0000_0000) }
{
    let p = layout::HEADER_LENGTH + layout::PAIR_LENGTH * (i as usize);
    (wire::u32_at(s, p) as usize, wire::u32_at(s, p + 4) as usize)
}

// Whether the pairs name parts that follow each other to the packet's end. An offset past the end reads as 0 and ends the loop, so
// the work is at most the packet's length whatever the count says.
#[tactic(auto, using(crate::proofs::Pairs::tiles_next, crate::proofs::Pairs::tiles_not, crate::proofs::Pairs::tiles_end))]
pub fn tiled(s: &[u8], pairs: u16) -> bool
    ensures { result ≡ tiles s.now 32 pairs (32 + 8 * pairs) }
{
    let mut at = layout::HEADER_LENGTH + layout::PAIR_LENGTH * (pairs as usize);
    for i in 0..pairs {
        let (offset, len) = pair_at(s, i);
        if offset != at {
            return false;
        }
        at += len;
    }
    at == s.len()
}

// The part that pair i names.
#[tactic(auto, unfolding(layout::specs::LaidOut::part_at))]
pub fn part_at(s: &[u8], i: u16) -> &[u8]
    ensures { result.now ≡ part_at s.now (32 + 8 * i) }
{
    let (offset, len) = pair_at(s, i);
    wire::part(s, offset, len)
}

// A header with nothing but a dkg id and perhaps a signer.
#[tactic(auto, unfolding(layout::specs::LaidOut::dkg_only))]
fn dkg_only(h: Header) -> bool
    ensures { result ≡ dkg_only h }
{
    h.signature_type == 0 && h.pairs == 0 && h.ids.sign_id == 0 && h.ids.sign_iter_id == 0
}

// Kind 1 to 7, the fields that the kind lacks 0, a type at most 3, the kind's number of pairs.
#[tactic(auto, unfolding(layout::specs::LaidOut::headed))]
fn is_headed(h: Header) -> bool
    ensures { result ≡ headed h }
{
    match h.kind {
        1 => h.signer_id == 0 && h.signature_type <= 3 && h.pairs == 2,
        2 => h.signature_type == 0 && h.pairs == 3,
        3 => h.signer_id == 0 && h.signature_type <= 3 && 2 <= h.pairs,
        4 => h.signature_type == 0,
        5 | 7 => h.signer_id == 0 && dkg_only(h),
        6 => dkg_only(h),
        _ => false,
    }
}

// A header in order, and pairs that tile the packet.
#[tactic(auto, unfolding(layout::specs::LaidOut::framed))]
pub fn is_framed(s: &[u8]) -> bool
    ensures { result ≡ framed s.now }
{
    if s.len() < layout::HEADER_LENGTH {
        return false;
    }
    let h = header(s);
    is_headed(h) && tiled(s, h.pairs)
}
