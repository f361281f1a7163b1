// 01's packet in hand: "its bytes with its pair count". Few thin functions over it: each takes it apart and hands on to a function over
// plain parameters, and promises what that one promises. None asks anything: the fields may hold any slice and any count.
#![tactic(auto)]

ghost use Rattle.std.specs.Prelude.{◌≡◌, ◌+◌, ◌*◌};
ghost use Rattle.layout.specs.LaidOut.{header_in, part_at};
ghost use Rattle.parts.specs.Parts.{part_in, MessageOf, RootOf, KeyIdsOf, NoncesOf, NestedOf, ShareOf};
ghost use Rattle.packet_in_hand.specs.InHand.{opened};

use layout::Header;

pub mod counts;

#[derive(Clone, Copy)]
pub struct Packet<'a> {
    pub bytes: &'a [u8],
    pub pairs: u16,
}

// Questions 8 and 9, and the packet in hand; 8 or 9 where the reader refuses it.
#[tactic(auto, unfolding(crate::specs::InHand::opened))]
pub fn open<'a>(s: &'a [u8]) -> Result<Packet<'a>, u8>
    ensures { result ≡ opened s.entry }
{
    let pairs = counts::count_pairs(s)?;
    Ok(Packet { bytes: s, pairs })
}

impl<'a> Packet<'a> {
    pub fn kind(self) -> u8
        ensures { result ≡ (header_in self.entry.bytes.now).kind }
    {
        counts::kind(self.bytes)
    }

    pub fn header(self) -> Header
        ensures { result ≡ header_in self.entry.bytes.now }
    {
        frame::header(self.bytes)
    }

    // Part i, nothing where there is none.
    pub fn part(self, i: u16) -> &'a [u8]
        ensures { result.now ≡ part_in self.entry.bytes.now self.entry.pairs i }
    {
        parts::part(self.bytes, self.pairs, i)
    }

    pub fn message(self) -> &'a [u8]
        ensures { (result.now ≡ part_at self.entry.bytes.now 32) × MessageOf self.entry.bytes.now result.now }
    {
        parts::message(self.bytes)
    }

    pub fn root(self) -> &'a [u8]
        ensures { (result.now ≡ part_at self.entry.bytes.now 40) × RootOf self.entry.bytes.now result.now }
    {
        parts::root(self.bytes)
    }

    pub fn key_ids(self) -> &'a [u8]
        ensures { (result.now ≡ part_at self.entry.bytes.now 40) × KeyIdsOf self.entry.bytes.now result.now }
    {
        parts::key_ids(self.bytes)
    }

    pub fn nonces(self) -> &'a [u8]
        ensures { (result.now ≡ part_at self.entry.bytes.now 48) × NoncesOf self.entry.bytes.now result.now }
    {
        parts::nonces(self.bytes)
    }

    // Response i of a kind 3 packet, in hand with its own count.
    pub fn nested(self, i: u8) -> Packet<'a>
        ensures { (result.bytes.now ≡ part_at self.entry.bytes.now (48 + 8 * i))
            × NestedOf self.entry.bytes.now i result.bytes.now
            × (result.pairs ≡ (header_in result.bytes.now).pairs) }
    {
        let bytes = parts::nested(self.bytes, i);
        Packet {
            bytes,
            pairs: counts::pairs(bytes),
        }
    }

    pub fn share(self, i: u8) -> &'a [u8]
        ensures { (result.now ≡ part_at self.entry.bytes.now (32 + 8 * i)) × ShareOf self.entry.bytes.now i result.now }
    {
        parts::share(self.bytes, i)
    }
}
