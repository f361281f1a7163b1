// The parts of a packet in hand, as slices of its bytes. Each contract gives the part's place for every slice, and says which list
// of the message it is where the reader takes the packet.
#![tactic(auto)]

ghost use Rattle.std.specs.Prelude.{◌≡◌, ◌+◌, ◌*◌, take, drop};
ghost use Rattle.wire.specs.Bytes.{number_at};
ghost use Rattle.layout.specs.LaidOut.{part_at};
ghost use Rattle.parts.specs.Parts.{part_in, MessageOf, RootOf, KeyIdsOf, NoncesOf, NestedOf, ShareOf};

// Part i of a packet with so many pairs, nothing where there is none.
pub fn part(s: &[u8], pairs: u16, i: u16) -> &[u8]
    ensures { result.now ≡ part_in s.now pairs i }
{
    if i < pairs { frame::part_at(s, i) } else { &[] }
}

// The message of a kind 1, 2 or 3 packet.
pub fn message(s: &[u8]) -> &[u8]
    ensures { (result.now ≡ part_at s.now 32) × MessageOf s.now result.now }
{
    frame::part_at(s, 0)
}

// The root of a kind 1 or 3 packet: 32 bytes, or none.
pub fn root(s: &[u8]) -> &[u8]
    ensures { (result.now ≡ part_at s.now 40) × RootOf s.now result.now }
{
    frame::part_at(s, 1)
}

// The key ids of a kind 2 packet, four bytes each.
pub fn key_ids(s: &[u8]) -> &[u8]
    ensures { (result.now ≡ part_at s.now 40) × KeyIdsOf s.now result.now }
{
    frame::part_at(s, 1)
}

// The nonces of a kind 2 packet, 66 bytes each.
pub fn nonces(s: &[u8]) -> &[u8]
    ensures { (result.now ≡ part_at s.now 48) × NoncesOf s.now result.now }
{
    frame::part_at(s, 2)
}

// Response i of a kind 3 packet, a kind 2 packet of its own.
pub fn nested(s: &[u8], i: u8) -> &[u8]
    ensures { (result.now ≡ part_at s.now (48 + 8 * i)) × NestedOf s.now i result.now }
{
    frame::part_at(s, (i as u16) + 2)
}

// Share i of a kind 4 packet.
pub fn share(s: &[u8], i: u8) -> &[u8]
    ensures { (result.now ≡ part_at s.now (32 + 8 * i)) × ShareOf s.now i result.now }
{
    frame::part_at(s, i as u16)
}

// The fields of a share, as they stand in its part: id, z_i, key ids (four bytes each).
pub fn share_id(share: &[u8]) -> u32
    ensures { result ≡ number_at 4 0 share.now }
{
    wire::u32_at(share, 0)
}

pub fn share_z_i(share: &[u8]) -> &[u8]
    ensures { result.now ≡ take 32 (drop 4 share.now) }
{
    wire::part(share, layout::ID_LENGTH, layout::SCALAR_LENGTH)
}

pub fn share_key_ids(share: &[u8]) -> &[u8]
    ensures { result.now ≡ drop 36 share.now }
{
    wire::part(share, layout::SHARE_LENGTH, share.len())
}
