// A packet's header and the places of its parts as plain numbers, for a host that has no slices.
#![tactic(auto)]

ghost use Rattle.std.specs.Prelude.{◌≡◌, ◌+◌, ◌≤◌, length, take, drop};
ghost use Rattle.std.specs.Result.{result_unwrap_or};
ghost use Rattle.layout.specs.Decode.{decode};
ghost use Rattle.parts.specs.Parts.{part_in};
ghost use Rattle.packet_in_hand.specs.InHand.{counted};
ghost use Rattle.library_reader.specs.Plain.{plain_header, refused_packet, packet_of, place_in};

use layout::Header;
use packet::reader;
use packet_in_hand::counts;

// refusal: 8 or 9 where the packet is not taken, and then all else is 0.
#[repr(C)]
#[derive(Clone, Copy, Default)]
pub struct RcPacket {
    pub refusal: u32,
    pub kind: u32,
    pub signature_type: u32,
    pub pairs: u32,
    pub signer_id: u32,
    pub reserved: u32,
    pub dkg_id: u64,
    pub sign_id: u64,
    pub sign_iter_id: u64,
}

// Where a part begins in its packet, and how long it is.
#[repr(C)]
#[derive(Clone, Copy)]
pub struct RcPart {
    pub at: u64,
    pub length: u64,
}

fn plain_header(h: Header) -> RcPacket
    ensures { result ≡ plain_header h }
{
    RcPacket {
        refusal: 0,
        kind: h.kind as u32,
        signature_type: h.signature_type as u32,
        pairs: h.pairs as u32,
        signer_id: h.signer_id,
        reserved: 0,
        dkg_id: h.ids.dkg_id,
        sign_id: h.ids.sign_id,
        sign_iter_id: h.ids.sign_iter_id,
    }
}

fn refused_packet(n: u8) -> RcPacket
    ensures { result ≡ refused_packet n }
{
    RcPacket {
        refusal: n as u32,
        ..RcPacket::default()
    }
}

// Questions 8 and 9, and the header.
#[tactic(auto, using(crate::proofs::Plain::told_header, crate::proofs::Plain::told_refusal))]
pub fn read_packet(s: &[u8]) -> RcPacket
    ensures { result ≡ packet_of (decode s.now) }
{
    match reader::read(s) {
        Ok(h) => plain_header(h),
        Err(n) => refused_packet(n),
    }
}

// Part i of a packet that is taken, inside it; nothing where there is none.
pub fn packet_part(s: &[u8], i: u16) -> RcPart
    ensures { (result ≡ place_in s.now (result_unwrap_or (counted (decode s.now)) 0) i)
        × (take result.length (drop result.at s.now) ≡ part_in s.now (result_unwrap_or (counted (decode s.now)) 0) i)
        × (result.at + result.length ≤ length s.now) }
{
    let pairs = counts::count_pairs(s).unwrap_or(0);
    if i < pairs {
        let p = layout::HEADER_LENGTH + layout::PAIR_LENGTH * (i as usize);
        RcPart {
            at: wire::u32_at(s, p) as u64,
            length: wire::u32_at(s, p + 4) as u64,
        }
    } else {
        RcPart { at: 0, length: 0 }
    }
}
