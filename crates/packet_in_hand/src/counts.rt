// What is read of a slice to hold it as a packet.
ghost use Rattle.std.specs.Prelude.{◌≡◌};
ghost use Rattle.layout.specs.LaidOut.{header_in};
ghost use Rattle.layout.specs.Decode.{decode};
ghost use Rattle.packet_in_hand.specs.InHand.{counted};

use packet::reader;

// The pair count of a packet that is taken; of one that is refused, 8 or 9.
#[tactic(auto, using(crate::proofs::Counted::counted_taken, crate::proofs::Counted::counted_refused))]
pub fn count_pairs(s: &[u8]) -> Result<u16, u8>
    ensures { result ≡ counted (decode s.now) }
{
    Ok(reader::read(s)?.pairs)
}

pub fn kind(s: &[u8]) -> u8
    ensures { result ≡ (header_in s.now).kind }
{
    frame::header(s).kind
}

pub fn pairs(s: &[u8]) -> u16
    ensures { result ≡ (header_in s.now).pairs }
{
    frame::header(s).pairs
}
