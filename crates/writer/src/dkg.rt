// Kinds 5, 6 and 7: a header with a dkg id and nothing more.
ghost use Rattle.std.specs.Prelude.{length, true, []};
ghost use Rattle.layout.specs.Messages.{dkg_begin, dkg_signer, dkg_coordinator};
ghost use Rattle.layout.specs.Encode.{header_of, dkg_ids, packet};
ghost use Rattle.framing.specs.Writing.{Wrote, writing, write_message};

use crate::NO_IDS;
use layout::{Header, Ids, SignerId};

fn write_dkg(out: &mut [u8], kind: u8, signer_id: u32, dkg_id: u64) -> Result<usize, u8>
    ensures { Wrote (writing (length out.old) true (packet (header_of kind 0 0 signer_id (dkg_ids dkg_id)) []))
        out.old result out.new }
{
    framing::room(out)?;
    let ids = Ids { dkg_id, ..NO_IDS };
    let header = Header {
        signer_id,
        ..framing::header(kind, 0, ids)
    };
    framing::put_header(out, header);
    Ok(layout::HEADER_LENGTH)
}

pub fn write_dkg_begin(out: &mut [u8], dkg_id: u64) -> Result<usize, u8>
    ensures { Wrote (write_message (length out.old) (dkg_begin dkg_id)) out.old result out.new }
{
    write_dkg(out, 5, 0, dkg_id)
}

pub fn write_dkg_signer(out: &mut [u8], signer_id: SignerId, dkg_id: u64) -> Result<usize, u8>
    ensures { Wrote (write_message (length out.old) (dkg_signer signer_id.0 dkg_id))
        out.old result out.new }
{
    write_dkg(out, 6, signer_id.0, dkg_id)
}

pub fn write_dkg_coordinator(out: &mut [u8], dkg_id: u64) -> Result<usize, u8>
    ensures { Wrote (write_message (length out.old) (dkg_coordinator dkg_id)) out.old result out.new }
{
    write_dkg(out, 7, 0, dkg_id)
}
