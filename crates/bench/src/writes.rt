// The writers' cases. Lists come from the store at the places that the coordinator will use: a record's message at 0, each signer's
// key ids and nonces 1,120 bytes apart from 256 on, share lists of 640 bytes from 45,824 on.
use crate::answers;
use body::RequestHead;
use job::{JobPlace, JobPlaces};
use layout::{Ids, SignerId};
use pieces::places::{Arrival, Arrivals, Place, ResponsePlace, ResponsePlaces, SignerIds};
use script::print;
use writer::{dkg, results};

// The ten signers of a case.
const TEN: [u8; layout::SIGNER_LIMIT] = [0, 1, 2, 3, 4, 5, 6, 7, 8, 9];

// A number of a case, in the two bytes at `at`.
fn number(s: &[u8], at: usize) -> usize {
    wire::u16_at(s, at) as usize
}

fn head(s: &[u8]) -> RequestHead {
    RequestHead {
        ids: Ids {
            dkg_id: 1,
            sign_id: 2,
            sign_iter_id: 3,
        },
        signature_type: layout::signature_type(wire::byte(s, 0)),
        root: [0x17u8; layout::ROOT_LENGTH],
    }
}

// A list of signer i, which starts `from` bytes into the signer's record.
fn list(i: u8, from: u16, count: usize) -> Place {
    Place {
        at: 256 + 1120 * (i as usize) + (from as usize),
        count,
    }
}

fn response_place(s: &[u8], i: u8) -> ResponsePlace {
    ResponsePlace {
        ids: Ids {
            dkg_id: 1,
            sign_id: 2 + (i as u64),
            sign_iter_id: 3,
        },
        signer_id: SignerId(i as u32),
        message: Place {
            at: 0,
            count: number(s, 3),
        },
        key_ids: list(i, 0, number(s, 7)),
        nonces: list(i, 64, number(s, 9)),
    }
}

// Ten places, of which some count.
fn response_places(s: &[u8]) -> ResponsePlaces {
    ResponsePlaces {
        places: TEN.map(|i| response_place(s, i)),
        count: number(s, 5),
    }
}

fn job_place(s: &[u8], i: u8) -> JobPlace {
    let shares = 45824 + 640 * (i as usize);
    JobPlace {
        key_ids: list(i, 0, number(s, 7)),
        nonces: list(i, 64, number(s, 7)),
        shares: Place {
            at: shares,
            count: number(s, 9),
        },
        share_keys_at: shares + 576,
        share_key_counts: [wire::byte(s, 11); layout::LIST_LIMIT],
    }
}

fn job_places(s: &[u8]) -> JobPlaces {
    JobPlaces {
        places: TEN.map(|i| job_place(s, i)),
        count: number(s, 5),
    }
}

// Ten signers, of which so many count as the number at `at` says.
fn signers(s: &[u8], at: usize) -> SignerIds {
    SignerIds {
        ids: TEN.map(|i| SignerId(3 * (i as u32))),
        count: number(s, at),
    }
}

// A case's i-th arrival: its signer, then its reading.
fn arrival(s: &[u8], i: u8) -> Arrival {
    let at = 5 + 12 * (i as usize);
    Arrival {
        signer_id: SignerId(wire::u32_at(s, at)),
        clock: wire::u64_at(s, at + 4),
    }
}

fn arrivals(s: &[u8]) -> Arrivals {
    Arrivals {
        arrivals: TEN.map(|i| arrival(s, i)),
        count: number(s, 3),
    }
}

// The packet that a case's letter names.
fn write(
    letter: u8,
    s: &[u8],
    store: &[u8; layout::STORE_LENGTH],
    out: &mut [u8],
) -> Result<usize, u8> {
    let h = head(s);
    let text = wire::part(store, 0, number(s, 3));
    let id = wire::u16_at(s, 3) as u64;
    match letter {
        b'N' => requests::write_nonce_request(out, h, text),
        b'S' => requests::write_signature_share_request(out, h, text, store, response_places(s)),
        b'J' => job::write_job(out, h, text, store, job_places(s)),
        b'T' => results::write_nonce_timeout(out, signers(s, 3), signers(s, 5)),
        b'I' => results::write_insufficient_signers(out, signers(s, 3)),
        b'A' => results::write_arrivals(out, arrivals(s)),
        b'5' => dkg::write_dkg_begin(out, id),
        b'6' => dkg::write_dkg_signer(out, SignerId(wire::u16_at(s, 5) as u32), id),
        _ => dkg::write_dkg_coordinator(out, id),
    }
}

// What the reader says of a packet that it may read.
fn read_back(rt: &impl Print, out: &[u8], n: usize) {
    if wire::byte(out, 0) < 8 {
        print::text(rt, "\n  ");
        answers::read(rt, wire::part(out, 0, n));
    }
}

// The answer, a sum over the whole buffer, and what the reader says of the packet.
pub fn show(rt: &impl Print, w: Result<usize, u8>, out: &[u8]) {
    match w {
        Ok(n) => {
            print::field(rt, "", n as u64);
            print::text(rt, " bytes, ");
            print::sum(rt, out);
            read_back(rt, out, n);
        }
        Err(n) => {
            print::field(rt, "refused ", n as u64);
            print::text(rt, ", ");
            print::sum(rt, out);
        }
    }
}

pub fn tell_buffer(rt: &impl Print) {
    print::text(rt, "not run: no buffer is longer than 19240 bytes");
}

// A buffer eight bytes longer than an answer needs, of which the case lends a part.
pub fn run(rt: &impl Print, letter: u8, s: &[u8], store: &[u8; layout::STORE_LENGTH]) {
    let mut out = [0xaau8; 19240];
    let n = wire::u16_at(s, 1) as usize;
    if 19240 < n {
        tell_buffer(rt);
        return;
    }
    if 3 < wire::byte(s, 0) {
        print::text(rt, "not run: no signature type is above 3");
        return;
    }
    let part = &mut out[0..n];
    let w = write(letter, s, store, part);
    show(rt, w, part);
}
