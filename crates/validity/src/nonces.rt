// Nonce validity, by bytes: neither point of a nonce is the identity or the generator. The host vouches for other points.
ghost use Rattle.std.specs.Prelude.{◌≡◌, ◌*◌, ◌/◌, length, take, drop};
ghost use Rattle.std.specs.List.{list_all, range_with_len};
ghost use Rattle.validity.specs.Nonces.{valid_point, valid_nonce, nonces_valid};
ghost use Rattle.layout.specs.Decode.{nonce_in, nonces_in};

const IDENTITY: [u8; layout::POINT_LENGTH] = [0; layout::POINT_LENGTH];

const GENERATOR: [u8; layout::POINT_LENGTH] = [
    0x02, 0x79, 0xBE, 0x66, 0x7E, 0xF9, 0xDC, 0xBB, 0xAC, 0x55, 0xA0, 0x62, 0x95, 0xCE, 0x87, 0x0B,
    0x07, 0x02, 0x9B, 0xFC, 0xDB, 0x2D, 0xCE, 0x28, 0xD9, 0x59, 0xF2, 0x81, 0x5B, 0x16, 0xF8, 0x17,
    0x98,
];

#[tactic(auto, unfolding(crate::specs::Nonces::valid_point))]
fn is_valid_point(s: &[u8]) -> bool
    ensures { result ≡ valid_point s.now }
{
    !wire::same(s, &IDENTITY) && !wire::same(s, &GENERATOR)
}

// A nonce: D, then E.
#[tactic(auto, using(crate::proofs::Chunks::whole), unfolding(crate::specs::Nonces::valid_nonce, layout::specs::Decode::nonce_in))]
fn is_valid_nonce(s: &[u8]) -> bool
    ensures { result ≡ valid_nonce (nonce_in s.now) }
{
    is_valid_point(wire::part(s, 0, layout::POINT_LENGTH))
        && is_valid_point(wire::part(s, layout::POINT_LENGTH, s.len()))
}

// Whether the nonce in each whole entry is valid.
fn is_each_valid(s: &[u8]) -> bool
    ensures { result ≡ list_all (λ i. valid_nonce (nonce_in (take 66 (drop (66 * i) s.now)))) (range_with_len 0 (length s.now / 66)) }
{
    let count = s.len() / layout::NONCE_LENGTH;
    (0..count).all(|i| is_valid_nonce(wire::part(
        s,
        layout::NONCE_LENGTH * i,
        layout::NONCE_LENGTH,
    )))
}

// Every nonce of a list is valid; a list's nonces are its whole entries. They are counted, since what std promises of `chunks_exact`
// names no list of them.
pub fn are_valid(s: &[u8]) -> bool
    ensures { result ≡ nonces_valid (nonces_in s.now) }
{
    is_each_valid(s)
}
