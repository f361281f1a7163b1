// The types of 01's packet layout. The layout itself is in specs/: what a message is, how it is encoded and decoded.
#![tactic(auto)]

ghost use Rattle.std.specs.Prelude.{◌≡◌};
ghost use Rattle.layout.specs.Types.{type_number, type_of, result_of, signer_kind, root_length};

// 01's limits: of a message's bytes, of a response's lists, of signers; and the lengths of the two lent buffers. Contracts cite them by
// their names in specs/Limits.antt.
pub const MESSAGE_LIMIT: usize = 256;

pub const LIST_LIMIT: usize = 16;

pub const SIGNER_LIMIT: usize = 10;

pub const RECORD_LIMIT: usize = 4;

pub const STORE_LENGTH: usize = 52224;

pub const ANSWER_LENGTH: usize = 19232;

// The bytes of a header, of a pair, of an id in a list, of a point, of a nonce (two points), of a root, of a scalar, and of a share before
// its key ids (an id and a scalar).
pub const HEADER_LENGTH: usize = 32;

pub const PAIR_LENGTH: usize = 8;

pub const ID_LENGTH: usize = 4;

pub const POINT_LENGTH: usize = 33;

pub const NONCE_LENGTH: usize = 66;

pub const ROOT_LENGTH: usize = 32;

pub const SCALAR_LENGTH: usize = 32;

pub const SHARE_LENGTH: usize = 36;

// A signer's number and a key's number are both u32; no lookup takes the other kind.
#[derive(Clone, Copy, PartialEq, Eq, Debug)]
pub struct SignerId(pub u32);

#[derive(Clone, Copy, PartialEq, Eq, Debug)]
pub struct KeyId(pub u32);

// net.rs: SignatureType. The root of TaprootRoot lies beside it.
#[derive(Clone, Copy, PartialEq, Eq, Debug)]
pub enum SignatureType {
    Frost,
    Schnorr,
    Taproot,
    TaprootRoot,
}

// state_machine/mod.rs: the results of a finished signing round (OperationResult), without the signature that the host keeps.
#[derive(Clone, Copy, PartialEq, Eq, Debug)]
pub enum ResultKind {
    Sign,
    SignSchnorr,
    SignTaproot,
}

// The three numbers of a signing round.
#[derive(Clone, Copy, PartialEq, Eq, Debug)]
pub struct Ids {
    pub dkg_id: u64,
    pub sign_id: u64,
    pub sign_iter_id: u64,
}

// The first 32 bytes of a packet.
#[derive(Clone, Copy, PartialEq, Eq, Debug)]
pub struct Header {
    pub kind: u8,
    pub signature_type: u8,
    pub pairs: u16,
    pub signer_id: u32,
    pub ids: Ids,
}

// The number of a type in byte 1.
pub fn type_number(t: SignatureType) -> u8
    ensures { result ≡ type_number t }
{
    match t {
        SignatureType::Frost => 0,
        SignatureType::Schnorr => 1,
        SignatureType::Taproot => 2,
        SignatureType::TaprootRoot => 3,
    }
}

// The type that a number at most 3 stands for.
#[tactic(auto, unfolding(crate::specs::Types::type_of))]
pub fn signature_type(n: u8) -> SignatureType
    ensures { result ≡ type_of n }
{
    match n {
        0 => SignatureType::Frost,
        1 => SignatureType::Schnorr,
        2 => SignatureType::Taproot,
        _ => SignatureType::TaprootRoot,
    }
}

// The bytes of a root: 32 for type 3, else none.
#[tactic(auto, unfolding(crate::specs::Types::root_length))]
pub fn root_length(n: u8) -> usize
    ensures { result ≡ root_length n }
{
    if n == 3 { ROOT_LENGTH } else { 0 }
}

// What a finished round of this type gives.
pub fn result_kind(t: SignatureType) -> ResultKind
    ensures { result ≡ result_of t }
{
    match t {
        SignatureType::Frost => ResultKind::Sign,
        SignatureType::Schnorr => ResultKind::SignSchnorr,
        SignatureType::Taproot | SignatureType::TaprootRoot => ResultKind::SignTaproot,
    }
}

// net.rs, Packet::verify: whether a signer's key tests this kind, or the coordinator's. A case for each kind, with the messages of net.rs
// that it stands for.
pub fn is_signer_kind(kind: u8) -> bool
    ensures { result ≡ signer_kind kind }
{
    match kind {
        // NonceRequest
        1 => false,
        // NonceResponse
        2 => true,
        // SignatureShareRequest
        3 => false,
        // SignatureShareResponse
        4 => true,
        // DkgBegin
        5 => false,
        // DkgPublicShares, DkgPublicSharesDoneAck, DkgPrivateShares, DkgPrivateSharesDoneAck, DkgEnd
        6 => true,
        // DkgPublicSharesDone, DkgPrivateBegin, DkgPrivateSharesDone, DkgEndBegin
        7 => false,
        // No packet that is read has another number. The promise is over all bytes, and these answer as they always did: even ones yes.
        _ => kind % 2 == 0,
    }
}
