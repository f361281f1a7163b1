// The coordinator's fields in fixed places: ten signers, four records, sixteen keys. Bytes of messages answered, key ids, nonces and
// shares lie in the lent store.
ghost use Rattle.std.specs.Prelude.{◌≡◌, ◌≤◌, length, take};
ghost use Rattle.layout.specs.Limits.{message_limit, list_limit, signer_limit, record_limit};
ghost use Rattle.state.specs.Counts.{entries};

use layout::{Ids, LIST_LIMIT, MESSAGE_LIMIT, RECORD_LIMIT, SIGNER_LIMIT, SignerId};
use state_table::State;
use validity::keys::KeyIds;

#[derive(Clone, Copy)]
pub struct Timeouts {
    pub dkg_public: Option<u64>,
    pub dkg_private: Option<u64>,
    pub dkg_end: Option<u64>,
    pub nonce: Option<u64>,
    pub sign: Option<u64>,
}

// A configured signer, with or without a key set.
#[derive(Clone, Copy)]
pub struct SignerEntry {
    pub id: SignerId,
    pub has_keys: bool,
    pub keys: KeyIds,
}

#[derive(Clone, Copy)]
pub struct Config {
    pub num_signers: u32,
    pub num_keys: u32,
    pub threshold: u32,
    pub dkg_threshold: u32,
    pub sign_threshold: u32,
    pub timeouts: Timeouts,
    pub signers: [SignerEntry; SIGNER_LIMIT],
    pub count: usize,
    pub verify_packet_sigs: bool,
}

impl Config {
    // The live signers, whatever the count.
    #[tactic(auto, unfolding(crate::specs::Counts::entries))]
    pub fn entries(&self) -> &[SignerEntry]
        ensures { (result.now ≡ entries self.now) × (length result.now ≤ signer_limit) }
    {
        &self.signers[..self.count.min(SIGNER_LIMIT)]
    }
}

// What is known of one signer's response to one message; its lists lie in the store. clock: the reading of the call that brought it.
#[derive(Clone, Copy)]
pub struct ResponseSlot {
    pub held: bool,
    pub waits: bool,
    pub ids: Ids,
    pub key_ids: usize,
    pub nonces: usize,
    pub clock: u64,
}

// The responses to one message, a slot for each configured signer.
#[derive(Clone, Copy)]
pub struct SignRoundInfo {
    pub message: usize,
    pub slots: [ResponseSlot; SIGNER_LIMIT],
}

#[derive(Clone, Copy)]
pub struct Records {
    pub rows: [SignRoundInfo; RECORD_LIMIT],
    pub count: usize,
}

impl Records {
    // The live records, whatever the count.
    pub fn live(&self) -> &[SignRoundInfo]
        ensures { (result.now ≡ take self.now.count self.now.rows) × (length result.now ≤ record_limit) }
    {
        &self.rows[..self.count.min(RECORD_LIMIT)]
    }
}

// One signer's shares: how many, and how many key ids each has.
#[derive(Clone, Copy)]
pub struct ShareSlot {
    pub held: bool,
    pub count: usize,
    pub key_counts: [u8; LIST_LIMIT],
}

impl ShareSlot {
    // How many key ids each of the shares has.
    pub fn live(&self) -> &[u8]
        ensures { (result.now ≡ take self.now.count self.now.key_counts) × (length result.now ≤ list_limit) }
    {
        &self.key_counts[..self.count.min(LIST_LIMIT)]
    }
}

#[derive(Clone, Copy)]
pub struct Shares {
    pub slots: [ShareSlot; SIGNER_LIMIT],
}

// Which signers ended key generation, and which are malicious (01: struck).
#[derive(Clone, Copy)]
pub struct Marks {
    pub ended: [bool; SIGNER_LIMIT],
    pub malicious: [bool; SIGNER_LIMIT],
}

#[derive(Clone, Copy)]
pub struct Position {
    pub state: State,
    pub root: [u8; 32],
}

#[derive(Clone, Copy)]
pub struct Message {
    pub bytes: [u8; MESSAGE_LIMIT],
    pub len: usize,
}

impl Message {
    // The message itself, whatever the length.
    pub fn live(&self) -> &[u8]
        ensures { (result.now ≡ take self.now.len self.now.bytes) × (length result.now ≤ message_limit) }
    {
        &self.bytes[..self.len.min(MESSAGE_LIMIT)]
    }
}

#[derive(Clone, Copy)]
pub struct Clocks {
    pub nonce_start: Option<u64>,
    pub sign_start: Option<u64>,
}

#[derive(Clone, Copy)]
pub struct Keys {
    pub coordinator: bool,
    pub aggregate: bool,
}

// A signer's id and its slot.
#[derive(Clone, Copy)]
pub struct SignerSlot {
    pub id: u32,
    pub slot: usize,
}

#[derive(Clone, Copy)]
pub struct Coordinator {
    pub commissioned: bool,
    pub config: Config,
    pub ids: Ids,
    pub position: Position,
    pub message: Message,
    pub records: Records,
    pub shares: Shares,
    pub marks: Marks,
    pub clocks: Clocks,
    pub keys: Keys,
    pub job: bool,
}
