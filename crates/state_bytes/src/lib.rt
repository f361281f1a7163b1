// The coordinator's state as bytes: where each field stands. What stands there is described in specs/.

// A struct's first field stands at its beginning; each other as many bytes after it as the fields before take. The file is Rust too: the
// comparison with fire.rs includes it.
use layout::{LIST_LIMIT, MESSAGE_LIMIT, RECORD_LIMIT, ROOT_LENGTH, SIGNER_LIMIT};

// The version that a saved state says.
pub const VERSION: u64 = 2;

// The bytes of a flag or a number below 256, of a u32, of a u64 or a usize.
pub const ONE: usize = 1;

pub const FOUR: usize = 4;

pub const EIGHT: usize = 8;

// A clock reading or a timeout: whether there is one, its nanoseconds.
pub const NANOSECONDS: usize = ONE;

pub const READING_BYTES: usize = NANOSECONDS + EIGHT;

// Five timeouts: dkg_public, dkg_private, dkg_end, nonce, sign.
pub const DKG_PRIVATE_TIMEOUT: usize = READING_BYTES;

pub const DKG_END_TIMEOUT: usize = DKG_PRIVATE_TIMEOUT + READING_BYTES;

pub const NONCE_TIMEOUT: usize = DKG_END_TIMEOUT + READING_BYTES;

pub const SIGN_TIMEOUT: usize = NONCE_TIMEOUT + READING_BYTES;

pub const TIMEOUTS_BYTES: usize = SIGN_TIMEOUT + READING_BYTES;

pub const TIMEOUT_COUNT: usize = TIMEOUTS_BYTES / READING_BYTES;

// A signer: id, has_keys, its key ids and how many of them count.
pub const KEY_BYTES: usize = FOUR;

pub const HAS_KEYS: usize = FOUR;

pub const KEY_IDS: usize = HAS_KEYS + ONE;

pub const KEY_COUNT: usize = KEY_IDS + KEY_BYTES * LIST_LIMIT;

pub const SIGNER_BYTES: usize = KEY_COUNT + EIGHT;

// A configuration: num_signers, num_keys, the three thresholds, timeouts, signers and how many of them count, verify_packet_sigs.
pub const NUM_KEYS: usize = FOUR;

pub const THRESHOLD: usize = NUM_KEYS + FOUR;

pub const DKG_THRESHOLD: usize = THRESHOLD + FOUR;

pub const SIGN_THRESHOLD: usize = DKG_THRESHOLD + FOUR;

pub const TIMEOUTS: usize = SIGN_THRESHOLD + FOUR;

pub const SIGNERS: usize = TIMEOUTS + TIMEOUTS_BYTES;

pub const SIGNER_COUNT: usize = SIGNERS + SIGNER_BYTES * SIGNER_LIMIT;

pub const VERIFY_PACKET_SIGS: usize = SIGNER_COUNT + EIGHT;

pub const CONFIG_BYTES: usize = VERIFY_PACKET_SIGS + ONE;

// Three ids: dkg_id, sign_id, sign_iter_id.
pub const SIGN_ID: usize = EIGHT;

pub const SIGN_ITER_ID: usize = SIGN_ID + EIGHT;

pub const IDS_BYTES: usize = SIGN_ITER_ID + EIGHT;

// A position: the state's number, its type's, the root.
pub const SIGNATURE_TYPE: usize = ONE;

pub const ROOT: usize = SIGNATURE_TYPE + ONE;

pub const POSITION_BYTES: usize = ROOT + ROOT_LENGTH;

// A message: its bytes and how many of them count.
pub const MESSAGE_LEN: usize = MESSAGE_LIMIT;

pub const MESSAGE_BYTES: usize = MESSAGE_LEN + EIGHT;

// A response slot: held, waits, ids, how many key ids, how many nonces, the clock reading of its call.
pub const WAITS: usize = ONE;

pub const SLOT_IDS: usize = WAITS + ONE;

pub const SLOT_KEY_IDS: usize = SLOT_IDS + IDS_BYTES;

pub const SLOT_NONCES: usize = SLOT_KEY_IDS + EIGHT;

pub const SLOT_CLOCK: usize = SLOT_NONCES + EIGHT;

pub const SLOT_BYTES: usize = SLOT_CLOCK + EIGHT;

// A record: the length of its message, a slot for each signer. Then all records, and how many of them count.
pub const SLOTS: usize = EIGHT;

pub const ROW_BYTES: usize = SLOTS + SLOT_BYTES * SIGNER_LIMIT;

pub const ROW_COUNT: usize = ROW_BYTES * RECORD_LIMIT;

pub const RECORDS_BYTES: usize = ROW_COUNT + EIGHT;

// A signer's shares: held, how many, how many key ids each has.
pub const SHARE_COUNT: usize = ONE;

pub const KEY_COUNTS: usize = SHARE_COUNT + EIGHT;

pub const SHARE_BYTES: usize = KEY_COUNTS + LIST_LIMIT;

// Marks: ended, malicious, a flag each for each signer.
pub const MALICIOUS: usize = ONE * SIGNER_LIMIT;

pub const MARKS_BYTES: usize = MALICIOUS + ONE * SIGNER_LIMIT;

// Two clocks: nonce_start, sign_start.
pub const SIGN_START: usize = READING_BYTES;

pub const CLOCKS_BYTES: usize = SIGN_START + READING_BYTES;

pub const CLOCK_COUNT: usize = CLOCKS_BYTES / READING_BYTES;

// Two held keys: coordinator, aggregate.
pub const AGGREGATE: usize = ONE;

pub const KEYS_BYTES: usize = AGGREGATE + ONE;

// The whole: the mark of eight bytes, the version, then the coordinator's fields, and zeros to a multiple of eight.
pub const VERSION_START: usize = EIGHT;

pub const COMMISSIONED_START: usize = VERSION_START + EIGHT;

pub const CONFIG_START: usize = COMMISSIONED_START + ONE;

pub const IDS_START: usize = CONFIG_START + CONFIG_BYTES;

pub const POSITION_START: usize = IDS_START + IDS_BYTES;

pub const MESSAGE_START: usize = POSITION_START + POSITION_BYTES;

pub const RECORDS_START: usize = MESSAGE_START + MESSAGE_BYTES;

pub const SHARES_START: usize = RECORDS_START + RECORDS_BYTES;

pub const MARKS_START: usize = SHARES_START + SHARE_BYTES * SIGNER_LIMIT;

pub const CLOCKS_START: usize = MARKS_START + MARKS_BYTES;

pub const KEYS_START: usize = CLOCKS_START + CLOCKS_BYTES;

pub const JOB_START: usize = KEYS_START + KEYS_BYTES;

pub const ZEROS_START: usize = JOB_START + ONE;

pub const ZEROS: usize = 6;

pub const STATE_LENGTH: usize = ZEROS_START + ZEROS;
