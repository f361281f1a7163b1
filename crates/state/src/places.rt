// Where things lie in the lent store: for each record its message and ten responses, keys before nonces; then ten lists of shares, each
// before its key ids.
use layout::MESSAGE_LIMIT;

const KEY_BYTES: usize = 64;

// in a record, where the keys and the nonces of its first response lie
pub const KEYS_START: usize = MESSAGE_LIMIT;

pub const NONCES_START: usize = MESSAGE_LIMIT + KEY_BYTES;

pub const RESPONSE_BYTES: usize = 1120;

pub const RECORD_BYTES: usize = 11456;

// where the first signer's shares lie, how far the next signer's are, and where in them the shares' key ids begin
pub const SHARES_START: usize = 45824;

pub const SHARE_BYTES: usize = 640;

pub const SHARE_KEYS_START: usize = 576;
