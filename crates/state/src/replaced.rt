// What a call puts in the place of the last: a message, and no shares.
ghost use Rattle.std.specs.Prelude.{◌≡◌};
ghost use Rattle.state.specs.Replaced.{message_with, none_held};

use crate::fields::{Message, ShareSlot, Shares};
use layout::{LIST_LIMIT, SIGNER_LIMIT};

// The message's bytes over the old ones; those past it stay.
pub fn with_message(old: Message, message: &[u8]) -> Message
    ensures { result ≡ message_with message.now old }
{
    let mut bytes = old.bytes;
    wire::copy(&mut bytes, 0, message);
    Message {
        bytes,
        len: message.len(),
    }
}

pub fn no_shares() -> Shares
    ensures { result ≡ none_held }
{
    let empty = ShareSlot {
        held: false,
        count: 0,
        key_counts: [0; LIST_LIMIT],
    };
    Shares {
        slots: [empty; SIGNER_LIMIT],
    }
}
