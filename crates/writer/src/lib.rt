// Packets of a header and perhaps lists of signers, written, each into a lent buffer whose bytes past the packet stay as they were: kinds
// 5, 6 and 7, and the results that are packets (33 to 35).
#![tactic(auto)]

pub mod dkg;
pub mod results;

use layout::Ids;

// The ids of a packet that has none of its own.
pub const NO_IDS: Ids = Ids {
    dkg_id: 0,
    sign_id: 0,
    sign_iter_id: 0,
};
