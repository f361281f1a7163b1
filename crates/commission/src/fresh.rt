// The struct as the Rust's `new` gives it: Idle, ids 0, nothing held, nobody malicious.
ghost use Rattle.std.specs.Prelude.{◌≡◌};
ghost use Rattle.commission.specs.Commission.{no_records, no_marks, at_idle, no_message, fresh_with};

use layout::{Ids, MESSAGE_LIMIT, RECORD_LIMIT, ROOT_LENGTH, SIGNER_LIMIT};
use state::fields::{
    Clocks, Config, Coordinator, Keys, Marks, Message, Position, Records, ResponseSlot,
    SignRoundInfo,
};
use state_table::State;

const NO_IDS: Ids = Ids {
    dkg_id: 0,
    sign_id: 0,
    sign_iter_id: 0,
};

#[tactic(auto, unfolding(crate::specs::Commission::no_records))]
fn no_records() -> Records
    ensures { result ≡ no_records }
{
    let slot = ResponseSlot {
        held: false,
        waits: false,
        ids: NO_IDS,
        key_ids: 0,
        nonces: 0,
        clock: 0,
    };
    let row = SignRoundInfo {
        message: 0,
        slots: [slot; SIGNER_LIMIT],
    };
    Records {
        rows: [row; RECORD_LIMIT],
        count: 0,
    }
}

#[tactic(auto, unfolding(crate::specs::Commission::no_marks))]
fn nobody() -> Marks
    ensures { result ≡ no_marks }
{
    Marks {
        ended: [false; SIGNER_LIMIT],
        malicious: [false; SIGNER_LIMIT],
    }
}

#[tactic(auto, unfolding(crate::specs::Commission::no_message))]
fn no_message() -> Message
    ensures { result ≡ no_message }
{
    Message {
        bytes: [0; MESSAGE_LIMIT],
        len: 0,
    }
}

#[tactic(auto, unfolding(crate::specs::Commission::at_idle))]
fn idle() -> Position
    ensures { result ≡ at_idle }
{
    Position {
        state: State::Idle,
        root: [0; ROOT_LENGTH],
    }
}

pub fn fresh(commissioned: bool, config: Config) -> Coordinator
    ensures { result ≡ fresh_with commissioned config }
{
    Coordinator {
        commissioned,
        config,
        ids: NO_IDS,
        position: idle(),
        message: no_message(),
        records: no_records(),
        shares: state::replaced::no_shares(),
        marks: nobody(),
        clocks: Clocks {
            nonce_start: None,
            sign_start: None,
        },
        keys: Keys {
            coordinator: false,
            aggregate: false,
        },
        job: false,
    }
}
