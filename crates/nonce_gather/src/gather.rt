// A nonce response: decided, recorded, and where its message's keys suffice, the shares asked for.
ghost use Rattle.std.specs.Prelude.{◌≡◌, length};
ghost use Rattle.state.specs.Turns.{Did};
ghost use Rattle.share_request.specs.Asking.{with_current};
ghost use Rattle.nonce_gather.specs.NonceGather.{ResponseRecorded, record_turn, recorded_turn, NoncesGathering, gather_turn};
ghost use Rattle.records.specs.declared.verdicts.Verdict.TheVariants.{Record};
ghost use Rattle.records.specs.Verdicts.{verdict_of};

use layout::{Ids, SignatureType, SignerId};
use records::verdicts::Verdict;
use records::{records as rows, verdicts};
use share_request::asking;
use state::answers;
use state::answers::{Class, Done};
use state::fields::Coordinator;

fn replaced(s: Coordinator, message: &[u8]) -> Coordinator
    ensures { result ≡ with_current message.now s }
{
    Coordinator {
        message: state::replaced::with_message(s.message, message),
        ..s
    }
}

// A response of `id` has been recorded: do its message's keys suffice, and is the group key held (10)?
fn on_record(
    s: Coordinator,
    store: &[u8],
    out: &mut [u8],
    clock: u64,
    signature_type: SignatureType,
    id: SignerId,
    message: &[u8],
) -> Done
    requires { ResponseRecorded s store.now message.now (length out.old) }
    ensures { Did (record_turn clock signature_type id.0 message.now s store.now)
        out.old result store.now out.new }
{
    let r = rows::place(s.records, store, message);
    let config = s.config;
    let received = key_counts::counts::received_keys(config, s.records.rows[r]);
    if received < (config.sign_threshold as usize) {
        return answers::quiet(s);
    }
    if !s.keys.aggregate {
        return answers::refused(replaced(s, message), 10);
    }
    asking::request_sig_shares(s, store, out, clock, signature_type, r, id, message)
}

// The response of the signer in slot i, put on the record r.
fn put_on_record(
    s: Coordinator,
    store: &mut [u8],
    out: &mut [u8],
    clock: u64,
    signature_type: SignatureType,
    r: usize,
    i: usize,
    ids: Ids,
    id: SignerId,
    message: &[u8],
    key_ids: &[u8],
    nonces: &[u8],
) -> Done
    requires { NoncesGathering s store.old message.now key_ids.now nonces.now (length out.old)
        × (verdict_of s ids id.0 store.old message.now key_ids.now nonces.now ≡ Record r i) }
    ensures { Did (recorded_turn clock signature_type r i ids id.0 message.now key_ids.now
        nonces.now s store.old) out.old result store.new out.new }
{
    let records = rows::add(s.records, store, clock, r, i, ids, message, key_ids, nonces);
    let t = Coordinator { records, ..s };
    on_record(t, store, out, clock, signature_type, id, message)
}

pub fn gather_nonces(
    s: Coordinator,
    store: &mut [u8],
    out: &mut [u8],
    clock: u64,
    signature_type: SignatureType,
    ids: Ids,
    id: SignerId,
    message: &[u8],
    key_ids: &[u8],
    nonces: &[u8],
) -> Done
    requires { NoncesGathering s store.old message.now key_ids.now nonces.now (length out.old) }
    ensures { Did (gather_turn clock signature_type ids id.0 message.now key_ids.now
        nonces.now s store.old) out.old result store.new out.new }
{
    match verdicts::decide(s, store, ids, id, message, key_ids, nonces) {
        Verdict::Wrong(number, got, expected) => answers::mismatched(
            s,
            Class::Error,
            number,
            got,
            expected,
        ),
        Verdict::Full => answers::refused(s, 19),
        Verdict::Nothing => answers::quiet(s),
        Verdict::Record(r, i) => put_on_record(
            s,
            store,
            out,
            clock,
            signature_type,
            r,
            i,
            ids,
            id,
            message,
            key_ids,
            nonces,
        ),
    }
}
