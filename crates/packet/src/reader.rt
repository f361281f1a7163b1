// The reader: questions 8 and 9, asked of any slice of bytes. 8 is asked of the whole packet, nested packets included, before 9 is
// asked of anything.
ghost use Rattle.std.specs.Prelude.{◌≡◌, ◌&&◌, ◌+◌, ◌*◌, ◌-◌, map, eqb, leb, length};
ghost use Rattle.std.specs.List.{list_all, range_with_len};
ghost use Rattle.layout.specs.LaidOut.{part_at, parts_from, whole_response, response_laid_out, whole_share, whole_lists, is_laid_out};
ghost use Rattle.layout.specs.Limits.{message_limit, list_limit, signer_limit};
ghost use Rattle.layout.specs.Types.{root_length};
ghost use Rattle.layout.specs.Decode.{decode, message_in, response_in, response_within, share_in, key_count, within};
ghost use Rattle.packet.specs.Reading.{reading};

use layout::Header;

// The lists of a kind 2 packet: whole key ids, whole nonces.
#[tactic(auto, unfolding(layout::specs::LaidOut::whole_response, layout::specs::LaidOut::whole_entries))]
fn is_whole_response(s: &[u8]) -> bool
    ensures { result ≡ whole_response s.now }
{
    frame::part_at(s, 1).len() % layout::ID_LENGTH == 0
        && frame::part_at(s, 2).len() % layout::NONCE_LENGTH == 0
}

#[tactic(auto, unfolding(layout::specs::LaidOut::response_laid_out))]
fn is_response_laid_out(s: &[u8]) -> bool
    ensures { result ≡ response_laid_out s.now }
{
    frame::is_framed(s) && frame::header(s).kind == 2 && is_whole_response(s)
}

#[tactic(auto, unfolding(layout::specs::LaidOut::whole_share, layout::specs::LaidOut::whole_entries))]
fn is_whole_share(s: &[u8]) -> bool
    ensures { result ≡ whole_share s.now }
{
    layout::SHARE_LENGTH <= s.len() && (s.len() - layout::SHARE_LENGTH) % layout::ID_LENGTH == 0
}

fn is_whole_root(s: &[u8], signature_type: u8) -> bool
    ensures { result ≡ eqb (length (part_at s.now 40)) (root_length signature_type) }
{
    frame::part_at(s, 1).len() == layout::root_length(signature_type)
}

fn are_responses_laid_out(s: &[u8], pairs: u16) -> bool
    ensures { result ≡ list_all (λ i. response_laid_out (part_at s.now (32 + 8 * i))) (range_with_len 2 (pairs - 2)) }
{
    (2..pairs).all(|i| is_response_laid_out(frame::part_at(s, i)))
}

fn are_shares_whole(s: &[u8], pairs: u16) -> bool
    ensures { result ≡ list_all (λ i. whole_share (part_at s.now (32 + 8 * i))) (range_with_len 0 pairs) }
{
    (0..pairs).all(|i| is_whole_share(frame::part_at(s, i)))
}

// The lists, the root and the nested packets of each kind.
#[tactic(auto, using(crate::proofs::Laws::tests), unfolding(layout::specs::LaidOut::whole_lists, layout::specs::LaidOut::whole_root))]
fn has_whole_lists(s: &[u8]) -> bool
    ensures { result ≡ whole_lists s.now }
{
    let h = frame::header(s);
    match h.kind {
        1 => is_whole_root(s, h.signature_type),
        2 => is_whole_response(s),
        3 => is_whole_root(s, h.signature_type) && are_responses_laid_out(s, h.pairs),
        4 => are_shares_whole(s, h.pairs),
        5..=7 => true,
        _ => false,
    }
}

// Question 8.
#[tactic(auto, unfolding(layout::specs::LaidOut::is_laid_out))]
fn is_laid_out(s: &[u8]) -> bool
    ensures { result ≡ is_laid_out s.now }
{
    frame::is_framed(s) && has_whole_lists(s)
}

fn is_message_within(s: &[u8]) -> bool
    ensures { result ≡ leb (length (part_at s.now 32)) message_limit }
{
    frame::part_at(s, 0).len() <= layout::MESSAGE_LIMIT
}

// The limits of a kind 2 packet.
#[tactic(auto, using(crate::proofs::Laws::counts), unfolding(layout::specs::Decode::response_in, layout::specs::Decode::response_within))]
fn is_response_within(s: &[u8]) -> bool
    ensures { result ≡ response_within (response_in s.now) }
{
    is_message_within(s)
        && frame::part_at(s, 1).len() / layout::ID_LENGTH <= layout::LIST_LIMIT
        && frame::part_at(s, 2).len() / layout::NONCE_LENGTH <= layout::LIST_LIMIT
}

fn are_responses_within(s: &[u8], pairs: u16) -> bool
    ensures { result ≡ list_all (λ i. response_within (response_in (part_at s.now (32 + 8 * i)))) (range_with_len 2 (pairs - 2)) }
{
    (2..pairs).all(|i| is_response_within(frame::part_at(s, i)))
}

// The limits of a kind 3 packet.
fn is_share_request_within(s: &[u8], pairs: u16) -> bool
    ensures { result
        ≡ (leb (length (part_at s.now 32)) message_limit
        && leb (pairs - 2) signer_limit
        && list_all (λ i. response_within (response_in (part_at s.now (32 + 8 * i)))) (range_with_len 2 (pairs - 2))) }
{
    is_message_within(s)
        && pairs as usize <= layout::SIGNER_LIMIT + 2
        && are_responses_within(s, pairs)
}

// The key ids of share i.
#[tactic(auto, using(crate::proofs::Laws::share_keys_counted))]
fn share_keys(s: &[u8], i: u16) -> usize
    ensures { result ≡ length (share_in (part_at s.now (32 + 8 * i))).key_ids }
{
    frame::part_at(s, i)
        .len()
        .saturating_sub(layout::SHARE_LENGTH)
        / layout::ID_LENGTH
}

// At most 16 key ids over all shares.
fn are_share_keys_within(s: &[u8], pairs: u16) -> bool
    ensures { result ≡ leb (key_count (map share_in (parts_from s.now 32 pairs))) list_limit }
{
    let mut total: usize = 0;
    for i in 0..pairs {
        total += share_keys(s, i);
        if layout::LIST_LIMIT < total {
            return false;
        }
    }
    true
}

// Question 9, of a packet that is laid out.
fn is_within(s: &[u8]) -> bool
    ensures { result ≡ within (message_in s.now) }
{
    let h = frame::header(s);
    match h.kind {
        1 => is_message_within(s),
        2 => is_response_within(s),
        3 => is_share_request_within(s, h.pairs),
        4 => h.pairs as usize <= layout::LIST_LIMIT && are_share_keys_within(s, h.pairs),
        _ => true,
    }
}

// What a slice of bytes says as a packet.
pub fn read(s: &[u8]) -> Result<Header, u8>
    ensures { result ≡ reading (decode s.now) }
{
    if !is_laid_out(s) {
        return Err(8);
    }
    if !is_within(s) {
        return Err(9);
    }
    Ok(frame::header(s))
}
