// The signers that ended key generation, as ids: whether all are configured, and the flags of their slots.
ghost use Rattle.std.specs.Prelude.{◌≡◌, reverse};
ghost use Rattle.std.specs.List.{fold};
ghost use Rattle.wire.specs.Bytes.{every};
ghost use Rattle.records.specs.Admits.{slot_of};
ghost use Rattle.results.specs.Results.{is_known, flagged, ended_marks};

use layout::{SIGNER_LIMIT, SignerId};
use records::admits;
use state::fields::{Config, Marks};

fn is_known(g: Config, id: u32) -> bool
    ensures { result ≡ is_known g id }
{
    admits::slot_of(g, SignerId(id)).is_some()
}

pub fn are_known(g: Config, ended: &[u32]) -> bool
    ensures { result ≡ every (is_known g) ended.now }
{
    ended.iter().all(|id| is_known(g, *id))
}

// The flag of the signer's slot set, where it has one.
fn flag(mut m: Marks, g: Config, id: u32) -> Marks
    ensures { result ≡ flagged (slot_of id g) m }
{
    if let Some(i) = admits::slot_of(g, SignerId(id)) {
        m.ended[i] = true;
    }
    m
}

// From the last id on; an id that comes again sets its flag again.
fn flag_all(none: Marks, g: Config, ended: &[u32]) -> Marks
    ensures { result ≡ fold (λ m id. flagged (slot_of id g) m) none (reverse ended.now) }
{
    ended.iter().rev().fold(none, |m, id| flag(m, g, *id))
}

pub fn ended_marks(old: Marks, g: Config, ended: &[u32]) -> Marks
    ensures { result ≡ ended_marks g ended.now old }
{
    let none = Marks {
        ended: [false; SIGNER_LIMIT],
        ..old
    };
    flag_all(none, g, ended)
}
