// What commissioning asks of a configuration: 1, 2 and 3.
ghost use Rattle.std.specs.Prelude.{◌≡◌, map};
ghost use Rattle.wire.specs.Bytes.{every};
ghost use Rattle.validity.specs.Keys.{key_number};
ghost use Rattle.step_definition.specs.Ids.{distinct};
ghost use Rattle.step_definition.specs.Configuration.{question1};
ghost use Rattle.state.specs.Counts.{sum};
ghost use Rattle.configuration.specs.NewConfig.{keys_given, signers_given, signer_number, new_config_of};
ghost use Rattle.configuration.specs.NewConfig.{is_set_within, set_size, new_asked};

use crate::new_config::{KEY_PLACES, NewConfig, NewSigner, SIGNER_PLACES};
use layout::{KeyId, LIST_LIMIT, SIGNER_LIMIT};

fn ids_in(signers: [NewSigner; SIGNER_PLACES]) -> [u32; SIGNER_PLACES]
    ensures { result ≡ map signer_number signers }
{
    signers.map(|signer| signer.id.0)
}

#[tactic(auto, using(crate::proofs::Sets::map_taken))]
fn are_ids_distinct(g: &NewConfig) -> bool
    ensures { result ≡ distinct (map signer_number (signers_given g.now)) }
{
    let ids = ids_in(g.signers);
    id_lists::is_distinct(&ids[..g.given().len()])
}

// At most 10 signers, ids distinct (1)?
#[tactic(auto, using(std::proofs::lemmas::Grind::common_steps, crate::proofs::Asked::signers_asked))]
fn are_signers_within(g: &NewConfig) -> bool
    ensures { result ≡ question1 (new_config_of g.now) }
{
    g.given().len() <= SIGNER_LIMIT && are_ids_distinct(g)
}

fn numbers_of(keys: [KeyId; KEY_PLACES]) -> [u32; KEY_PLACES]
    ensures { result ≡ map key_number keys }
{
    keys.map(|key| key.0)
}

#[tactic(auto, using(crate::proofs::Sets::keys_first))]
fn are_keys_distinct(s: &NewSigner) -> bool
    ensures { result ≡ distinct (keys_given s.now) }
{
    let keys = numbers_of(s.keys.ids);
    id_lists::is_distinct(&keys[..s.given().len()])
}

// At most 16 keys, none twice; no set is fine.
#[tactic(auto, unfolding(crate::specs::NewConfig::is_set_within))]
fn is_set_within(s: &NewSigner) -> bool
    ensures { result ≡ is_set_within s.now }
{
    s.given().len() <= LIST_LIMIT && are_keys_distinct(s)
}

// Every key set at most 16 keys, none twice (2)?
fn are_sets_within(g: &NewConfig) -> bool
    ensures { result ≡ every is_set_within (signers_given g.now) }
{
    g.given().iter().all(is_set_within)
}

// How many keys all sets together have; a set that is not there has none, whatever its count.
#[tactic(auto, using(crate::proofs::Walks::sum_next), unfolding(state::specs::Counts::sum))]
fn key_total(g: &NewConfig) -> usize
    ensures { result ≡ sum (map set_size (signers_given g.now)) }
{
    let mut total = 0;
    for signer in g.given() {
        total += signer.given().len();
    }
    total
}

// 1, 2, then set sizes together at most num_keys (3)?
#[tactic(auto, using(crate::proofs::Asked::sets_given, crate::proofs::Asked::total_given), unfolding(crate::specs::NewConfig::new_asked))]
pub fn questions(g: NewConfig) -> Result<(), u32>
    ensures { result ≡ new_asked (new_config_of g) }
{
    if !are_signers_within(&g) {
        return Err(1);
    }
    if !are_sets_within(&g) {
        return Err(2);
    }
    if key_total(&g) <= (g.num_keys as usize) {
        Ok(())
    } else {
        Err(3)
    }
}
