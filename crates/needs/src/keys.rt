// One round key half, handed back as a part of the caller's key table, and the second question, why there is none: document 01 asks for an
// empty part and a question of its own, and not for one answer with both. Variant, party and round are numbers, and any number has its answer.
ghost use Rattle.std.specs.Prelude.{◌≡◌, ◌≤◌, length};
ghost use Rattle.rep3.specs.Answers.{number_of};
ghost use Rattle.needs.specs.Keys.{half_number, half_index, half_of};

use super::{CIPHER, has_variant, key_table_bytes, rounds_of};
use layers::BLOCK_BYTES;
use rep3::{Answer, Refusal};

const LAST_PARTY: u32 = 2;

// The refusals of a round key half of a key table of so many bytes.
#[tactic(auto, using(std::proofs::lemmas::Bool::Decides::nat_tests), unfolding(crate::specs::Keys::half_number, crate::specs::Needs::has_variant, crate::specs::Needs::rounds_of, crate::specs::Needs::key_table_bytes))]
fn half_check(variant: u32, keys: usize, party: u32, round: u32) -> Answer
    ensures { number_of result ≡ half_number variant keys party round }
{
    if !has_variant(CIPHER, variant) {
        return Err(Refusal::Variant);
    }
    if keys != key_table_bytes(variant) {
        return Err(Refusal::Keys);
    }
    if party > LAST_PARTY {
        return Err(Refusal::Party);
    }
    if round as usize > rounds_of(variant) {
        return Err(Refusal::Round);
    }
    Ok(())
}

// The part of a party's si, or of its sii.
#[tactic(auto, using(std::proofs::lemmas::Bool::Decides::nat_tests), unfolding(crate::specs::Keys::half_index))]
fn half_index(party: u32, sii: bool) -> usize
    requires { party ≤ 2 }
    ensures { result ≡ half_index party sii }
{
    2 * (party as usize) + usize::from(sii)
}

// Sixteen bytes of the key table, and none on a refusal.
#[tactic(auto, using(crate::proofs::Numbers::round_bounds), unfolding(crate::specs::Keys::half_of))]
pub fn round_key_half<'a>(
    variant: u32,
    keys: &'a [u8],
    party: u32,
    sii: bool,
    round: u32,
) -> &'a [u8]
    ensures { result.now ≡ half_of variant keys.now party sii round }
{
    let Ok(()) = half_check(variant, keys.len(), party, round) else {
        return &keys[0..0];
    };
    let width = BLOCK_BYTES * (rounds_of(variant) + 1);
    let start = half_index(party, sii) * width + BLOCK_BYTES * (round as usize);
    let end = start + BLOCK_BYTES;
    &keys[start..end]
}

// Why a half was refused; both halves of a party are refused alike.
pub fn round_key_answer(variant: u32, keys: &[u8], party: u32, round: u32) -> Answer
    ensures { number_of result ≡ half_number variant (length keys.now) party round }
{
    half_check(variant, keys.len(), party, round)
}
