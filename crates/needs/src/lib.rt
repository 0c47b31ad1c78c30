// Variants, the alphas that each party needs, the refusals of a run and of the need question, each in document 01's order, and one round
// key half of a key table.
#![tactic(auto)]

mod keys;

ghost use Rattle.std.specs.Prelude.{◌≡◌, ◌≤◌};
ghost use Rattle.rep3.specs.Answers.{number_of};
ghost use Rattle.layers.specs.Layers.{most_blocks};
ghost use Rattle.needs.specs.Needs.{rounds_of, need_of, has_variant, key_table_bytes, need_number, run_number};
ghost use Rattle.needs.specs.Needed.{needed_of};

pub use keys::{round_key_answer, round_key_half};
use layers::{MOST_BLOCKS, TABLE_BYTES, table_check};
use rep3::{Answer, Refusal};

const AES_128: u32 = 128;

const AES_256: u32 = 256;

// The kinds of a need: a cipher's, an inverse's, a schedule's. Kind and variant are numbers, as C gives them and as document 01 has them, and
// the promises here say what every number gets.
pub const CIPHER: u32 = 0;

pub const INVERSE: u32 = 1;

const SCHEDULE: u32 = 2;

// The alphas of one party for a block of a run, and for a schedule.
const BLOCK_NEED_128: usize = 640;

const BLOCK_NEED_256: usize = 896;

const SCHEDULE_NEED_128: usize = 160;

const SCHEDULE_NEED_256: usize = 208;

// The rounds of a variant, and 0 for a number that is none, as the definition has it: a run or a round key half is refused before that counts.
#[tactic(auto, using(std::proofs::lemmas::Bool::Decides::nat_tests), unfolding(crate::specs::Needs::rounds_of))]
pub fn rounds_of(variant: u32) -> usize
    ensures { result ≡ rounds_of variant }
{
    match variant {
        AES_128 => 10,
        AES_256 => 14,
        _ => 0,
    }
}

#[tactic(auto, using(std::proofs::lemmas::Bool::Decides::nat_tests), unfolding(crate::specs::Needs::has_variant))]
pub fn has_variant(kind: u32, variant: u32) -> bool
    ensures { result ≡ has_variant kind variant }
{
    match variant {
        AES_128 => true,
        AES_256 => kind != INVERSE,
        _ => false,
    }
}

// The alphas of each party: the one place that has the figures, for the need question and for a run's own check.
#[tactic(auto, using(std::proofs::lemmas::Bool::Decides::nat_tests), unfolding(crate::specs::Needs::need_of, crate::specs::Needs::schedule_need, crate::specs::Needs::block_need))]
fn need_of(kind: u32, variant: u32, blocks: usize) -> usize
    requires { blocks ≤ most_blocks }
    ensures { result ≡ need_of kind variant blocks }
{
    match (kind, variant) {
        (SCHEDULE, AES_128) => SCHEDULE_NEED_128,
        (SCHEDULE, _) => SCHEDULE_NEED_256,
        (_, AES_128) => blocks * BLOCK_NEED_128,
        (_, _) => blocks * BLOCK_NEED_256,
    }
}

#[tactic(auto, using(crate::proofs::Numbers::round_bounds), unfolding(crate::specs::Needs::key_table_bytes))]
pub fn key_table_bytes(variant: u32) -> usize
    ensures { result ≡ key_table_bytes (rounds_of variant) }
{
    TABLE_BYTES * (rounds_of(variant) + 1)
}

#[tactic(auto, using(std::proofs::lemmas::Bool::Decides::nat_tests), unfolding(crate::specs::Needs::need_number))]
fn need_check(kind: u32, variant: u32, blocks: usize) -> Answer
    ensures { number_of result ≡ need_number kind variant blocks }
{
    if kind > SCHEDULE {
        return Err(Refusal::Mode);
    }
    if !has_variant(kind, variant) {
        return Err(Refusal::Variant);
    }
    if blocks > MOST_BLOCKS {
        return Err(Refusal::TooMany);
    }
    Ok(())
}

// The refusals of a run on a state table, a key table and an alpha buffer of so many bytes.
#[tactic(auto, using(std::proofs::lemmas::Bool::Decides::nat_tests), unfolding(crate::specs::Needs::run_number, crate::specs::Needs::has_variant, crate::specs::Needs::rounds_of, crate::specs::Needs::key_table_bytes, crate::specs::Needs::need_of, crate::specs::Needs::schedule_need, crate::specs::Needs::block_need, layers::specs::Layers::table_number))]
pub fn run_check(kind: u32, variant: u32, state: usize, keys: usize, alphas: usize) -> Answer
    ensures { number_of result ≡ run_number kind variant state keys alphas }
{
    if !has_variant(kind, variant) {
        return Err(Refusal::Variant);
    }
    table_check(state)?;
    let blocks = state / TABLE_BYTES;
    if keys != key_table_bytes(variant) {
        return Err(Refusal::Keys);
    }
    if alphas != 3 * need_of(kind, variant, blocks) {
        return Err(Refusal::Alphas);
    }
    Ok(())
}

// The answer to the need question: the alphas of each party, or the refusal.
pub type Needed = Result<u64, Refusal>;

// How many alphas each party needs for a run or a schedule of a variant on so many blocks.
pub fn need(kind: u32, variant: u32, blocks: usize) -> Needed
    ensures { result ≡ needed_of kind variant blocks }
{
    need_check(kind, variant, blocks)?;
    Ok(need_of(kind, variant, blocks) as u64)
}
