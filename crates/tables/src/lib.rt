// The steps of a round on a whole share table: a layer on each of its six parts, a round key, and the S-box layers with the inversion in them.
// A table that is refused is not changed at all. This is what the runs of crate aes are made of.
#![tactic(auto)]

mod parts;
mod sboxes;

ghost use Rattle.std.specs.Prelude.{◌≡◌, ◌/◌, length};
ghost use Rattle.rep3.specs.Answers.{number_of, when_done};
ghost use Rattle.layers.specs.Layers.{table_number};
ghost use Rattle.tables.specs.Tables.{on_table, key_added, alphas_from, sub_shifted, shift_subbed, key_number, alphas_number};

use layers::{TABLE_BYTES, table_check};
pub use parts::Layer;
use rep3::{Answer, Refusal};

// The refusals of a state table of so many bytes, with round key r of a key table of so many.
#[tactic(auto, using(std::proofs::lemmas::Bool::Decides::nat_tests), unfolding(crate::specs::Tables::key_number, layers::specs::Layers::table_number))]
fn key_check(t: usize, k: usize, r: usize) -> Answer
    ensures { number_of result ≡ key_number t k r }
{
    table_check(t)?;
    if k % TABLE_BYTES != 0 {
        return Err(Refusal::Keys);
    }
    if r >= k / TABLE_BYTES {
        return Err(Refusal::Round);
    }
    Ok(())
}

// The refusals of a state table, with the alphas from a place of each third of a buffer of so many bytes.
#[tactic(auto, using(std::proofs::lemmas::Bool::Decides::nat_tests), unfolding(crate::specs::Tables::alphas_number, layers::specs::Layers::table_number))]
fn alphas_check(t: usize, a: usize, from: usize) -> Answer
    ensures { number_of result ≡ alphas_number t a from }
{
    table_check(t)?;
    if a % 3 != 0 || from > a / 3 || 4 * (t / 6) > a / 3 - from {
        return Err(Refusal::Alphas);
    }
    Ok(())
}

// A layer on each part of a state table.
#[tactic(auto, using(crate::proofs::Numbers::table_fits))]
pub fn on_table(state: &mut [u8], layer: Layer) -> Answer
    ensures number { number_of result ≡ table_number (length state.old) }
    ensures bytes { state.new ≡ when_done (number_of result) (on_table (length state.old / 6) layer state.old) state.old }
{
    table_check(state.len())?;
    let n = state.len() / 6;
    parts::on_parts(state, layer, n)
}

// Round key r of a key table, on each part of a state table.
#[tactic(auto, using(crate::proofs::Numbers::key_fits))]
pub fn add_key(state: &mut [u8], keys: &[u8], r: usize) -> Answer
    ensures number { number_of result ≡ key_number (length state.old) (length keys.now) r }
    ensures bytes { state.new ≡ when_done (number_of result) (key_added (length state.old / 6) (length keys.now / 6) keys.now r state.old) state.old }
{
    key_check(state.len(), keys.len(), r)?;
    let n = state.len() / 6;
    parts::add_keys(state, keys, n, keys.len() / 6, r)
}

// SubBytes and ShiftRows, with each party's alphas from a place of its third of the buffer: where the last inversion stopped.
#[tactic(auto, using(crate::proofs::Numbers::alphas_fit))]
pub fn sub_and_shift(state: &mut [u8], alphas: &[u8], from: usize) -> Answer
    ensures number { number_of result ≡ alphas_number (length state.old) (length alphas.now) from }
    ensures bytes { state.new ≡ when_done (number_of result) (sub_shifted (length state.old / 6) (alphas_from (length state.old / 6) (length alphas.now / 3) alphas.now from) state.old) state.old }
{
    alphas_check(state.len(), alphas.len(), from)?;
    let n = state.len() / 6;
    let parties = parts::party_alphas(alphas, n, alphas.len() / 3, from);
    sboxes::sub_shift(state, &parties, n)
}

// InvShiftRows and InvSubBytes, in the same way. The two are alike but for the step, whose promise is what each promises.
#[tactic(auto, using(crate::proofs::Numbers::alphas_fit))]
pub fn shift_and_sub(state: &mut [u8], alphas: &[u8], from: usize) -> Answer
    ensures number { number_of result ≡ alphas_number (length state.old) (length alphas.now) from }
    ensures bytes { state.new ≡ when_done (number_of result) (shift_subbed (length state.old / 6) (alphas_from (length state.old / 6) (length alphas.now / 3) alphas.now from) state.old) state.old }
{
    alphas_check(state.len(), alphas.len(), from)?;
    let n = state.len() / 6;
    let parties = parts::party_alphas(alphas, n, alphas.len() / 3, from);
    sboxes::shift_sub(state, &parties, n)
}
