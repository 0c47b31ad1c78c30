// The layers of AES on a lent part of a share table, and the order of a state table's bytes: the port of the layers of Maestro's aes/mod.rs.
// A part holds whole blocks of sixteen bytes by rows, and each block is changed as FIPS-197 says; a length that is not refused is changed
// whole, and one that is refused not at all. Bytes are secret: nothing branches on them.
#![tactic(auto, using(std::proofs::lemmas::Bool::Decides::nat_tests, crate::proofs::Changes::changes), unfolding(crate::specs::Layers::layer_number, crate::specs::Layers::keyed_number, crate::specs::Layers::table_number))]

mod blocks;

ghost use Rattle.std.specs.Prelude.{◌≡◌, ℕ, ◌<◌, List, length};
ghost use Rattle.rep3.specs.Answers.{number_of, when_done};
ghost use Rattle.fips197.specs.State as fips197;
ghost use Rattle.layers.specs.Rows.{bytes_of};
ghost use Rattle.layers.specs.Layers.{blocks_number, layer_number, keyed_number, table_number, each_block, Computes};

use blocks::Block;
use rep3::{Answer, Refusal};

// A block's bytes, in a part and as a round key.
pub const BLOCK_BYTES: usize = 16;

// A block's bytes in a state table: sixteen in each of six parts.
pub const TABLE_BYTES: usize = 96;

pub const MOST_BLOCKS: usize = 4096;

// The refusals of n bytes, where a block has size of them.
fn blocks_check(n: usize, size: usize) -> Answer
    requires { 0 < size }
    ensures { number_of result ≡ blocks_number size n }
{
    if n % size != 0 {
        return Err(Refusal::Block);
    }
    if n / size > MOST_BLOCKS {
        return Err(Refusal::TooMany);
    }
    Ok(())
}

// The refusals of a layer on a part of n bytes with a round key of k.
fn keyed_check(n: usize, k: usize) -> Answer
    ensures { number_of result ≡ keyed_number n k }
{
    blocks_check(n, BLOCK_BYTES)?;
    if k != BLOCK_BYTES {
        return Err(Refusal::Keys);
    }
    Ok(())
}

// The refusals of a state table of n bytes.
pub fn table_check(n: usize) -> Answer
    ensures { number_of result ≡ table_number n }
{
    blocks_check(n, TABLE_BYTES)
}

// A change of each block of a part or a state table. A table's six parts hold as many blocks each, so that it is a row of blocks too. size
// is the bytes that a block has there: sixteen in a part, 96 in a table.
fn on_blocks<F: Fn(Block) -> Block>(bytes: &mut [u8], size: usize, change: F) -> Answer
    requires sized { 0 < size }
    requires callable { F.IsAlwaysCallable change }
    ensures number { number_of result ≡ blocks_number size (length bytes.old) }
    ensures bytes { (f : List ℕ → List ℕ) → Computes (F.post change) f
        → bytes.new ≡ when_done (number_of result) (each_block f bytes.old) bytes.old }
{
    blocks_check(bytes.len(), size)?;
    blocks::each_block(bytes, change);
    Ok(())
}

pub fn shift_rows(part: &mut [u8]) -> Answer
    ensures number { number_of result ≡ layer_number (length part.old) }
    ensures bytes { part.new ≡ when_done (number_of result) (each_block fips197.shift_rows part.old) part.old }
{
    on_blocks(part, BLOCK_BYTES, blocks::shift_rows)
}

pub fn inv_shift_rows(part: &mut [u8]) -> Answer
    ensures number { number_of result ≡ layer_number (length part.old) }
    ensures bytes { part.new ≡ when_done (number_of result) (each_block fips197.inv_shift_rows part.old) part.old }
{
    on_blocks(part, BLOCK_BYTES, blocks::inv_shift_rows)
}

pub fn mix_columns(part: &mut [u8]) -> Answer
    ensures number { number_of result ≡ layer_number (length part.old) }
    ensures bytes { part.new ≡ when_done (number_of result) (each_block fips197.mix_columns part.old) part.old }
{
    on_blocks(part, BLOCK_BYTES, blocks::mix_columns)
}

pub fn inv_mix_columns(part: &mut [u8]) -> Answer
    ensures number { number_of result ≡ layer_number (length part.old) }
    ensures bytes { part.new ≡ when_done (number_of result) (each_block fips197.inv_mix_columns part.old) part.old }
{
    on_blocks(part, BLOCK_BYTES, blocks::inv_mix_columns)
}

// A round key, by rows, added to each block of a part.
pub fn add_round_key(part: &mut [u8], key: &[u8]) -> Answer
    ensures number { number_of result ≡ keyed_number (length part.old) (length key.now) }
    ensures bytes { part.new ≡ when_done (number_of result) (each_block (λ b. fips197.add_round_key b key.now) part.old) part.old }
{
    keyed_check(part.len(), key.len())?;
    let rows = blocks::load(key);
    let add = |s|
        ensures { bytes_of result ≡ fips197.add_round_key (bytes_of s) (bytes_of rows) }
    { blocks::add_round_key(s, rows) };
    blocks::each_block(part, add);
    Ok(())
}

// From byte order, as data comes, to row order, as layers and runs take it.
pub fn rows_from_bytes(state: &mut [u8]) -> Answer
    ensures number { number_of result ≡ table_number (length state.old) }
    ensures bytes { state.new ≡ when_done (number_of result) (each_block fips197.from_bytes state.old) state.old }
{
    on_blocks(state, TABLE_BYTES, blocks::transposed)
}

// And back: rows and columns change places again.
pub fn bytes_from_rows(state: &mut [u8]) -> Answer
    ensures number { number_of result ≡ table_number (length state.old) }
    ensures bytes { state.new ≡ when_done (number_of result) (each_block fips197.to_bytes state.old) state.old }
{
    rows_from_bytes(state)
}
