// One block as four rows of four bytes, by value: each layer of FIPS-197 on it, and such a change on each block of a lent part. A block is
// read from the part, changed, and written back.
#![tactic(auto)]

ghost use Rattle.std.specs.Prelude.{◌≡◌, ℕ, ◌+◌, ◌%◌, ◌<◌, List, length};
ghost use Rattle.fips197.specs.Field.{◌⊕◌, ◌·◌};
ghost use Rattle.fips197.specs.State as fips197;
ghost use Rattle.layers.specs.Rows.{row_of, byte_of, row, row_by, mixed_byte, inv_mixed_byte, bytes_of};
ghost use Rattle.layers.specs.Layers.{block_bytes, each_block, Computes};

use super::BLOCK_BYTES;

// What is computed of rows and blocks is written out entry by entry. array::from_fn was tried: of a block that it makes the check found no
// proof, and each row that it makes adds two seconds to a check that is to stay under thirty.
type Row = [u8; 4];

// A block: four rows by value.
pub(crate) type Block = [Row; 4];

// The rows of sixteen bytes, and that they are bytes, which MixColumns asks.
#[tactic(auto, using(crate::proofs::Rows::rows_loaded))]
pub(crate) fn load(b: &[u8]) -> Block
    requires { length b.now ≡ block_bytes }
    ensures rows { bytes_of result ≡ b.now }
    ensures bytes { fips197.Bytes b.now }
{
    let (rows, _) = b.as_chunks::<4>();
    [rows[0], rows[1], rows[2], rows[3]]
}

// Sixteen bytes from the rows, one by one: of rows that are copied whole the compiler makes a change of order that takes four to seven times as
// long in a program that calls little else.
fn store(b: &mut [u8], s: Block)
    requires { length b.old ≡ block_bytes }
    ensures { b.new ≡ bytes_of s }
{
    for (k, x) in b.iter_mut().enumerate() {
        *x = s[k / 4][k % 4];
    }
}

// A row turned to the left by some places. By indices: rotate_left, which turns a slice of any length, runs some fifty times as long.
fn turned(row: Row, places: usize) -> Row
    requires { places < 4 }
    ensures { result ≡ row_of (λ c. byte_of row ((c + places) % 4)) }
{
    [
        row[places % 4],
        row[(1 + places) % 4],
        row[(2 + places) % 4],
        row[(3 + places) % 4],
    ]
}

// Each row by the places that the standard names for it, 0, 1, 2, 3 here and 0, 3, 2, 1 in the inverse: one function of a step would hide them
// in a product modulo 4.
#[tactic(auto, unfolding(fips197::specs::State::shift_rows, fips197::specs::State::state_of, fips197::specs::State::at, crate::specs::Rows::bytes_of))]
pub(crate) fn shift_rows(s: Block) -> Block
    ensures { bytes_of result ≡ fips197.shift_rows (bytes_of s) }
{
    [
        turned(s[0], 0),
        turned(s[1], 1),
        turned(s[2], 2),
        turned(s[3], 3),
    ]
}

#[tactic(auto, unfolding(fips197::specs::State::inv_shift_rows, fips197::specs::State::state_of, fips197::specs::State::at, crate::specs::Rows::bytes_of))]
pub(crate) fn inv_shift_rows(s: Block) -> Block
    ensures { bytes_of result ≡ fips197.inv_shift_rows (bytes_of s) }
{
    [
        turned(s[0], 0),
        turned(s[1], 3),
        turned(s[2], 2),
        turned(s[3], 1),
    ]
}

fn column(s: Block, c: usize) -> Row
    requires { c < 4 }
    ensures { result ≡ row_of (λ r. byte_of (row s r) c) }
{
    [s[0][c], s[1][c], s[2][c], s[3][c]]
}

// Rows for columns: what both changes of order are.
#[tactic(auto, unfolding(fips197::specs::State::from_bytes, fips197::specs::State::state_of, fips197::specs::State::at, crate::specs::Rows::bytes_of))]
pub(crate) fn transposed(s: Block) -> Block
    ensures { bytes_of result ≡ fips197.from_bytes (bytes_of s) }
{
    [column(s, 0), column(s, 1), column(s, 2), column(s, 3)]
}

// The sum of two rows.
fn added(p: Row, q: Row) -> Row
    ensures { result ≡ row_of (λ c. byte_of p c ⊕ byte_of q c) }
{
    [
        gf8::add(p[0], q[0]),
        gf8::add(p[1], q[1]),
        gf8::add(p[2], q[2]),
        gf8::add(p[3], q[3]),
    ]
}

// A row times {02}. The factor stands second: the product goes by its bits, so that a known one leaves a shift and a reduction.
#[tactic(auto, using(crate::proofs::MixedBytes::times_two))]
fn doubled(row: Row) -> Row
    ensures { result ≡ row_of (λ c. 0x02 · byte_of row c) }
{
    [
        gf8::mul(row[0], 0x02),
        gf8::mul(row[1], 0x02),
        gf8::mul(row[2], 0x02),
        gf8::mul(row[3], 0x02),
    ]
}

// A row of MixColumns from the rows of the block from that one on: {02} p0 + {03} p1 + p2 + p3, with one doubling.
fn mixed(p0: Row, p1: Row, p2: Row, p3: Row) -> Row
    ensures { result ≡ row_by mixed_byte p0 p1 p2 p3 }
{
    added(doubled(added(p0, p1)), added(p1, added(p2, p3)))
}

// A row of InvMixColumns, {0e} p0 + {0b} p1 + {0d} p2 + {09} p3, with three: each power of {02} is gathered where it is wanted.
fn inv_mixed(p0: Row, p1: Row, p2: Row, p3: Row) -> Row
    ensures { result ≡ row_by inv_mixed_byte p0 p1 p2 p3 }
{
    let first = added(p0, p1);
    let last = added(p2, p3);
    let eights = doubled(added(first, last));
    let fours = doubled(added(eights, added(p0, p2)));
    let twos = doubled(added(fours, first));
    added(twos, added(p1, last))
}

// The rows stand here and in the inverse: one function of both, over the rule of a row, would promise each row in a clause of its own.
#[tactic(auto, using(crate::proofs::Rows::rows_mixed))]
pub(crate) fn mix_columns(s: Block) -> Block
    ensures { fips197.Bytes (bytes_of s) → bytes_of result ≡ fips197.mix_columns (bytes_of s) }
{
    let [p, q, r, t] = s;
    [
        mixed(p, q, r, t),
        mixed(q, r, t, p),
        mixed(r, t, p, q),
        mixed(t, p, q, r),
    ]
}

#[tactic(auto, using(crate::proofs::Rows::rows_inv_mixed))]
pub(crate) fn inv_mix_columns(s: Block) -> Block
    ensures { fips197.Bytes (bytes_of s) → bytes_of result ≡ fips197.inv_mix_columns (bytes_of s) }
{
    let [p, q, r, t] = s;
    [
        inv_mixed(p, q, r, t),
        inv_mixed(q, r, t, p),
        inv_mixed(r, t, p, q),
        inv_mixed(t, p, q, r),
    ]
}

#[tactic(auto, using(crate::proofs::Rows::rows_added))]
pub(crate) fn add_round_key(s: Block, key: Block) -> Block
    ensures { bytes_of result ≡ fips197.add_round_key (bytes_of s) (bytes_of key) }
{
    [
        added(s[0], key[0]),
        added(s[1], key[1]),
        added(s[2], key[2]),
        added(s[3], key[3]),
    ]
}

// A change of each block of a part: by f, for each map f of a block's bytes that the change computes. What is left over after the last
// whole block stays. The loop goes by index: of a part that is written through chunks_exact_mut a proof knows only the length.
pub(crate) fn each_block<F: Fn(Block) -> Block>(part: &mut [u8], change: F)
    requires { F.IsAlwaysCallable change }
    ensures { (f : List ℕ → List ℕ) → Computes (F.post change) f → part.new ≡ each_block f part.old }
{
    for k in 0..part.len() / BLOCK_BYTES {
        let from = k * BLOCK_BYTES;
        let block = &mut part[from..from + BLOCK_BYTES];
        store(block, change(load(block)));
    }
}
