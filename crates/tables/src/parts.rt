// A layer on each of the six parts of a share table, a round key on each, and the alphas of an inversion from a place on. A part is lent on.
// A called step's answer is opened by let-else and a refusal goes up at once, as document 01 asks under 'Form by location'. Bytes are secret:
// nothing branches on them.
ghost use Rattle.std.specs.Prelude.{◌≡◌, ℕ, ◌<◌, map, length};
ghost use Rattle.chain.specs.Powers.{AlphasFit};
ghost use Rattle.tables.specs.Fits.{PartFits, TableFits, KeyFits, DrawFits, half_held};
ghost use Rattle.tables.specs.Tables.{held_byte, layer_of, on_table, key_added, alphas_from};

use gf8::{AFFINE_CONSTANT, add, aes_sbox_affine_transform, inv_aes_sbox_affine_transform};
use joint::Alphas;
use layers::BLOCK_BYTES;
use rep3::{Answer, Refusal, RssShare, constant};

const PARTS: usize = 6;

// What each party does alone, to si and to sii alike. All know which layer is at work, so that a branch on it tells nothing.
#[derive(Clone, Copy, Debug, PartialEq, Eq)]
pub enum Layer {
    ShiftRows,
    InvShiftRows,
    MixColumns,
    InvMixColumns,
    Affine,
    InvAffine,
}

// What part k holds of a party's share: an even part is its si, an odd one its sii.
#[tactic(auto, using(std::proofs::lemmas::Bool::Decides::nat_tests))]
fn half_held(share: RssShare, k: usize) -> u8
    ensures { result ≡ half_held share k }
{
    if k % 2 == 0 {
        return share.si;
    }
    share.sii
}

// f on each byte of part k, with what the part holds of the shared 0x63. The one refusal of a constant is that of the party.
fn with_constant<F: Fn(u8, u8) -> u8>(part: &mut [u8], k: usize, f: F) -> Answer
    ghost gives: { ℕ → ℕ → ℕ }
    requires part { k < 6 }
    requires callable { F.IsAlwaysCallable f }
    requires met { (x c y : ℕ) → F.post f x c y → y ≡ gives x c }
    ensures done { result ≡ Ok tt }
    ensures bytes { part.new ≡ map (λ x. gives x (held_byte k)) part.old }
{
    let party = (k / 2) as u32;
    let Ok(share) = constant(party, AFFINE_CONSTANT) else {
        return Err(Refusal::Party);
    };
    let c = half_held(share, k);
    for x in part.iter_mut() {
        *x = f(*x, c);
    }
    Ok(())
}

// A layer on part k. The layer is a value, as in the promise of on_table and in the definition layer_of: closures would put promises about a
// lent part in the place of those names.
fn on_part(part: &mut [u8], layer: Layer, k: usize) -> Answer
    requires part { k < 6 }
    requires whole { PartFits (length part.old) }
    ensures done { result ≡ Ok tt }
    ensures bytes { part.new ≡ layer_of layer k part.old }
{
    match layer {
        Layer::ShiftRows => layers::shift_rows(part),
        Layer::InvShiftRows => layers::inv_shift_rows(part),
        Layer::MixColumns => layers::mix_columns(part),
        Layer::InvMixColumns => layers::inv_mix_columns(part),
        Layer::Affine => with_constant(part, k, |x, c| add(aes_sbox_affine_transform(x), c)),
        Layer::InvAffine => with_constant(part, k, |x, c| inv_aes_sbox_affine_transform(add(x, c))),
    }
}

// A layer on each of the six parts of a table of n positions. The parts go by index, here and below: n may be 0, and of what is written
// through chunks_exact_mut a proof knows only the length.
pub(crate) fn on_parts(state: &mut [u8], layer: Layer, n: usize) -> Answer
    requires { TableFits n (length state.old) }
    ensures done { result ≡ Ok tt }
    ensures bytes { state.new ≡ on_table n layer state.old }
{
    for k in 0..PARTS {
        let a = k * n;
        let e = a + n;
        let step = on_part(&mut state[a..e], layer, k);
        let Ok(()) = step else {
            return step;
        };
    }
    Ok(())
}

// Round key r of a key table with parts of w bytes, on each of the six parts. One loop for both, with the step as a closure, proves too; but its
// contract would have to speak of every lent part that a closure may be given.
pub(crate) fn add_keys(state: &mut [u8], keys: &[u8], n: usize, w: usize, r: usize) -> Answer
    requires { KeyFits n w r (length state.old) (length keys.now) }
    ensures done { result ≡ Ok tt }
    ensures bytes { state.new ≡ key_added n w keys.now r state.old }
{
    let first = r * BLOCK_BYTES;
    for k in 0..PARTS {
        let a = k * n;
        let e = a + n;
        let b = k * w + first;
        let d = b + BLOCK_BYTES;
        let step = layers::add_round_key(&mut state[a..e], &keys[b..d]);
        let Ok(()) = step else {
            return step;
        };
    }
    Ok(())
}

// The three parties' alphas for an inversion of n positions, from a place of their parts of w on: where the last inversion stopped. A
// constructor beside Alphas would be public, and so could not require this.
pub(crate) fn party_alphas(alphas: &[u8], n: usize, w: usize, from: usize) -> Alphas<'_>
    requires { DrawFits n w from (length alphas.now) }
    ensures fit { AlphasFit n (length result.a0.now) (length result.a1.now) (length result.a2.now) }
    ensures first { result.a0.now ≡ alphas_from n w alphas.now from 0 }
    ensures second { result.a1.now ≡ alphas_from n w alphas.now from 1 }
    ensures third { result.a2.now ≡ alphas_from n w alphas.now from 2 }
{
    let need = 4 * n;
    let b = w + from;
    let c = w + b;
    Alphas {
        a0: &alphas[from..from + need],
        a1: &alphas[b..b + need],
        a2: &alphas[c..c + need],
    }
}
