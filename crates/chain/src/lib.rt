// The chain of inversion in GF(2^8) on a small share table, line by line as Maestro's gf8_inv_layer, whose names for the powers it keeps.
// Nothing is lent or allocated for scratch: five tables of some positions stand on the stack, 8 KiB, and are cut to the positions at hand.
// A called step's answer is opened by let-else and a refusal goes up at once, as document 01 asks under 'Form by location'; `?` is for the
// counting.
#![tactic(auto)]

ghost use Rattle.std.specs.Prelude.{◌≡◌, ◌+◌, ◌*◌, ◌/◌, ◌≤◌, map, length};
ghost use Rattle.fips197.specs.Field as field;
ghost use Rattle.rep3.specs.Answers.{number_of, when_done};
ghost use Rattle.joint.specs.Joint.{space_size, held, drawn};
ghost use Rattle.chain.specs.Chain.{chain_of, most_inversion};
ghost use Rattle.chain.specs.Powers.{AlphasFit, PowersFit, chain_number};

use gf8::square;
use joint::{Alphas, SPACE, mul_tables};
use rep3::{Answer, Refusal};

// A table of as many positions as are inverted at a time.
pub const TABLE: usize = 6 * SPACE;

// The most positions of one inversion.
pub const MOST_INVERSION: usize = 65536;

// Some positions of a layer: so many from a place on. They are few enough to be inverted at a time.
#[derive(Clone, Copy, Debug, PartialEq, Eq)]
pub struct Positions {
    pub layer: usize,
    pub from: usize,
    pub count: usize,
    ghost space: { count ≤ space_size },
    ghost within: { from + count ≤ layer },
    ghost most: { layer ≤ most_inversion },
}

// The square of each byte: each party's own, and on si and sii alike.
fn square_again(v: &mut [u8])
    ensures { v.new ≡ map field.square v.old }
{
    for x in v.iter_mut() {
        *x = square(*x);
    }
}

// The same into another table.
fn square_layer(out: &mut [u8], v: &[u8])
    requires { length out.old ≡ length v.now }
    ensures { out.new ≡ map field.square v.now }
{
    out.copy_from_slice(v);
    square_again(out);
}

fn raise_to_16(v: &mut [u8])
    ensures { v.new ≡ map field.square (map field.square (map field.square (map field.square v.old))) }
{
    square_again(v);
    square_again(v);
    square_again(v);
    square_again(v);
}

// The chain on a table x of some positions of a layer. The other tables are lent to hold its powers: each by itself, since a product writes
// one and reads two.
#[tactic(auto, unfolding(crate::specs::Chain::most_inversion))]
fn chain(
    x: &mut [u8],
    x2: &mut [u8],
    x3: &mut [u8],
    x12: &mut [u8],
    x15: &mut [u8],
    x14: &mut [u8],
    alphas: &Alphas,
    at: Positions,
) -> Answer
    requires alphas_fit { AlphasFit at.layer (length alphas.now.a0.now) (length alphas.now.a1.now) (length alphas.now.a2.now) }
    requires powers_fit { PowersFit at.count (length x.old) (length x2.old) (length x3.old) (length x12.old) (length x15.old) (length x14.old) }
    ensures done { result ≡ Ok tt }
    ensures bytes { x.new ≡ chain_of at.count (λ u. drawn (u * at.layer + at.from) at.count (held alphas.now)) x.old }
{
    square_layer(x2, x);
    let cubed = mul_tables(x3, x, x2, alphas, at.from);
    let Ok(()) = cubed else {
        return cubed;
    };
    square_layer(x12, x3);
    square_again(x12);
    // x^15 draws its alphas before x^14.
    let fifteenth = mul_tables(x15, x12, x3, alphas, at.layer + at.from);
    let Ok(()) = fifteenth else {
        return fifteenth;
    };
    let fourteenth = mul_tables(x14, x12, x2, alphas, 2 * at.layer + at.from);
    let Ok(()) = fourteenth else {
        return fourteenth;
    };
    // x^240 = (x^15)^16: only x^15 is raised.
    raise_to_16(x15);
    mul_tables(x, x15, x14, alphas, 3 * at.layer + at.from)
}

#[tactic(auto, using(std::proofs::lemmas::Bool::Decides::nat_tests), unfolding(crate::specs::Powers::chain_number, joint::specs::Joint::space_size, crate::specs::Chain::inversion_need, crate::specs::Chain::most_inversion))]
fn chain_check(x: usize, alphas: &Alphas, n: usize, s: usize) -> Answer
    ensures { number_of result ≡ chain_number x (length alphas.now.a0.now) (length alphas.now.a1.now) (length alphas.now.a2.now) n s }
{
    if x % 6 != 0 {
        return Err(Refusal::Length);
    }
    if x / 6 > SPACE || n > MOST_INVERSION {
        return Err(Refusal::TooMany);
    }
    if s > n || x / 6 > n - s {
        return Err(Refusal::Length);
    }
    let need = 4 * n;
    if alphas.a0.len() != need || alphas.a1.len() != need || alphas.a2.len() != need {
        return Err(Refusal::Alphas);
    }
    Ok(())
}

// The table x inverted in its place. Its positions are those from s of a layer of n, whose 4 n alphas each party lends whole. It takes numbers
// and slices of any length, since it has an answer for each.
pub fn invert(x: &mut [u8], alphas: &Alphas, n: usize, s: usize) -> Answer
    ensures number { number_of result ≡ chain_number (length x.old) (length alphas.now.a0.now) (length alphas.now.a1.now) (length alphas.now.a2.now) n s }
    ensures bytes { x.new ≡ when_done (number_of result) (chain_of (length x.old / 6) (λ u. drawn (u * n + s) (length x.old / 6) (held alphas.now)) x.old) x.old }
{
    let e = x.len();
    chain_check(e, alphas, n, s)?;
    let at = Positions {
        layer: n,
        from: s,
        count: e / 6,
    };
    let mut x2 = [0; TABLE];
    let mut x3 = [0; TABLE];
    let mut x12 = [0; TABLE];
    let mut x15 = [0; TABLE];
    let mut x14 = [0; TABLE];
    chain(
        x,
        &mut x2[0..e],
        &mut x3[0..e],
        &mut x12[0..e],
        &mut x15[0..e],
        &mut x14[0..e],
        alphas,
        at,
    )
}
