// Chida et al.'s multiplication on replicated shares, opening, and inversion in GF(2^8): the port of Maestro's chida/online.rs. Inversion
// goes over a table some positions at a time, so that nothing is lent or allocated for scratch and the stack holds 11 KiB at the most. A
// called step's answer is opened by let-else and a refusal goes up at once, as document 01 asks under 'Form by location'; `?` is for the
// counting.
#![tactic(auto)]

ghost use Rattle.std.specs.Prelude.{◌≡◌, ◌+◌, ◌*◌, ◌/◌, ◌≤◌, length};
ghost use Rattle.lists.specs.Lists.{chunk};
ghost use Rattle.rep3.specs.Answers.{number_of, when_done};
ghost use Rattle.joint.specs.Joint.{held, drawn};
ghost use Rattle.chain.specs.Chain.{chain_of, inversion_need};
ghost use Rattle.chain.specs.Powers.{AlphasFit};
ghost use Rattle.chida.specs.Inversion.{inversion_of, positions_number, inversion_number};
ghost use Rattle.chida.specs.Positions.{PartsFit, parties_number, cut, pasted, stored};

use chain::{MOST_INVERSION, Positions, TABLE, invert};
pub use halves::{mul_first_half, output_round, take_message};
use joint::{Alphas, SPACE};
use rep3::{Answer, Refusal};

// Some positions of a layer's table, as a table. The six parts go by index, here and below: of what is written through chunks_exact_mut a
// proof knows only the length.
fn load(x: &mut [u8], table: &[u8], at: Positions)
    requires { PartsFit at.layer at.count (length table.now) (length x.old) }
    ensures { x.new ≡ cut at.layer at.from at.count table.now }
{
    for k in 0..6usize {
        let a = k * at.count;
        let b = a + at.count;
        let c = k * at.layer + at.from;
        let d = c + at.count;
        x[a..b].copy_from_slice(&table[c..d]);
    }
}

// One part's positions from s.
fn paste(part: &mut [u8], ys: &[u8], s: usize)
    requires { s + length ys.now ≤ length part.old }
    ensures { part.new ≡ pasted s ys.now part.old }
{
    let e = s + ys.len();
    part[s..e].copy_from_slice(ys);
}

// A table of some positions put back into the layer's.
fn store(table: &mut [u8], x: &[u8], at: Positions)
    requires { PartsFit at.layer at.count (length table.old) (length x.now) }
    ensures { table.new ≡ stored at.layer at.from at.count x.now table.old }
{
    for k in 0..6usize {
        let a = k * at.layer;
        let b = a + at.layer;
        let c = k * at.count;
        let d = c + at.count;
        paste(&mut table[a..b], &x[c..d], at.from);
    }
}

// Some positions of a layer's table, inverted in their places.
fn invert_positions(table: &mut [u8], alphas: &Alphas, at: Positions) -> Answer
    requires long { length table.old ≡ 6 * at.layer }
    requires alphas_fit { AlphasFit at.layer (length alphas.now.a0.now) (length alphas.now.a1.now) (length alphas.now.a2.now) }
    ensures done { result ≡ Ok tt }
    ensures bytes { table.new ≡ stored at.layer at.from at.count (chain_of at.count (λ u. drawn (u * at.layer + at.from) at.count (held alphas.now)) (cut at.layer at.from at.count table.old)) table.old }
{
    let e = 6 * at.count;
    let mut x = [0; TABLE];
    load(&mut x[0..e], table, at);
    let answer = invert(&mut x[0..e], alphas, at.layer, at.from);
    let Ok(()) = answer else {
        return answer;
    };
    store(table, &x[0..e], at);
    Ok(())
}

// The refusals of a table alone.
#[tactic(auto, using(std::proofs::lemmas::Bool::Decides::nat_tests), unfolding(crate::specs::Inversion::positions_number, chain::specs::Chain::most_inversion))]
fn positions_check(table: usize) -> Answer
    ensures { number_of result ≡ positions_number table }
{
    if table % 6 != 0 {
        return Err(Refusal::Length);
    }
    if table / 6 > MOST_INVERSION {
        return Err(Refusal::TooMany);
    }
    Ok(())
}

#[tactic(auto, using(std::proofs::lemmas::Bool::Decides::nat_tests), unfolding(crate::specs::Positions::parties_number, crate::specs::Inversion::positions_number, chain::specs::Chain::inversion_need, chain::specs::Chain::most_inversion))]
fn parties_check(table: usize, alphas: &Alphas) -> Answer
    ensures { number_of result ≡ parties_number table (length alphas.now.a0.now) (length alphas.now.a1.now) (length alphas.now.a2.now) }
{
    positions_check(table)?;
    let need = 4 * (table / 6);
    if alphas.a0.len() != need || alphas.a1.len() != need || alphas.a2.len() != need {
        return Err(Refusal::Alphas);
    }
    Ok(())
}

// Inversion with each party's alphas lent apart, as a run draws them from the middle of its buffer. It goes some positions at a time.
pub fn gf8_inv_parties(table: &mut [u8], alphas: &Alphas) -> Answer
    ensures number { number_of result ≡ parties_number (length table.old) (length alphas.now.a0.now) (length alphas.now.a1.now) (length alphas.now.a2.now) }
    ensures bytes { table.new ≡ when_done (number_of result) (inversion_of (length table.old / 6) (held alphas.now) table.old) table.old }
{
    parties_check(table.len(), alphas)?;
    let n = table.len() / 6;
    for k in 0..n.div_ceil(SPACE) {
        let s = k * SPACE;
        let at = Positions {
            layer: n,
            from: s,
            count: SPACE.min(n - s),
        };
        let step = invert_positions(table, alphas, at);
        let Ok(()) = step else {
            return step;
        };
    }
    Ok(())
}

#[tactic(auto, using(std::proofs::lemmas::Bool::Decides::nat_tests), unfolding(crate::specs::Inversion::inversion_number, crate::specs::Inversion::positions_number, chain::specs::Chain::inversion_need, chain::specs::Chain::most_inversion))]
fn inversion_check(table: usize, alphas: usize) -> Answer
    ensures { number_of result ≡ inversion_number table alphas }
{
    positions_check(table)?;
    if alphas != 3 * (4 * (table / 6)) {
        return Err(Refusal::Alphas);
    }
    Ok(())
}

// Inversion of a share table in its place. The alphas are three equal parts, each used front to back: for x^3, x^15, x^14, x^254.
pub fn gf8_inv_layer(table: &mut [u8], alphas: &[u8]) -> Answer
    ensures number { number_of result ≡ inversion_number (length table.old) (length alphas.now) }
    ensures bytes { table.new ≡ when_done (number_of result) (inversion_of (length table.old / 6) (λ p. chunk (inversion_need (length table.old / 6)) p alphas.now) table.old) table.old }
{
    inversion_check(table.len(), alphas.len())?;
    let k = alphas.len() / 3;
    let b = 2 * k;
    let e = 3 * k;
    let parties = Alphas {
        a0: &alphas[0..k],
        a1: &alphas[k..b],
        a2: &alphas[b..e],
    };
    gf8_inv_parties(table, &parties)
}
