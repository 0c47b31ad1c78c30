// One party's halves of a multiplication on replicated shares, and of an opening: mul_no_sync and output_round of Maestro's
// chida/online.rs, with the messages in the host's hands. Each operation counts the lengths it is given and refuses before it writes; a
// refusal changes no lent byte.
#![tactic(auto)]

ghost use Rattle.std.specs.Prelude.{◌≡◌, length};
ghost use Rattle.rep3.specs.Answers.{number_of, when_done};
ghost use Rattle.halves.specs.Product.{product_at, first_half, open_of, mul_number, take_number, open_number};

use gf8::{add, mul};
use rep3::{Answer, Refusal};

// The most positions of one product or opening.
const MOST_PRODUCT: usize = 131072;

// One party's product at one position, in two multiplications: a_i (b_i + b_(i+1)) + a_(i+1) b_i + alpha_i.
fn product_at(ai: u8, aii: u8, bi: u8, bii: u8, alpha: u8) -> u8
    ensures { result ≡ product_at ai aii bi bii alpha }
{
    add(add(mul(ai, add(bi, bii)), mul(aii, bi)), alpha)
}

#[tactic(auto, using(std::proofs::lemmas::Bool::Decides::nat_tests), unfolding(crate::specs::Product::mul_number, crate::specs::Product::most_product))]
fn mul_check(ci: usize, ai: usize, aii: usize, bi: usize, bii: usize, alphas: usize) -> Answer
    ensures { number_of result ≡ mul_number ci ai aii bi bii alphas }
{
    if ai != ci || aii != ci || bi != ci || bii != ci || alphas != ci {
        return Err(Refusal::Length);
    }
    if ci > MOST_PRODUCT {
        return Err(Refusal::TooMany);
    }
    Ok(())
}

// The first half of a product: what a party computes of its shares, keeps as its si, and sends to the previous party.
#[tactic(auto, using(crate::proofs::Filled::filled_more))]
pub fn mul_first_half(
    ci: &mut [u8],
    ai: &[u8],
    aii: &[u8],
    bi: &[u8],
    bii: &[u8],
    alphas: &[u8],
) -> Answer
    ensures number { number_of result ≡ mul_number (length ci.old) (length ai.now) (length aii.now) (length bi.now) (length bii.now) (length alphas.now) }
    ensures bytes { ci.new ≡ when_done (number_of result) (first_half (length ci.old) ai.now aii.now bi.now bii.now alphas.now) ci.old }
{
    let n = ci.len();
    mul_check(n, ai.len(), aii.len(), bi.len(), bii.len(), alphas.len())?;
    // By an index, and no zip of six: of what is written through an adapter but enumerate a proof knows only the length.
    for (j, c) in ci.iter_mut().enumerate() {
        *c = product_at(ai[j], aii[j], bi[j], bii[j], alphas[j]);
    }
    Ok(())
}

#[tactic(auto, using(std::proofs::lemmas::Bool::Decides::nat_tests), unfolding(crate::specs::Product::take_number, crate::specs::Product::most_product))]
fn take_check(cii: usize, received: usize) -> Answer
    ensures { number_of result ≡ take_number cii received }
{
    if cii > MOST_PRODUCT {
        return Err(Refusal::TooMany);
    }
    if received != cii {
        return Err(Refusal::Message);
    }
    Ok(())
}

// The second half: what the next party sent becomes the party's sii. It is taken whole or not at all.
#[tactic(auto, using(crate::proofs::Fits::take_fits))]
pub fn take_message(cii: &mut [u8], received: &[u8]) -> Answer
    ensures number { number_of result ≡ take_number (length cii.old) (length received.now) }
    ensures bytes { cii.new ≡ when_done (number_of result) received.now cii.old }
{
    let n = cii.len();
    take_check(n, received.len())?;
    cii.copy_from_slice(received);
    Ok(())
}

#[tactic(auto, using(std::proofs::lemmas::Bool::Decides::nat_tests), unfolding(crate::specs::Product::open_number, crate::specs::Product::most_product))]
fn open_check(opened: usize, si: usize, sii: usize, received: usize) -> Answer
    ensures { number_of result ≡ open_number opened si sii received }
{
    if si != opened || sii != opened {
        return Err(Refusal::Length);
    }
    if opened > MOST_PRODUCT {
        return Err(Refusal::TooMany);
    }
    if received != opened {
        return Err(Refusal::Message);
    }
    Ok(())
}

// What a party opens: its two shares and what came from the previous party, which sent its si.
pub fn output_round(opened: &mut [u8], si: &[u8], sii: &[u8], received: &[u8]) -> Answer
    ensures number { number_of result ≡ open_number (length opened.old) (length si.now) (length sii.now) (length received.now) }
    ensures bytes { opened.new ≡ when_done (number_of result) (open_of si.now sii.now received.now) opened.old }
{
    let n = opened.len();
    open_check(n, si.len(), sii.len(), received.len())?;
    for (k, x) in opened.iter_mut().enumerate() {
        *x = add(add(si[k], sii[k]), received[k]);
    }
    Ok(())
}
