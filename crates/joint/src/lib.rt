// The joint product: three parties multiply two share tables, each by the very halves that are exported, and each reads its message off
// the outbox of the next party. A called step's answer is opened by let-else and a refusal goes up at once, as document 01 asks under
// 'Form by location'; `?` is for the counting.
#![tactic(auto)]

ghost use Rattle.std.specs.Prelude.{◌≡◌, ◌/◌, length};
ghost use Rattle.rep3.specs.Answers.{number_of, when_done};
ghost use Rattle.rep3.specs.Tables.{si_part, sii_part, six_parts, share_of};
ghost use Rattle.halves.specs.Product.{first_half, product_of};
ghost use Rattle.joint.specs.Joint.{joint_number, space_size, PartyFits, Exchanged, ExchangeFits, TablesFit, three, held, drawn};

use halves::{mul_first_half, take_message};
use rep3::{Answer, Refusal, message};

// The positions that are multiplied at a time: what an inversion takes of the stack hangs on it.
pub const SPACE: usize = 256;

// The direction from which the messages of a product come.
const NEXT: u32 = 0;

// The alphas that the three parties draw from, each party's its own. They are secret, as RssShare is.
#[derive(Clone, Copy)]
pub struct Alphas<'a> {
    pub a0: &'a [u8],
    pub a1: &'a [u8],
    pub a2: &'a [u8],
}

// Party p's first half, of its parts of the two tables, into its outbox.
fn send(outbox: &mut [u8], x: &[u8], y: &[u8], alphas: &[u8], n: usize, p: usize) -> Answer
    requires { PartyFits n p (length outbox.old) (length x.now) (length y.now) (length alphas.now) }
    ensures done { result ≡ Ok tt }
    ensures bytes { outbox.new ≡ first_half n (si_part n p x.now) (sii_part n p x.now) (si_part n p y.now) (sii_part n p y.now) alphas.now }
{
    let a = 2 * p * n;
    let b = a + n;
    let e = b + n;
    mul_first_half(outbox, &x[a..b], &x[b..e], &y[a..b], &y[b..e], alphas)
}

// Party p's two parts of the product: what it computed, and the message of the next party.
fn receive<'a>(
    out: &mut [u8],
    own: &[u8],
    next: &'a [u8],
    previous: &'a [u8],
    n: usize,
    p: usize,
) -> Answer
    requires { PartyFits n p (length own.now) (length out.old) (length out.old) (length next.now) }
    ensures done { result ≡ Ok tt }
    ensures parts { Exchanged n p own.now next.now out.old out.new }
{
    let a = 2 * p * n;
    let b = a + n;
    let e = b + n;
    let kept = take_message(&mut out[a..b], own);
    let Ok(()) = kept else {
        return kept;
    };
    take_message(&mut out[b..e], message(next, previous, NEXT, 0, n))
}

// Each party takes its message off the next party's outbox.
fn exchange<'a>(out: &mut [u8], c0: &'a [u8], c1: &'a [u8], c2: &'a [u8], n: usize) -> Answer
    requires { ExchangeFits n (length out.old) (length c0.now) (length c1.now) (length c2.now) }
    ensures done { result ≡ Ok tt }
    ensures bytes { out.new ≡ six_parts (λ k. three c0.now c1.now c2.now (share_of k)) }
{
    let taken0 = receive(out, c0, c1, c2, n, 0);
    let Ok(()) = taken0 else {
        return taken0;
    };
    let taken1 = receive(out, c1, c2, c0, n, 1);
    let Ok(()) = taken1 else {
        return taken1;
    };
    receive(out, c2, c0, c1, n, 2)
}

// The product of tables that fit.
#[tactic(auto, unfolding(crate::specs::Joint::space_size))]
fn multiply(out: &mut [u8], x: &[u8], y: &[u8], alphas: &Alphas, place: usize, n: usize) -> Answer
    requires { TablesFit n place (length out.old) (length x.now) (length y.now) (length alphas.now.a0.now) (length alphas.now.a1.now) (length alphas.now.a2.now) }
    ensures done { result ≡ Ok tt }
    ensures bytes { out.new ≡ product_of n x.now y.now (drawn place n (held alphas.now)) }
{
    let end = place + n;
    // Arrays cut to the positions at hand: nothing is allocated. Each party's outbox and step has its own line, as in the protocol.
    let mut outbox0 = [0; SPACE];
    let mut outbox1 = [0; SPACE];
    let mut outbox2 = [0; SPACE];
    let sent0 = send(&mut outbox0[0..n], x, y, &alphas.a0[place..end], n, 0);
    let Ok(()) = sent0 else {
        return sent0;
    };
    let sent1 = send(&mut outbox1[0..n], x, y, &alphas.a1[place..end], n, 1);
    let Ok(()) = sent1 else {
        return sent1;
    };
    let sent2 = send(&mut outbox2[0..n], x, y, &alphas.a2[place..end], n, 2);
    let Ok(()) = sent2 else {
        return sent2;
    };
    exchange(out, &outbox0[0..n], &outbox1[0..n], &outbox2[0..n], n)
}

#[tactic(auto, using(std::proofs::lemmas::Bool::Decides::nat_tests), unfolding(crate::specs::Joint::joint_number, crate::specs::Joint::space_size))]
fn joint_check(out: usize, x: usize, y: usize, alphas: &Alphas, place: usize) -> Answer
    ensures { number_of result ≡ joint_number out x y (length alphas.now.a0.now) (length alphas.now.a1.now) (length alphas.now.a2.now) place }
{
    let a0 = alphas.a0.len();
    if out % 6 != 0 || x != out || y != out || alphas.a1.len() != a0 || alphas.a2.len() != a0 {
        return Err(Refusal::Length);
    }
    if out / 6 > SPACE {
        return Err(Refusal::TooMany);
    }
    if place > a0 || out / 6 > a0 - place {
        return Err(Refusal::Alphas);
    }
    Ok(())
}

// The product of the share tables x and y, with as many of each party's alphas from a place as the tables have positions.
pub fn mul_tables(out: &mut [u8], x: &[u8], y: &[u8], alphas: &Alphas, place: usize) -> Answer
    ensures number { number_of result ≡ joint_number (length out.old) (length x.now) (length y.now) (length alphas.now.a0.now) (length alphas.now.a1.now) (length alphas.now.a2.now) place }
    ensures bytes { out.new ≡ when_done (number_of result) (product_of (length out.old / 6) x.now y.now (drawn place (length out.old / 6) (held alphas.now))) out.old }
{
    joint_check(out.len(), x.len(), y.len(), alphas, place)?;
    let n = out.len() / 6;
    multiply(out, x, y, alphas, place, n)
}
