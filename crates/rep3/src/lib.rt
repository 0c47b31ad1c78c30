// Replicated shares among three parties: what every step answers and its number, a party's share of one byte, the share of a constant,
// and a message as a part of a neighbour's outbox. The definitions of share tables, opening and consistency stand in specs/Tables.antt.
#![tactic(auto)]

ghost use Rattle.std.specs.Prelude.{◌≡◌};
ghost use Rattle.rep3.specs.Answers.{number_of, refusal_number};
ghost use Rattle.rep3.specs.Shares.{constant_of, part_of, message_of};

// Why a step refused. The variants stand in the order of their numbers. It has no text: the number is what goes over the boundary, and nothing
// here prints.
#[derive(Clone, Copy, Debug, PartialEq, Eq, Hash)]
pub enum Refusal {
    Length,
    TooMany,
    Message,
    Block,
    Keys,
    Alphas,
    Variant,
    Party,
    Round,
    Header,
    Mode,
    Count,
}

// What a step answers: done, or why it refused.
pub type Answer = Result<(), Refusal>;

impl From<Refusal> for u32 {
    ghost from_gives = { λ r n. n ≡ refusal_number r };

    fn from(refusal: Refusal) -> u32 {
        match refusal {
            Refusal::Length => 1,
            Refusal::TooMany => 2,
            Refusal::Message => 3,
            Refusal::Block => 4,
            Refusal::Keys => 5,
            Refusal::Alphas => 6,
            Refusal::Variant => 7,
            Refusal::Party => 8,
            Refusal::Round => 9,
            Refusal::Header => 10,
            Refusal::Mode => 11,
            Refusal::Count => 12,
        }
    }
}

// The number that goes over the boundary. Not a From, which a crate cannot write for a Result.
pub fn number(answer: Answer) -> u32
    ensures { result ≡ number_of answer }
{
    match answer {
        Ok(()) => 0,
        Err(refusal) => u32::from(refusal),
    }
}

// One party's share of a byte s0 + s1 + s2: party i holds s_i and s_(i+1 mod 3). It is secret, so it has no Debug, and no ==, which branches.
#[derive(Clone, Copy)]
pub struct RssShare {
    pub si: u8,
    pub sii: u8,
}

// The share of a constant, or the refusal.
pub type SharedConstant = Result<RssShare, Refusal>;

// A party's share of a constant that all know: s0 is the constant, and s1 and s2 are 0. The party is a number, and any number has its answer.
#[tactic(auto, using(std::proofs::lemmas::Bool::Decides::nat_tests), unfolding(crate::specs::Shares::constant_of))]
pub fn constant(party: u32, value: u8) -> SharedConstant
    ensures { result ≡ constant_of party value }
{
    match party {
        0 => Ok(RssShare { si: value, sii: 0 }),
        1 => Ok(RssShare { si: 0, sii: 0 }),
        2 => Ok(RssShare { si: 0, sii: value }),
        _ => Err(Refusal::Party),
    }
}

// count bytes of s from place; none where they would run past the end, which document 01 asks for in the place of a refusal.
#[tactic(auto, using(std::proofs::lemmas::Bool::Decides::nat_tests), unfolding(crate::specs::Shares::part_of))]
fn part_of(s: &[u8], place: usize, count: usize) -> &[u8]
    ensures { result.now ≡ part_of s.now place count }
{
    let n = s.len();
    if place > n || count > n - place {
        return &s[0..0];
    }
    let end = place + count;
    &s[place..end]
}

// The message that a party reads: count bytes from place of the outbox that the direction names, 0 the next party's and 1 the previous
// one's. It has no bytes for another direction, which may be any number, or where they would run past the outbox's end.
#[tactic(auto, using(std::proofs::lemmas::Bool::Decides::nat_tests), unfolding(crate::specs::Shares::message_of))]
pub fn message<'a>(
    next: &'a [u8],
    previous: &'a [u8],
    direction: u32,
    place: usize,
    count: usize,
) -> &'a [u8]
    ensures { result.now ≡ message_of next.now previous.now direction place count }
{
    match direction {
        0 => part_of(next, place, count),
        1 => part_of(previous, place, count),
        _ => &next[0..0],
    }
}
