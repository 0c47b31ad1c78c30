// The cipher: FIPS-197's Figure 5 on a share table. Everything is counted first, and nothing is written before that has passed. A called
// step's answer is opened by let-else and a refusal goes up at once, as document 01 asks under 'Form by location'; `?` is for the counting.
ghost use Rattle.std.specs.Prelude.{◌≡◌, ◌*◌, ◌/◌, ◌<◌, length};
ghost use Rattle.rep3.specs.Answers.{number_of, when_done};
ghost use Rattle.needs.specs.Needs.{rounds_of, run_number};
ghost use Rattle.aes.specs.Runs.{cipher_of};
ghost use Rattle.aes.specs.Steps.{cipher_round};

use crate::run::Run;
use needs::{CIPHER, rounds_of, run_check};
use rep3::Answer;
use tables::Layer;

impl Run<'_> {
    // Round r + 1, which is not the last.
    fn cipher_round(&self, state: &mut [u8], r: usize) -> Answer
        requires table { length state.old ≡ 6 * self.now.n }
        requires round { r < self.now.rounds }
        ensures done { result ≡ Ok tt }
        ensures bytes { state.new ≡ cipher_round self.now.n self.now.rounds self.now.keys.now self.now.alphas.now r state.old }
    {
        let shifted = self.sub_and_shift(state, r);
        let Ok(()) = shifted else {
            return shifted;
        };
        let mixed = self.layer(state, Layer::MixColumns);
        let Ok(()) = mixed else {
            return mixed;
        };
        self.add_key(state, r + 1)
    }

    // AddRoundKey, the rounds, and the last one, which has no MixColumns.
    fn cipher(&self, state: &mut [u8]) -> Answer
        requires { length state.old ≡ 6 * self.now.n }
        ensures done { result ≡ Ok tt }
        ensures bytes { state.new ≡ cipher_of self.now.n self.now.rounds self.now.keys.now self.now.alphas.now state.old }
    {
        let begun = self.add_key(state, 0);
        let Ok(()) = begun else {
            return begun;
        };
        let last = self.rounds - 1;
        for r in 0..last {
            let step = self.cipher_round(state, r);
            let Ok(()) = step else {
                return step;
            };
        }
        let shifted = self.sub_and_shift(state, last);
        let Ok(()) = shifted else {
            return shifted;
        };
        self.add_key(state, self.rounds)
    }
}

// The cipher, in place, on a state table and with the round keys of a key table.
pub fn cipher(variant: u32, state: &mut [u8], keys: &[u8], alphas: &[u8]) -> Answer
    ensures number { number_of result ≡ run_number 0 variant (length state.old) (length keys.now) (length alphas.now) }
    ensures bytes { state.new ≡ when_done (number_of result) (cipher_of (length state.old / 6) (rounds_of variant) keys.now alphas.now state.old) state.old }
{
    run_check(CIPHER, variant, state.len(), keys.len(), alphas.len())?;
    let run = Run {
        keys,
        alphas,
        n: state.len() / 6,
        rounds: rounds_of(variant),
    };
    run.cipher(state)
}
