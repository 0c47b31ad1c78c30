// The inverse: FIPS-197's Figure 12 on a share table, counted and answered as in cipher_run.rt. One run over both would take the first key,
// the round, the last step and the last key as parameters, with a promise of each, to share a loop and a count.
ghost use Rattle.std.specs.Prelude.{◌≡◌, ◌*◌, ◌/◌, ◌<◌, length};
ghost use Rattle.rep3.specs.Answers.{number_of, when_done};
ghost use Rattle.needs.specs.Needs.{rounds_of, run_number};
ghost use Rattle.aes.specs.Runs.{inverse_of};
ghost use Rattle.aes.specs.Steps.{inverse_round};

use crate::run::Run;
use needs::{INVERSE, rounds_of, run_check};
use rep3::Answer;
use tables::Layer;

impl Run<'_> {
    // The round after r others, which is not the last.
    fn inverse_round(&self, state: &mut [u8], r: usize) -> Answer
        requires table { length state.old ≡ 6 * self.now.n }
        requires round { r < self.now.rounds }
        ensures done { result ≡ Ok tt }
        ensures bytes { state.new ≡ inverse_round self.now.n self.now.rounds self.now.keys.now self.now.alphas.now r state.old }
    {
        let substituted = self.shift_and_sub(state, r);
        let Ok(()) = substituted else {
            return substituted;
        };
        let keyed = self.add_key(state, self.rounds - 1 - r);
        let Ok(()) = keyed else {
            return keyed;
        };
        self.layer(state, Layer::InvMixColumns)
    }

    // AddRoundKey with the last round key, the rounds, and the last one, which has no InvMixColumns.
    fn inverse(&self, state: &mut [u8]) -> Answer
        requires { length state.old ≡ 6 * self.now.n }
        ensures done { result ≡ Ok tt }
        ensures bytes { state.new ≡ inverse_of self.now.n self.now.rounds self.now.keys.now self.now.alphas.now state.old }
    {
        let begun = self.add_key(state, self.rounds);
        let Ok(()) = begun else {
            return begun;
        };
        let last = self.rounds - 1;
        for r in 0..last {
            let step = self.inverse_round(state, r);
            let Ok(()) = step else {
                return step;
            };
        }
        let substituted = self.shift_and_sub(state, last);
        let Ok(()) = substituted else {
            return substituted;
        };
        self.add_key(state, 0)
    }
}

// The inverse, in place: what the cipher made of a state table back again.
pub fn inverse(variant: u32, state: &mut [u8], keys: &[u8], alphas: &[u8]) -> Answer
    ensures number { number_of result ≡ run_number 1 variant (length state.old) (length keys.now) (length alphas.now) }
    ensures bytes { state.new ≡ when_done (number_of result) (inverse_of (length state.old / 6) (rounds_of variant) keys.now alphas.now state.old) state.old }
{
    run_check(INVERSE, variant, state.len(), keys.len(), alphas.len())?;
    let run = Run {
        keys,
        alphas,
        n: state.len() / 6,
        rounds: rounds_of(variant),
    };
    run.inverse(state)
}
