// What a run is given besides its state table, and its steps. What fits the run is refused by no step; a step answers all the same, and
// who calls it looks.
ghost use Rattle.std.specs.Prelude.{◌≡◌, ◌*◌, ◌≤◌, ◌<◌, length};
ghost use Rattle.fips197.specs.State.{shift_rows, inv_shift_rows};
ghost use Rattle.layers.specs.Layers.{each_block};
ghost use Rattle.chain.specs.Chain.{inversion_need};
ghost use Rattle.tables.specs.Fits.{PartFits};
ghost use Rattle.tables.specs.Tables.{on_table};
ghost use Rattle.needs.specs.Needs.{key_table_bytes};
ghost use Rattle.aes.specs.Runs.{on_parts, sub_bytes_of, inv_sub_bytes_of, add_key_of, alphas_of};

use rep3::Answer;
use tables::Layer;

// The key table and the alphas of a run of so many rounds on a state table of n positions. The state table itself is lent to each step: were
// it a field, each step would have to promise that the other fields stay.
#[derive(Clone, Copy)]
pub(crate) struct Run<'a> {
    pub(crate) keys: &'a [u8],
    pub(crate) alphas: &'a [u8],
    pub(crate) n: usize,
    pub(crate) rounds: usize,
    ghost blocks: { PartFits n },
    ghost first: { 1 ≤ rounds },
    ghost last: { rounds ≤ 14 },
    ghost key_table: { length keys.now ≡ key_table_bytes rounds },
    ghost buffer: { length alphas.now ≡ 3 * (rounds * inversion_need n) },
}

impl Run<'_> {
    // A layer on each part.
    pub(crate) fn layer(&self, state: &mut [u8], layer: Layer) -> Answer
        requires { length state.old ≡ 6 * self.now.n }
        ensures done { result ≡ Ok tt }
        ensures bytes { state.new ≡ on_table self.now.n layer state.old }
    {
        tables::on_table(state, layer)
    }

    // AddRoundKey with round key r.
    pub(crate) fn add_key(&self, state: &mut [u8], r: usize) -> Answer
        requires table { length state.old ≡ 6 * self.now.n }
        requires round { r ≤ self.now.rounds }
        ensures done { result ≡ Ok tt }
        ensures bytes { state.new ≡ add_key_of self.now.n self.now.rounds self.now.keys.now r state.old }
    {
        tables::add_key(state, self.keys, r)
    }

    // SubBytes and ShiftRows in the round after r others, whose inversion goes on in the alphas where the last one stopped.
    pub(crate) fn sub_and_shift(&self, state: &mut [u8], r: usize) -> Answer
        requires table { length state.old ≡ 6 * self.now.n }
        requires round { r < self.now.rounds }
        ensures done { result ≡ Ok tt }
        ensures bytes { state.new ≡ on_parts self.now.n (each_block shift_rows) (sub_bytes_of self.now.n (alphas_of self.now.n self.now.rounds self.now.alphas.now r) state.old) }
    {
        tables::sub_and_shift(state, self.alphas, r * (4 * self.n))
    }

    // InvShiftRows and InvSubBytes, in the same way.
    pub(crate) fn shift_and_sub(&self, state: &mut [u8], r: usize) -> Answer
        requires table { length state.old ≡ 6 * self.now.n }
        requires round { r < self.now.rounds }
        ensures done { result ≡ Ok tt }
        ensures bytes { state.new ≡ inv_sub_bytes_of self.now.n (alphas_of self.now.n self.now.rounds self.now.alphas.now r) (on_parts self.now.n (each_block inv_shift_rows) state.old) }
    {
        tables::shift_and_sub(state, self.alphas, r * (4 * self.n))
    }
}
