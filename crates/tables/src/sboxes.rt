// SubBytes with the ShiftRows that follows it, and InvShiftRows with the InvSubBytes that follows it: the part of a round that draws alphas.
// The answers of steps go up as in parts.rt. n goes beside the table, and not in one value with it, since each step writes the table and would
// have to promise that n stays. Bytes are secret: nothing branches on them.
ghost use Rattle.std.specs.Prelude.{◌≡◌, length};
ghost use Rattle.joint.specs.Joint.{held};
ghost use Rattle.chain.specs.Powers.{AlphasFit};
ghost use Rattle.tables.specs.Fits.{TableFits};
ghost use Rattle.tables.specs.Tables.{sub_shifted, shift_subbed};

use crate::parts::{Layer, on_parts};
use chida::gf8_inv_parties;
use joint::Alphas;
use rep3::Answer;

// SubBytes, as invert, affine without constant, shared 0x63, and then ShiftRows.
pub(crate) fn sub_shift(state: &mut [u8], alphas: &Alphas, n: usize) -> Answer
    requires table { TableFits n (length state.old) }
    requires alphas_fit { AlphasFit n (length alphas.now.a0.now) (length alphas.now.a1.now) (length alphas.now.a2.now) }
    ensures done { result ≡ Ok tt }
    ensures bytes { state.new ≡ sub_shifted n (held alphas.now) state.old }
{
    let inverted = gf8_inv_parties(state, alphas);
    let Ok(()) = inverted else {
        return inverted;
    };
    let substituted = on_parts(state, Layer::Affine, n);
    let Ok(()) = substituted else {
        return substituted;
    };
    on_parts(state, Layer::ShiftRows, n)
}

// InvShiftRows, and then the inverse of SubBytes: shared 0x63, inverse affine, invert.
pub(crate) fn shift_sub(state: &mut [u8], alphas: &Alphas, n: usize) -> Answer
    requires table { TableFits n (length state.old) }
    requires alphas_fit { AlphasFit n (length alphas.now.a0.now) (length alphas.now.a1.now) (length alphas.now.a2.now) }
    ensures done { result ≡ Ok tt }
    ensures bytes { state.new ≡ shift_subbed n (held alphas.now) state.old }
{
    let shifted = on_parts(state, Layer::InvShiftRows, n);
    let Ok(()) = shifted else {
        return shifted;
    };
    let mapped = on_parts(state, Layer::InvAffine, n);
    let Ok(()) = mapped else {
        return mapped;
    };
    gf8_inv_parties(state, alphas)
}
