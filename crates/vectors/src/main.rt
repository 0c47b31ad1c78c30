// Runs the port on what FIPS-197 publishes, and prints the answers: the S-box of Figure 7, row by row. The check holds what is printed
// to the file stdout, which has the standard's own table.
#![tactic(auto)]

ghost use Rattle.std.specs.Prelude.{◌≡◌};
ghost use Rattle.fips197.specs.Field as field;

use gf8::{AFFINE_CONSTANT, add, mul, square};
use std::io;

// The inverse of x by the chain of products that the parties use: x^254.
fn inverse(x: u8) -> u8
    ensures { result ≡ field.inverse x }
{
    let x2 = square(x);
    let x3 = mul(x, x2);
    let x12 = square(square(x3));
    let x15 = mul(x12, x3);
    let x14 = mul(x12, x2);
    let x240 = square(square(square(square(x15))));
    mul(x240, x14)
}

#[tactic(auto, unfolding(fips197::specs::Field::sbox, fips197::specs::Field::affine_constant))]
fn sbox(x: u8) -> u8
    ensures { result ≡ field.sbox x }
{
    add(gf8::aes_sbox_affine_transform(inverse(x)), AFFINE_CONSTANT)
}

fn main(rt: HostRuntime) -> io::Result<()> {
    for x in 0..=255u8 {
        let end = if x % 16 == 15 { "\n" } else { " " };
        print!(rt; "{:02x}{}", sbox(x), end)?;
    }
    Ok(())
}
