// The field GF(2^8) of FIPS-197 on bytes: the port of Maestro's share/gf8.rs. Every function takes any bytes and promises the value
// that the standard's definition gives. Operands are secret, so nothing branches on them.
#![tactic(auto)]

mod affine_table;
mod inv_affine_table;
mod square_table;

ghost use Rattle.std.specs.Prelude.{◌≡◌, ◌*◌, ◌%◌};
ghost use Rattle.fips197.specs.Field as field;
ghost use Rattle.fips197.specs.Field.{◌⊕◌, ◌·◌};

// The degree-8 polynomial of the field without its highest term: x^8 is x^4 + x^3 + x + 1.
const REDUCTION: u8 = 0x1b;

// The constant of the S-box's affine map, which the map's table leaves to the caller.
pub const AFFINE_CONSTANT: u8 = 0x63;

// The sum, which is the difference too.
pub fn add(a: u8, b: u8) -> u8
    ensures { result ≡ a ⊕ b }
{
    a ^ b
}

// x where the lowest bit of y is 1, and 0 where it is 0: what a branch would choose, chosen by a mask.
fn masked(x: u8, y: u8) -> u8
    ensures { result ≡ y % 2 * x }
{
    x & ((y & 1) * 0xff)
}

// Multiplication by x: a shift, and a reduction where the highest bit was set.
fn xtime(a: u8) -> u8
    ensures { result ≡ field.xtime a }
{
    add(a << 1, masked(REDUCTION, a >> 7))
}

// The product: for each bit of b that is 1, from the lowest, a times that power of x is added. The loop's invariant speaks of i.
pub fn mul(a: u8, b: u8) -> u8
    ensures { result ≡ a · b }
{
    let mut sum: u8 = 0;
    let mut x = a;
    let mut y = b;
    for i in 0..u8::BITS {
        sum = add(sum, masked(x, y));
        x = xtime(x);
        y >>= 1;
    }
    sum
}

pub fn square(a: u8) -> u8
    ensures { result ≡ field.square a }
{
    square_table::TABLE[a as usize]
}

// The affine map of the S-box without its constant, which is the caller's to add, as a shared one.
pub fn aes_sbox_affine_transform(a: u8) -> u8
    ensures { result ≡ field.affine a }
{
    affine_table::TABLE[a as usize]
}

pub fn inv_aes_sbox_affine_transform(a: u8) -> u8
    ensures { result ≡ field.inv_affine a }
{
    inv_affine_table::TABLE[a as usize]
}
