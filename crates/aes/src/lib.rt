// AES on share tables: the cipher and the inverse with their round keys given, the alphas that a run needs, and one round key half of a
// key table. This is the port of the runs of Maestro's aes/mod.rs. Each run exists once, and the variant is a number, as C gives it.
#![tactic(auto)]

mod cipher_run;
mod inverse_run;
mod run;

pub use cipher_run::cipher;
pub use inverse_run::inverse;
pub use needs::{Needed, need, round_key_answer, round_key_half};
