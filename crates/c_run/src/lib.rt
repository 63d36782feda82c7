//! The machine that runs kernels: the statements of a function of `c_unit` over slots of exact fractions.
//!
//! A `Machine` owns the slots of one function's temporaries, and runs that function on as many cells as its caller has.
//! Each run gives what `c_unit`'s `specs/Meaning.antt` says, with A as far as it was written, and takes no memory. A loop
//! that makes no statement, however many turns it has, is left out when the machine is made.
#![tactic(auto)]

mod block;
mod busy;
mod machine;
mod place;
mod ret;
mod statement;

pub use machine::Machine;
pub use ret::Ret;
