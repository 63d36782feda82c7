//! The functions that a walk has found so far.

ghost use Rattle.std.specs.Prelude.{◌≡◌, ◌<◌, ◌^◌, false, length, replicate, IfOk};
ghost use Rattle.form_layouts.specs.Marks.{with_role, numbers_from};

use sqlite_items::Items;
use std::alloc::{AllocError, Global};
use ufl_tree::Role;

/// The functions beside the arguments that were found.
#[derive(Drop)]
pub(crate) struct Marks {
    /// Of each coefficient by its number: was it found?
    pub(crate) coefficients: Items<bool>,
    pub(crate) position: bool,
}

impl Marks {
    /// None of so many coefficients, and no position.
    pub(crate) fn none(alloc: Global, count: u32) -> Result<Marks, AllocError>
        ensures { IfOk result (λ m. m ≡ record { coefficients = replicate count false; position = false }) }
    {
        Ok(Marks {
            coefficients: Items::from_vec(vec![in alloc; false; count as usize]?),
            position: false,
        })
    }

    /// Those that were found and the function of this role; an argument isn't counted.
    #[tactic(auto, using(crate::proofs::MarkLaws::roles))]
    pub(crate) fn add(&mut self, role: Role)
        ensures { self.new ≡ with_role role self.old }
    {
        match role {
            Role::Test | Role::Trial => {}
            Role::Position => self.position = true,
            Role::Coefficient(n) => {
                let n = n as usize;
                if n < self.coefficients.len() {
                    self.coefficients.set(n, true);
                }
            }
        }
    }

    /// The numbers of the coefficients that were found.
    pub(crate) fn numbers(&self, alloc: Global) -> Result<Items<u32>, AllocError>
        requires { length self.now.coefficients < 2 ^ 32 }
        ensures { IfOk result (λ numbers. numbers ≡ numbers_from 0 self.now.coefficients) }
    {
        let mut numbers = Items::new(alloc);
        for (number, is) in self.coefficients.as_slice().iter().enumerate() {
            if *is {
                numbers.push(number as u32)?;
            }
        }
        Ok(numbers)
    }
}
