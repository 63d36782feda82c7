//! At which local nodes of an argument a monomial may be other than 0.

ghost use Rattle.std.specs.Prelude.{◌≡◌, ◌<◌, slice_get, if◌then◌else◌};
ghost use Rattle.ufl_tree.specs.declared.function.Role.TheVariants.{Test, Trial};
ghost use Rattle.monos.specs.Layout.{IsLawfulLayout};
ghost use Rattle.monomial_products.specs.Supports.{places_at, place_at, is_role, narrowed as narrowed_by, support_of, AreOn};

use crate::places::component_of;
use monos::{Atom, Layout};
use spaces::Part;
use ufl_tree::Role;

/// The local nodes of an argument at which a monomial's entries may be other than 0.
#[derive(Clone, Copy, Debug, PartialEq, Eq)]
pub enum Support {
    /// All of them: no atom is of the argument, and the entries are the same at each node.
    Everywhere,
    /// Those of one part: each atom of the argument is of it.
    OnPart(Part),
    /// None: an atom has no part, or two atoms are of different parts.
    Nowhere,
}

impl Support {
    /// How many nodes have rows of their own.
    pub fn places(self) -> u32
        ensures { result ≡ places_at self }
    {
        match self {
            Support::Everywhere => 1,
            Support::OnPart(part) => part.nodes as u32,
            Support::Nowhere => 0,
        }
    }

    /// Which of these rows belongs to a local node; none where the entries there are 0.
    pub fn place(self, node: u32) -> Option<u32>
        ensures { result ≡ place_at self node }
    {
        match self {
            Support::Everywhere => Some(0),
            Support::OnPart(part) => if part.offset <= node
                && node - part.offset < part.nodes as u32
            {
                Some(node - part.offset)
            } else {
                None
            },
            Support::Nowhere => None,
        }
    }
    /// What is left of it where one more atom is of this part. The parts of a function begin at different nodes.
    fn narrowed(self, part: Option<Part>) -> Support
        ensures { result ≡ narrowed_by self part }
    {
        let Some(part) = part else {
            return Support::Nowhere;
        };
        match self {
            Support::Everywhere => Support::OnPart(part),
            Support::OnPart(other) => if other.offset == part.offset {
                self
            } else {
                Support::Nowhere
            },
            Support::Nowhere => self,
        }
    }
}

/// Whether a function is the test function.
fn is_test(role: Role) -> bool
    ensures { result ≡ is_role role Test }
{
    match role {
        Role::Test => true,
        Role::Trial | Role::Position | Role::Coefficient(_) => false,
    }
}

/// Whether a function is the trial function.
fn is_trial(role: Role) -> bool
    ensures { result ≡ is_role role Trial }
{
    match role {
        Role::Trial => true,
        Role::Test | Role::Position | Role::Coefficient(_) => false,
    }
}

/// What is left of a support where one more atom stands, of the test function or not.
fn within_test(l: &Layout, atom: Atom, kept: Support) -> Support
    ensures { result ≡ (if is_role atom.f.role Test then narrowed_by kept (slice_get l.now.rows.items atom.component) else
        kept) }
{
    if is_test(atom.f.role) {
        kept.narrowed(component_of(&l.rows, atom.component))
    } else {
        kept
    }
}

/// Where the atoms of the test function let a product be other than 0.
pub fn test_support(l: &Layout, atoms: &[Atom]) -> Support
    ensures value { result ≡ support_of l.now Test atoms.now }
    ensures on { IsLawfulLayout l.now → 0 < places_at result → AreOn l.now Test result atoms.now }
{
    let mut kept = Support::Everywhere;
    for atom in atoms {
        kept = within_test(l, *atom, kept);
    }
    kept
}

/// What is left of a support where one more atom stands, of the trial function or not.
fn within_trial(l: &Layout, atom: Atom, kept: Support) -> Support
    ensures { result ≡ (if is_role atom.f.role Trial then narrowed_by kept (slice_get l.now.cols.items atom.component) else
        kept) }
{
    if is_trial(atom.f.role) {
        kept.narrowed(component_of(&l.cols, atom.component))
    } else {
        kept
    }
}

/// Where the atoms of the trial function let a product be other than 0.
pub fn trial_support(l: &Layout, atoms: &[Atom]) -> Support
    ensures value { result ≡ support_of l.now Trial atoms.now }
    ensures on { IsLawfulLayout l.now → 0 < places_at result → AreOn l.now Trial result atoms.now }
{
    let mut kept = Support::Everywhere;
    for atom in atoms {
        kept = within_trial(l, *atom, kept);
    }
    kept
}
