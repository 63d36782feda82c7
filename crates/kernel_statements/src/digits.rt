//! The factors of the columns of a monomial, and the local nodes at which it has rows.

ghost use Rattle.std.specs.Prelude.{◌≡◌, ◌+◌, ◌<◌, ◌^◌, ◌++◌, Some, replicate, IfOk, OnOk};
ghost use Rattle.std.specs.List.{flat_map};
ghost use Rattle.spaces.specs.declared.parts.Part.{Part};
ghost use Rattle.monos.specs.Layout.{IsLawfulLayout, place_of as place_in};
ghost use Rattle.monos.specs.Monomial.{directions as directions_of};
ghost use Rattle.refint.specs.Local.{entries_of};
ghost use Rattle.monomial_products.specs.declared.support.Support.TheVariants.{OnPart};
ghost use Rattle.kernel_statements.specs.Digits.{digit_of as digit_in, offset_in, part_digit as part_digit_of, corner_digit as corner_digit_of, coefficient_digits, first_node, end_node};

use kernel_runs::Digit;
use monomial_products::{Support, part_of};
use monos::{Atom, CoefPlace, Layout};
use spaces::{Part, Parts};
use std::alloc::{AllocError, Global};
use ufl_tree::Role;

/// How many local nodes an argument has; one that doesn't occur counts as one.
pub fn entry_count(parts: &Parts) -> u32
    ensures { result ≡ entries_of parts.now }
{
    if parts.items.is_empty() {
        1
    } else {
        parts.local
    }
}

// Where the values of the coefficient of this number begin.
fn offset_of(places: &[CoefPlace], number: u32) -> u32
    ensures { result ≡ offset_in (place_in places.now number) }
{
    for place in places {
        if place.number == number {
            return place.offset;
        }
    }
    0
}

// The values of the nodes of a part of a coefficient whose values begin at `offset`.
fn part_digit(offset: u32, part: Option<Part>) -> Digit
    requires { (p : Part) → part ≡ Some p → offset + p.offset < 2 ^ 32 }
    ensures { result ≡ part_digit_of offset part }
{
    match part {
        Some(part) => Digit::Weights {
            offset: offset + part.offset,
            count: part.nodes as u32,
        },
        None => Digit::Weights {
            offset: 0,
            count: 0,
        },
    }
}

// A coordinate of the corners at the nodes of a part.
fn corner_digit(axis: u8, part: Option<Part>) -> Digit
    ensures { result ≡ corner_digit_of axis part }
{
    match part {
        Some(part) => Digit::Corners {
            axis,
            count: part.nodes as u32,
        },
        None => Digit::Weights {
            offset: 0,
            count: 0,
        },
    }
}

// The values that an atom is summed over; none for an argument.
fn digit_of(l: &Layout, atom: Atom) -> Option<Digit>
    requires { IsLawfulLayout l.now }
    ensures { result ≡ digit_in l.now atom.f.role atom.component }
{
    match atom.f.role {
        Role::Test | Role::Trial => None,
        Role::Position => Some(corner_digit(atom.component, part_of(l, atom))),
        Role::Coefficient(number) => {
            let offset = offset_of(l.coefs.as_slice(), number);
            Some(part_digit(offset, part_of(l, atom)))
        }
    }
}

/// The values of the atoms that are no arguments, in their order.
pub fn coefficients(alloc: Global, l: &Layout, atoms: &[Atom]) -> Result<Vec<Digit>, AllocError>
    requires { IsLawfulLayout l.now }
    ensures { IfOk result (λ digits. digits.items ≡ coefficient_digits l.now atoms.now) }
{
    let mut digits = Vec::new(alloc);
    for atom in atoms {
        if let Some(digit) = digit_of(l, *atom) {
            digits.push(digit)?;
        }
    }
    Ok(digits)
}

fn push_times(directions: &mut Vec<u8>, direction: u8, count: u8) -> Result<(), AllocError>
    ensures { OnOk result (directions.new.items ≡ directions.old.items ++ replicate count direction) }
{
    for _ in 0..count {
        directions.push(direction)?;
    }
    Ok(())
}

fn push_directions(all: &mut Vec<u8>, atom: Atom) -> Result<(), AllocError>
    ensures { OnOk result (all.new.items ≡ all.old.items ++ directions_of atom) }
{
    let [x, y, z] = atom.dirs;
    push_times(all, 0, x)?;
    push_times(all, 1, y)?;
    push_times(all, 2, z)?;
    Ok(())
}

/// The directions of all derivatives, atom by atom, each as often as the atom was derived in it.
pub fn directions(alloc: Global, atoms: &[Atom]) -> Result<Vec<u8>, AllocError>
    ensures { IfOk result (λ all. all.items ≡ flat_map directions_of atoms.now) }
{
    let mut all = Vec::new(alloc);
    for atom in atoms {
        push_directions(&mut all, *atom)?;
    }
    Ok(all)
}

/// Local nodes of an argument: from one on, before another.
#[derive(Clone, Copy, Debug, PartialEq, Eq)]
pub struct Nodes {
    pub from: u32,
    pub to: u32,
}

/// The local nodes of an argument at which a monomial's rows may be other than zero.
pub fn argument_nodes(parts: &Parts, support: Support) -> Nodes
    requires { (p : Part) → support ≡ OnPart p → p.offset + p.nodes < 2 ^ 32 }
    ensures from { result.from ≡ first_node support }
    ensures to { result.to ≡ end_node parts.now support }
{
    match support {
        Support::Everywhere => Nodes {
            from: 0,
            to: entry_count(parts),
        },
        Support::OnPart(part) => Nodes {
            from: part.offset,
            to: part.offset + part.nodes as u32,
        },
        Support::Nowhere => Nodes { from: 0, to: 0 },
    }
}
