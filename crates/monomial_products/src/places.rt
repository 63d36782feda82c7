//! Where the functions of a monomial stand in a layout.

ghost use Rattle.std.specs.Prelude.{◌≡◌, slice_get, option_copied};
ghost use Rattle.monos.specs.Layout.{role_parts, place_of as place_in};
ghost use Rattle.monos.specs.Monomial.{derivative_count as derivatives_of};

use monos::{Atom, CoefPlace, Layout};
use spaces::{Part, Parts};
use ufl_tree::Role;

/// The place of the coefficient of this number.
fn place_of(places: &[CoefPlace], number: u32) -> Option<&CoefPlace>
    ensures { option_copied result ≡ place_in places.now number }
{
    for place in places {
        if place.number == number {
            return Some(place);
        }
    }
    None
}

/// The part of a component.
pub fn component_of(parts: &Parts, component: u8) -> Option<Part>
    ensures { result ≡ slice_get parts.now.items component }
{
    parts.items.get(component as usize).copied()
}

/// The scalar part that an atom is of, where its function has such a component in the layout.
pub fn part_of(l: &Layout, atom: Atom) -> Option<Part>
    ensures { result ≡ slice_get (role_parts l.now atom.f.role) atom.component }
{
    match atom.f.role {
        Role::Test => component_of(&l.rows, atom.component),
        Role::Trial => component_of(&l.cols, atom.component),
        Role::Position => match &l.position {
            Some(parts) => component_of(parts, atom.component),
            None => None,
        },
        Role::Coefficient(number) => match place_of(l.coefs.as_slice(), number) {
            Some(place) => component_of(&place.parts, atom.component),
            None => None,
        },
    }
}

/// How often an atom is derived, in all directions together.
pub fn derivative_count(atom: Atom) -> u16
    ensures { result ≡ derivatives_of atom }
{
    let [x, y, z] = atom.dirs;
    x as u16 + y as u16 + z as u16
}
