//! The integrands of the function of a marker.

ghost use Rattle.std.specs.Prelude.{◌≡◌, ◌++◌, [], ◌∷◌, OnOk, IfOk, map};
ghost use Rattle.ufl_tree.specs.Reading.{term_of};
ghost use Rattle.integrands.specs.Integrands.{integrand_of, integrands_of};
ghost use Rattle.form_monomials.specs.Markers.{is_part, bodies_in};

use integrands::Integrand;
use std::alloc::{AllocError, Global};
use ufl_tree::{On, Plain};

/// Does an integral over these cells belong to the function of the marker, or, where there is none, to that of the
/// cells whose marker the form doesn't name?
fn is_part(marker: Option<u32>, on: On) -> bool
    ensures { result ≡ is_part marker on }
{
    match on {
        On::All => true,
        On::Marked(k) => match marker {
            None => false,
            Some(m) => k == m,
        },
    }
}

/// Puts a copy of the body of an integrand behind the others, where it is one of the function's.
fn push_body(
    alloc: Global,
    all: &mut Vec<Plain>,
    p: &Integrand,
    marker: Option<u32>,
) -> Result<(), AllocError>
    ensures { OnOk result (map term_of all.new.items
        ≡ map term_of all.old.items ++ bodies_in marker (integrand_of p.now ∷ [])) }
{
    if !is_part(marker, p.on) {
        return Ok(());
    }
    all.push(p.body.copy(alloc)?)?;
    Ok(())
}

/// Copies of the bodies of its integrands, in order: an integral over all cells belongs to each function.
pub(crate) fn bodies(
    alloc: Global,
    integrands: &[Integrand],
    marker: Option<u32>,
) -> Result<Vec<Plain>, AllocError>
    ensures { IfOk result (λ all. map term_of all.items ≡ bodies_in marker (integrands_of integrands.now)) }
{
    let mut all = Vec::new(alloc);
    for p in integrands {
        push_body(alloc, &mut all, p, marker)?;
    }
    Ok(all)
}
