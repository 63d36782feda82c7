//! The markers that a form names.

ghost use Rattle.std.specs.Prelude.{◌≡◌, ◌++◌, [], OnOk, IfOk};
ghost use Rattle.integrands.specs.Integrands.{integrands_of};
ghost use Rattle.form_monomials.specs.Markers.{marker_before, named, AreMarkers};

use integrands::Integrand;
use std::alloc::{AllocError, Global};
use ufl_tree::On;

/// Puts the marker of the cells behind the others, where they have one.
fn push_marker(all: &mut Vec<u32>, on: On) -> Result<(), AllocError>
    ensures { OnOk result (all.new.items ≡ all.old.items ++ marker_before on []) }
{
    match on {
        On::All => Ok(()),
        On::Marked(marker) => {
            all.push(marker)?;
            Ok(())
        }
    }
}

/// The markers of the integrals that are over the cells with one, in the order of the integrals.
fn named(alloc: Global, integrands: &[Integrand]) -> Result<Vec<u32>, AllocError>
    ensures { IfOk result (λ ms. ms.items ≡ named (integrands_of integrands.now)) }
{
    let mut all = Vec::new(alloc);
    for p in integrands {
        push_marker(&mut all, p.on)?;
    }
    Ok(all)
}

/// The markers that a form names, by rising number, each once, from its integrands.
pub fn markers(alloc: Global, integrands: &[Integrand]) -> Result<Vec<u32>, AllocError>
    ensures { IfOk result (λ ms. AreMarkers (integrands_of integrands.now) ms.items) }
{
    let mut all = named(alloc, integrands)?;
    all.sort_unstable();
    all.dedup();
    Ok(all)
}
