//! Integrands whose functions and markers were worked out by hand.

use crate::choice::bodies;
use crate::markers;
use integrands::Integrand;
use ratio::Ratio;
use std::alloc::{AllocError, Global};
use ufl_tree::{On, Plain};

/// The integrands of these integrals: the number of each, from 0, over its cells.
fn numbered(alloc: Global, integrals: &[On]) -> Result<Vec<Integrand>, AllocError> {
    let mut all = Vec::new(alloc);
    let mut n = 0;
    for on in integrals {
        let number = Ratio::new(n, 1).unwrap_or(Ratio::zero());
        all.push(Integrand {
            on: *on,
            body: Plain::Num(number),
        })?;
        n = n.wrapping_add(1);
    }
    Ok(all)
}

fn is_number(tree: &Plain, n: i128) -> bool {
    match tree {
        Plain::Num(c) => Ratio::new(n, 1) == Some(*c),
        _ => false,
    }
}

#[test]
fn functions_and_markers(rt: HostRuntime) -> Result<(), AllocError> {
    let alloc = rt.alloc();
    let mixed: &[On] = &[On::Marked(7), On::All, On::Marked(3), On::Marked(7)];
    // the integrals, a marker, the numbers of its integrals, and the markers of the form
    let cases: [(&[On], Option<u32>, &[i128], &[u32]); 6] = [
        (&[], None, &[], &[]),
        (&[On::All, On::All], Some(1), &[0, 1], &[]),
        (mixed, None, &[1], &[3, 7]),
        (mixed, Some(7), &[0, 1, 3], &[3, 7]),
        (mixed, Some(3), &[1, 2], &[3, 7]),
        (mixed, Some(4), &[1], &[3, 7]),
    ];
    for (integrals, marker, numbers, named) in cases {
        let integrands = numbered(alloc, integrals)?;
        let chosen = bodies(alloc, &integrands, marker)?;
        assert!(rt; chosen.len() == numbers.len());
        for (tree, n) in chosen.iter().zip(numbers) {
            assert!(rt; is_number(tree, *n));
        }
        let all = markers(alloc, &integrands)?;
        assert!(rt; all.as_slice() == named);
    }
    Ok(())
}
