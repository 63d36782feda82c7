// The kernel of the mass form on intervals.

ghost use Rattle.std.specs.Prelude.{◌≡◌, ℕ, ◌*◌, ◌<◌, ◌≤◌, ◌^◌, ◌++◌, ◌∷◌, [], IfOk, OnOk, IsTrue, ◌↔◌, pos};
ghost use Rattle.algebra.specs.Fraction.{Fraction, mul, inverse, of_integer};
ghost use Rattle.ratio.specs.Value.{fraction_of};
ghost use Rattle.c_unit.specs.Meaning.{counted_list, ran};
ghost use Rattle.c_unit.specs.Rules.{KeepsSizes};
ghost use Rattle.kernel.specs.MassShare.{IsSmallFactor, mass_outcome, outcome};
ghost use Rattle.c_unit.specs.declared.unit.Array.TheVariants.{A, T};
ghost use Rattle.c_unit.specs.declared.unit.CStmt.{Mul, Set};
ghost use Rattle.kernel.specs.Statements.{mass_statements, plain};

use crate::emit::{emit, plain};
use c_unit::{Array, CFun, CStmt};
use ratio::Ratio;
use sqlite_items::Items;
use std::alloc::{AllocError, Global};

// 384 times a whole number is below 2^100 exactly up to here.
const LARGEST_PART: u128 = (1 << 100) / 384;

/// Whether a number may be the factor of a mass form: 384 times its numerator and 384 times its denominator, in lowest
/// terms, are below 2^100.
pub fn is_small_factor(c: Ratio) -> bool
    ensures { IsTrue result ↔ IsSmallFactor (fraction_of c) }
{
    c.num().unsigned_abs() <= LARGEST_PART && c.den().unsigned_abs() <= LARGEST_PART
}

// c over a small whole number.
fn over(c: Ratio, n: i128) -> Ratio
    requires small { IsSmallFactor (fraction_of c) }
    requires positive { (k : ℕ) × ((n ≡ pos k) × ((0 < k) × (k ≤ 384))) }
    ensures { fraction_of result ≡ mul (fraction_of c) (inverse (of_integer n)) }
{
    match Ratio::new(c.num(), n * c.den()) {
        Some(part) => part,
        None => unreachable!(),
    }
}

// An item of the reference tensor.
fn emit_item(body: &mut Items<CStmt>, slot: u32, item: Ratio) -> Result<(), AllocError>
    ensures { OnOk result (body.new ≡ body.old ++ Set (plain T slot) item ∷ []) }
{
    emit(
        body,
        CStmt::Set {
            to: plain(Array::T, slot),
            value: item,
        },
    )
}

// An entry of the local tensor: the size of the volume factor times the item in slot `item`.
fn emit_entry(body: &mut Items<CStmt>, entry: u32, item: u32) -> Result<(), AllocError>
    ensures { OnOk result (body.new ≡ body.old ++ Mul (plain A entry) (plain T 2) (plain T item) ∷ []) }
{
    emit(
        body,
        CStmt::Mul {
            to: plain(Array::A, entry),
            left: plain(Array::T, 2),
            right: plain(Array::T, item),
        },
    )
}

// The statements, with c/3 and c/6 as the items of the reference tensor.
fn mass_body(alloc: Global, same: Ratio, other: Ratio) -> Result<Items<CStmt>, AllocError>
    ensures { IfOk result (λ body. body ≡ mass_statements same other) }
{
    let volume = plain(Array::T, 0);
    let size = plain(Array::T, 2);
    let mut body = Items::new(alloc);
    emit(
        &mut body,
        CStmt::Sub {
            to: volume,
            left: plain(Array::X, 1),
            right: plain(Array::X, 0),
        },
    )?;
    emit(
        &mut body,
        CStmt::Inv {
            to: plain(Array::T, 1),
            arg: volume,
        },
    )?;
    emit(
        &mut body,
        CStmt::Abs {
            to: size,
            arg: volume,
        },
    )?;
    emit_item(&mut body, 3, same)?;
    emit_item(&mut body, 4, other)?;
    emit_entry(&mut body, 0, 3)?;
    emit_entry(&mut body, 1, 4)?;
    emit_entry(&mut body, 2, 4)?;
    emit_entry(&mut body, 3, 3)?;
    Ok(body)
}

/// The function of the form `c*u*v*dx` with linear functions on intervals, under the name `name`: sizes 2, 0, 5 and 4.
///
/// Its run on an interval returns 0 with the share of the form in A, row by row; 2 where the volume factor, the difference
/// of the coordinates, is 0; and 1 where that difference or one of `c*h/3` and `c*h/6` needs more than 127 bits, with h the
/// size of the volume factor. Where there is no memory for the function, it gives an `AllocError`.
pub fn plan_mass(alloc: Global, name: &[u8], c: Ratio) -> Result<CFun, AllocError>
    requires { IsSmallFactor (fraction_of c) }
    ensures name { IfOk result (λ f. f.name ≡ name.now) }
    ensures x { IfOk result (λ f. f.x ≡ 2) }
    ensures w { IfOk result (λ f. f.w ≡ 0) }
    ensures a { IfOk result (λ f. f.a ≡ 4) }
    ensures lawful { IfOk result KeepsSizes }
    ensures share { IfOk result (λ f. (x₀ x₁ : Fraction) → outcome (ran f (x₀ ∷ x₁ ∷ []) []) ≡ mass_outcome (fraction_of c) x₀ x₁) }
    ensures bound { IfOk result (λ f. counted_list f.body ≤ 224) }
{
    let body = mass_body(alloc, over(c, 3), over(c, 6))?;
    Ok(CFun {
        name: Items::from_slice(alloc, name)?,
        x: 2,
        w: 0,
        t: 5,
        a: 4,
        tables: Items::new(alloc),
        body,
    })
}

#[cfg(test)]
mod tests {
    use super::*;
    use std::test::Fail;

    #[test]
    fn the_mass_form_has_nine_statements(rt: HostRuntime) -> Result<(), Fail> {
        let c = Ratio::one();
        assert!(rt; is_small_factor(c));
        let fun = plan_mass(rt.alloc(), b"ffc_a", c)?;
        assert_eq!(rt; fun.name.as_slice(), b"ffc_a".as_slice());
        assert_eq!(rt; fun.body.len(), 9);
        Ok(())
    }
}
