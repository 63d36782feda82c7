//! Numbers: steps that may pass, and whole numbers as indices, sizes and exponents.

ghost use Rattle.std.specs.Prelude.{◌≡◌};
ghost use Rattle.ratio.specs.Value.{valued};
ghost use Rattle.ufl_values.specs.Numbers.{stepped, numbered, whole_number, part_count, index_of, marker_of};

use crate::refusal::Reason;
use crate::value::Value;
use ratio::Ratio;
use ufl_tree::Ix;

/// What stands for each whole number outside 0 to 255: no place takes it.
const OUTSIDE: u8 = 255;

/// The number that a step came to; `NumberRange` exactly where the step passes.
#[tactic(auto, using(crate::proofs::ExactLaws::exact_at))]
pub fn number(step: Option<Ratio>) -> Result<Ratio, Reason>
    ensures { result ≡ stepped (valued step) }
{
    match step {
        Some(c) => Ok(c),
        None => Err(Reason::NumberRange),
    }
}

/// The value of the number that a step came to; `NumberRange` exactly where the step passes.
pub fn numbered(step: Option<Ratio>) -> Result<Value, Reason>
    ensures { result ≡ numbered (stepped (valued step)) }
{
    Ok(Value::Number(number(step)?))
}

/// The whole number, with 255 for those outside 0 to 255; `None` exactly where the number is not whole.
pub fn whole_number(c: Ratio) -> Option<u8>
    ensures { result ≡ whole_number c }
{
    if c.den() != 1 {
        return None;
    }
    let n = c.num();
    if n < 0 || n > 255 {
        Some(OUTSIDE)
    } else {
        Some(n as u8)
    }
}

/// A number of parts: a whole number that is not negative, else `Kind`.
pub fn part_count(value: &Value) -> Result<u8, Reason>
    ensures { result ≡ part_count value.now }
{
    let Value::Number(c) = value else {
        return Err(Reason::Kind);
    };
    if c.num() < 0 {
        return Err(Reason::Kind);
    }
    match whole_number(*c) {
        Some(n) => Ok(n),
        None => Err(Reason::Kind),
    }
}

/// An index of a component or a direction: an index or a whole number, else `Kind`.
pub fn index(value: &Value) -> Result<Ix, Reason>
    ensures { result ≡ index_of value.now }
{
    match value {
        Value::Index(name) => Ok(Ix::Named(*name)),
        Value::Number(c) => match whole_number(*c) {
            Some(n) => Ok(Ix::Fixed(n)),
            None => Err(Reason::Kind),
        },
        _ => Err(Reason::Kind),
    }
}

/// A marker of cells: a whole number from 0 to 4,294,967,295, else `Kind`.
pub fn marker(c: Ratio) -> Result<u32, Reason>
    ensures { result ≡ marker_of c }
{
    if c.den() != 1 {
        return Err(Reason::Kind);
    }
    let n = c.num();
    if n < 0 || n > 4_294_967_295 {
        Err(Reason::Kind)
    } else {
        Ok(n as u32)
    }
}
