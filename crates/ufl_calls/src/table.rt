//! What the names of the language mean.

ghost use Rattle.std.specs.Prelude.{◌≡◌};
ghost use Rattle.ufl_calls.specs.Calls.{cell_named, inside, text_value, table_value};

use spaces::Cell;
use ufl_tree::On;
use ufl_values::{
    Reason, Value, family_named, function_named, index_number, is_spelled, is_unsupported,
};

/// The cell of this name.
#[tactic(auto, unfolding(crate::specs::Calls::cell_named))]
fn cell_named(name: &[u8]) -> Option<Cell>
    ensures { result ≡ cell_named name.now }
{
    if is_spelled(name, Cell::Interval.name().as_bytes()) {
        return Some(Cell::Interval);
    }
    if is_spelled(name, Cell::Triangle.name().as_bytes()) {
        return Some(Cell::Triangle);
    }
    if is_spelled(name, Cell::Tetrahedron.name().as_bytes()) {
        return Some(Cell::Tetrahedron);
    }
    None
}

/// What stands between the quotes of a string.
#[tactic(auto, unfolding(crate::specs::Calls::inside))]
fn inside(text: &[u8]) -> &[u8]
    ensures { result.now ≡ inside text.now }
{
    if text.len() < 2 {
        return text;
    }
    &text[1..text.len() - 1]
}

/// The value of a string with its quotes.
pub fn text_value(quoted: &[u8]) -> Value
    ensures { result ≡ text_value quoted.now }
{
    let name = inside(quoted);
    Value::Text(family_named(name), cell_named(name))
}

/// What the name means that is not assigned. `Unsupported` exactly where the language has it and this compiler does not,
/// and `UnknownName` exactly where the language does not have it.
#[tactic(auto, unfolding(crate::specs::Calls::table_value))]
pub fn table_value(name: &[u8]) -> Result<Value, Reason>
    ensures { result ≡ table_value name.now }
{
    if is_unsupported(name) {
        return Err(Reason::Unsupported);
    }
    if let Some(cell) = cell_named(name) {
        return Ok(Value::Cell(cell));
    }
    if let Some(number) = index_number(name) {
        return Ok(Value::Index(number));
    }
    if is_spelled(name, b"dx") {
        return Ok(Value::Measure(On::All));
    }
    match function_named(name) {
        Some(function) => Ok(Value::Function(function)),
        None => Err(Reason::UnknownName),
    }
}
