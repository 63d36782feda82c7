//! Words of the language that this compiler refuses.

ghost use Rattle.std.specs.Prelude.{◌≡◌};
ghost use Rattle.ufl_values.specs.Unsupported.{is_root_or_choice, is_trigonometric, is_of_facets, is_of_meshes, is_of_matrices, is_of_forms, is_unsupported};

use crate::words::is_spelled;

/// Roots, exponentials, and functions that choose.
#[tactic(auto, unfolding(crate::specs::Unsupported::is_root_or_choice))]
fn is_root_or_choice(word: &[u8]) -> bool
    ensures { result ≡ is_root_or_choice word.now }
{
    if is_spelled(word, b"sqrt") {
        return true;
    }
    if is_spelled(word, b"exp") {
        return true;
    }
    if is_spelled(word, b"ln") {
        return true;
    }
    if is_spelled(word, b"abs") {
        return true;
    }
    if is_spelled(word, b"sign") {
        return true;
    }
    if is_spelled(word, b"conditional") {
        return true;
    }
    if is_spelled(word, b"max_value") {
        return true;
    }
    is_spelled(word, b"min_value")
}

/// Trigonometric and hyperbolic functions.
#[tactic(auto, unfolding(crate::specs::Unsupported::is_trigonometric))]
fn is_trigonometric(word: &[u8]) -> bool
    ensures { result ≡ is_trigonometric word.now }
{
    if is_spelled(word, b"sin") {
        return true;
    }
    if is_spelled(word, b"cos") {
        return true;
    }
    if is_spelled(word, b"tan") {
        return true;
    }
    if is_spelled(word, b"asin") {
        return true;
    }
    if is_spelled(word, b"acos") {
        return true;
    }
    if is_spelled(word, b"atan") {
        return true;
    }
    if is_spelled(word, b"sinh") {
        return true;
    }
    if is_spelled(word, b"cosh") {
        return true;
    }
    is_spelled(word, b"tanh")
}

/// Facets, their measures and their sides.
#[tactic(auto, unfolding(crate::specs::Unsupported::is_of_facets))]
fn is_of_facets(word: &[u8]) -> bool
    ensures { result ≡ is_of_facets word.now }
{
    if is_spelled(word, b"ds") {
        return true;
    }
    if is_spelled(word, b"dS") {
        return true;
    }
    if is_spelled(word, b"dP") {
        return true;
    }
    if is_spelled(word, b"jump") {
        return true;
    }
    if is_spelled(word, b"avg") {
        return true;
    }
    is_spelled(word, b"FacetNormal")
}

/// Meshes, the geometry of their cells and spaces on them.
#[tactic(auto, unfolding(crate::specs::Unsupported::is_of_meshes))]
fn is_of_meshes(word: &[u8]) -> bool
    ensures { result ≡ is_of_meshes word.now }
{
    if is_spelled(word, b"CellVolume") {
        return true;
    }
    if is_spelled(word, b"Circumradius") {
        return true;
    }
    if is_spelled(word, b"Mesh") {
        return true;
    }
    if is_spelled(word, b"FunctionSpace") {
        return true;
    }
    if is_spelled(word, b"EnrichedElement") {
        return true;
    }
    is_spelled(word, b"TensorConstant")
}

/// Operators on matrices.
#[tactic(auto, unfolding(crate::specs::Unsupported::is_of_matrices))]
fn is_of_matrices(word: &[u8]) -> bool
    ensures { result ≡ is_of_matrices word.now }
{
    if is_spelled(word, b"det") {
        return true;
    }
    if is_spelled(word, b"inv") {
        return true;
    }
    if is_spelled(word, b"cofac") {
        return true;
    }
    if is_spelled(word, b"perp") {
        return true;
    }
    if is_spelled(word, b"diag") {
        return true;
    }
    if is_spelled(word, b"diag_vector") {
        return true;
    }
    is_spelled(word, b"elem_mult")
}

/// Operators on forms.
#[tactic(auto, unfolding(crate::specs::Unsupported::is_of_forms))]
fn is_of_forms(word: &[u8]) -> bool
    ensures { result ≡ is_of_forms word.now }
{
    if is_spelled(word, b"exterior_derivative") {
        return true;
    }
    if is_spelled(word, b"replace") {
        return true;
    }
    is_spelled(word, b"sensitivity_rhs")
}

/// The language has the word, and this compiler does not.
#[tactic(auto, unfolding(crate::specs::Unsupported::is_unsupported))]
pub fn is_unsupported(word: &[u8]) -> bool
    ensures { result ≡ is_unsupported word.now }
{
    if is_root_or_choice(word) {
        return true;
    }
    if is_trigonometric(word) {
        return true;
    }
    if is_of_facets(word) {
        return true;
    }
    if is_of_meshes(word) {
        return true;
    }
    if is_of_matrices(word) {
        return true;
    }
    is_of_forms(word)
}
