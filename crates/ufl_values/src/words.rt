//! The table of names: the functions of the language, its indices, the families of elements and the signs of operators.

ghost use Rattle.std.specs.Prelude.{◌≡◌};
ghost use Rattle.std.specs.Str.{bytes_eq};
ghost use Rattle.ufl_values.specs.Words.{element_function, argument_function, coefficient_function, derivative_function, matrix_function, product_function, tensor_function, form_function, operator_function, function_named, family_named, index_number, keyword_named, sign_of};

use spaces::Family;
use ufl_tree::{Op1, Op2};

/// A function of the table.
#[derive(Clone, Copy, Debug, PartialEq, Eq)]
pub enum Word {
    FiniteElement,
    VectorElement,
    TensorElement,
    MixedElement,
    TestFunction,
    TrialFunction,
    TestFunctions,
    TrialFunctions,
    Split,
    Coefficient,
    Constant,
    VectorConstant,
    SpatialCoordinate,
    /// An operator of one expression.
    One(Op1),
    /// An operator of two expressions.
    Two(Op2),
    Dx,
    Identity,
    AsVector,
    AsMatrix,
    AsTensor,
    Variable,
    Diff,
    Lhs,
    Rhs,
    System,
    Action,
    Adjoint,
    Derivative,
}

/// An operator between two values.
#[derive(Clone, Copy, Debug, PartialEq, Eq)]
pub enum Sign {
    Plus,
    Minus,
    Times,
    Over,
    Power,
}

/// A keyword of an argument.
#[derive(Clone, Copy, Debug, PartialEq, Eq)]
pub enum Keyword {
    Dim,
    Shape,
}

/// The word has these letters.
pub fn is_spelled(word: &[u8], letters: &[u8]) -> bool
    ensures { result ≡ bytes_eq word.now letters.now }
{
    word == letters
}

/// Functions that make elements.
#[tactic(auto, unfolding(crate::specs::Words::element_function))]
fn element_function(word: &[u8]) -> Option<Word>
    ensures { result ≡ element_function word.now }
{
    if is_spelled(word, b"FiniteElement") {
        return Some(Word::FiniteElement);
    }
    if is_spelled(word, b"VectorElement") {
        return Some(Word::VectorElement);
    }
    if is_spelled(word, b"TensorElement") {
        return Some(Word::TensorElement);
    }
    if is_spelled(word, b"MixedElement") {
        return Some(Word::MixedElement);
    }
    None
}

/// Functions that make arguments and parts of functions.
#[tactic(auto, unfolding(crate::specs::Words::argument_function))]
fn argument_function(word: &[u8]) -> Option<Word>
    ensures { result ≡ argument_function word.now }
{
    if is_spelled(word, b"TestFunction") {
        return Some(Word::TestFunction);
    }
    if is_spelled(word, b"TrialFunction") {
        return Some(Word::TrialFunction);
    }
    if is_spelled(word, b"TestFunctions") {
        return Some(Word::TestFunctions);
    }
    if is_spelled(word, b"TrialFunctions") {
        return Some(Word::TrialFunctions);
    }
    if is_spelled(word, b"split") {
        return Some(Word::Split);
    }
    None
}

/// Functions that make coefficients and positions.
#[tactic(auto, unfolding(crate::specs::Words::coefficient_function))]
fn coefficient_function(word: &[u8]) -> Option<Word>
    ensures { result ≡ coefficient_function word.now }
{
    if is_spelled(word, b"Coefficient") {
        return Some(Word::Coefficient);
    }
    if is_spelled(word, b"Constant") {
        return Some(Word::Constant);
    }
    if is_spelled(word, b"VectorConstant") {
        return Some(Word::VectorConstant);
    }
    if is_spelled(word, b"SpatialCoordinate") {
        return Some(Word::SpatialCoordinate);
    }
    None
}

/// Derivatives in space.
#[tactic(auto, unfolding(crate::specs::Words::derivative_function))]
fn derivative_function(word: &[u8]) -> Option<Word>
    ensures { result ≡ derivative_function word.now }
{
    if is_spelled(word, b"grad") {
        return Some(Word::One(Op1::Grad));
    }
    if is_spelled(word, b"nabla_grad") {
        return Some(Word::One(Op1::NablaGrad));
    }
    if is_spelled(word, b"div") {
        return Some(Word::One(Op1::Div));
    }
    if is_spelled(word, b"nabla_div") {
        return Some(Word::One(Op1::NablaDiv));
    }
    if is_spelled(word, b"curl") {
        return Some(Word::One(Op1::Curl));
    }
    if is_spelled(word, b"Dx") {
        return Some(Word::Dx);
    }
    None
}

/// Operators on a matrix.
#[tactic(auto, unfolding(crate::specs::Words::matrix_function))]
fn matrix_function(word: &[u8]) -> Option<Word>
    ensures { result ≡ matrix_function word.now }
{
    if is_spelled(word, b"transpose") {
        return Some(Word::One(Op1::Transpose));
    }
    if is_spelled(word, b"tr") {
        return Some(Word::One(Op1::Trace));
    }
    if is_spelled(word, b"sym") {
        return Some(Word::One(Op1::Sym));
    }
    if is_spelled(word, b"skew") {
        return Some(Word::One(Op1::Skew));
    }
    if is_spelled(word, b"dev") {
        return Some(Word::One(Op1::Dev));
    }
    None
}

/// Products of tensors.
#[tactic(auto, unfolding(crate::specs::Words::product_function))]
fn product_function(word: &[u8]) -> Option<Word>
    ensures { result ≡ product_function word.now }
{
    if is_spelled(word, b"inner") {
        return Some(Word::Two(Op2::Inner));
    }
    if is_spelled(word, b"dot") {
        return Some(Word::Two(Op2::Dot));
    }
    if is_spelled(word, b"outer") {
        return Some(Word::Two(Op2::Outer));
    }
    if is_spelled(word, b"cross") {
        return Some(Word::Two(Op2::Cross));
    }
    None
}

/// Tensors of components, and variables.
#[tactic(auto, unfolding(crate::specs::Words::tensor_function))]
fn tensor_function(word: &[u8]) -> Option<Word>
    ensures { result ≡ tensor_function word.now }
{
    if is_spelled(word, b"Identity") {
        return Some(Word::Identity);
    }
    if is_spelled(word, b"as_vector") {
        return Some(Word::AsVector);
    }
    if is_spelled(word, b"as_matrix") {
        return Some(Word::AsMatrix);
    }
    if is_spelled(word, b"as_tensor") {
        return Some(Word::AsTensor);
    }
    if is_spelled(word, b"variable") {
        return Some(Word::Variable);
    }
    if is_spelled(word, b"diff") {
        return Some(Word::Diff);
    }
    None
}

/// Operators on forms.
#[tactic(auto, unfolding(crate::specs::Words::form_function))]
fn form_function(word: &[u8]) -> Option<Word>
    ensures { result ≡ form_function word.now }
{
    if is_spelled(word, b"lhs") {
        return Some(Word::Lhs);
    }
    if is_spelled(word, b"rhs") {
        return Some(Word::Rhs);
    }
    if is_spelled(word, b"system") {
        return Some(Word::System);
    }
    if is_spelled(word, b"action") {
        return Some(Word::Action);
    }
    if is_spelled(word, b"adjoint") {
        return Some(Word::Adjoint);
    }
    if is_spelled(word, b"derivative") {
        return Some(Word::Derivative);
    }
    None
}

/// The function of this name that makes no element and no function.
#[tactic(auto, unfolding(crate::specs::Words::operator_function))]
fn operator_function(word: &[u8]) -> Option<Word>
    ensures { result ≡ operator_function word.now }
{
    if let Some(found) = derivative_function(word) {
        return Some(found);
    }
    if let Some(found) = matrix_function(word) {
        return Some(found);
    }
    if let Some(found) = product_function(word) {
        return Some(found);
    }
    if let Some(found) = tensor_function(word) {
        return Some(found);
    }
    form_function(word)
}

/// The function of this name.
#[tactic(auto, unfolding(crate::specs::Words::function_named))]
pub fn function_named(word: &[u8]) -> Option<Word>
    ensures { result ≡ function_named word.now }
{
    if let Some(found) = element_function(word) {
        return Some(found);
    }
    if let Some(found) = argument_function(word) {
        return Some(found);
    }
    if let Some(found) = coefficient_function(word) {
        return Some(found);
    }
    operator_function(word)
}

/// The number of the index of this name.
#[tactic(auto, unfolding(crate::specs::Words::index_number))]
pub fn index_number(word: &[u8]) -> Option<u16>
    ensures { result ≡ index_number word.now }
{
    if is_spelled(word, b"i") {
        return Some(0);
    }
    if is_spelled(word, b"j") {
        return Some(1);
    }
    if is_spelled(word, b"k") {
        return Some(2);
    }
    if is_spelled(word, b"l") {
        return Some(3);
    }
    if is_spelled(word, b"p") {
        return Some(4);
    }
    if is_spelled(word, b"q") {
        return Some(5);
    }
    if is_spelled(word, b"r") {
        return Some(6);
    }
    if is_spelled(word, b"s") {
        return Some(7);
    }
    None
}

/// The family of this name.
#[tactic(auto, unfolding(crate::specs::Words::family_named))]
pub fn family_named(name: &[u8]) -> Option<Family>
    ensures { result ≡ family_named name.now }
{
    if is_spelled(name, b"Lagrange") {
        return Some(Family::Lagrange);
    }
    if is_spelled(name, b"CG") {
        return Some(Family::Lagrange);
    }
    if is_spelled(name, b"P") {
        return Some(Family::Lagrange);
    }
    if is_spelled(name, b"Discontinuous Lagrange") {
        return Some(Family::Dg);
    }
    if is_spelled(name, b"DG") {
        return Some(Family::Dg);
    }
    None
}

/// The keyword that is written so.
#[tactic(auto, unfolding(crate::specs::Words::keyword_named))]
pub fn keyword_named(name: &[u8]) -> Option<Keyword>
    ensures { result ≡ keyword_named name.now }
{
    if is_spelled(name, b"dim") {
        return Some(Keyword::Dim);
    }
    if is_spelled(name, b"shape") {
        return Some(Keyword::Shape);
    }
    None
}

/// The operator that is written so; `**` stands for all that are not among the others.
#[tactic(auto, unfolding(crate::specs::Words::sign_of))]
pub fn sign_of(text: &[u8]) -> Sign
    ensures { result ≡ sign_of text.now }
{
    if is_spelled(text, b"+") {
        return Sign::Plus;
    }
    if is_spelled(text, b"-") {
        return Sign::Minus;
    }
    if is_spelled(text, b"*") {
        return Sign::Times;
    }
    if is_spelled(text, b"/") {
        return Sign::Over;
    }
    Sign::Power
}
