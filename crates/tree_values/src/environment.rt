//! Functions and what is changed of them: the environments of values.

ghost use Rattle.std.specs.Prelude.{◌≡◌, ◌≤◌, IfOk, List, [], ◌∷◌, ◌++◌, ◌==◌, ◌&&◌, if◌then◌else◌, length};
ghost use Rattle.calculus.specs.Polynomial.{plus, times};
ghost use Rattle.ufl_meaning.specs.Environment.{same_role, same_list, parameter, other_argument as other_of};
ghost use Rattle.tree_values.specs.PolyValue.{value_of};
ghost use Rattle.tree_values.specs.Scene.{environment_of, component_of, parameters_of};

use crate::poly::Poly;
use reference::Fault;
use sqlite_items::Items;
use std::alloc::Global;
use ufl_tree::Role;

/// The function of a role, by its components.
#[derive(Drop)]
pub struct Given {
    pub role: Role,
    pub components: Items<Poly>,
}

/// A change of the functions or the variables. Those with a parameter take the next one.
#[derive(Drop)]
pub enum Change {
    /// A parameter is added to this component of the variable of a label.
    Raised { label: u32, at: Items<u8> },
    /// A parameter times the function of `dir` is added to that of `coef`.
    Turned { coef: Role, dir: Role },
    /// The function is multiplied by a parameter.
    Scaled(Role),
    /// The function of `by` stands in place of that of `last`.
    Replaced { last: Role, by: Role },
    /// Test and trial function are exchanged.
    Exchanged,
}

fn is_same(a: Role, b: Role) -> bool
    ensures { result ≡ same_role a b }
{
    match (a, b) {
        (Role::Test, Role::Test) => true,
        (Role::Trial, Role::Trial) => true,
        (Role::Position, Role::Position) => true,
        (Role::Coefficient(m), Role::Coefficient(n)) => m == n,
        _ => false,
    }
}

fn other_argument(role: Role) -> Role
    ensures { result ≡ other_of role }
{
    match role {
        Role::Test => Role::Trial,
        Role::Trial => Role::Test,
        Role::Position => Role::Position,
        Role::Coefficient(n) => Role::Coefficient(n),
    }
}

fn chosen(is: bool, this: Role, other: Role) -> Role
    ensures { result ≡ (if is then this else other) }
{
    if is { this } else { other }
}

/// How many parameters a change takes.
fn parameters(change: &Change) -> usize
    ensures is { result ≡ parameters_of change.now }
    ensures few { result ≤ 1 }
{
    match change {
        Change::Raised { .. } => 1,
        Change::Turned { .. } => 1,
        Change::Scaled(_) => 1,
        Change::Replaced { .. } => 0,
        Change::Exchanged => 0,
    }
}

/// How many parameters are in use.
pub fn used(changes: &[Change]) -> usize
    ensures is { (gs : List Given) → result ≡ (environment_of gs changes.now).used }
    ensures few { result ≤ length changes.now }
{
    match changes.split_last() {
        Some((last, before)) => used(before) + parameters(last),
        None => 0,
    }
}

/// A component of a function that was given; one that isn't there is 0.
fn at_rest(alloc: Global, functions: &[Given], role: Role, at: usize) -> Result<Poly, Fault>
    ensures { IfOk result (λ p. value_of p ≡ component_of functions.now role at) }
{
    let Some((first, rest)) = functions.split_first() else {
        return Ok(Poly::zero(alloc));
    };
    if !is_same(role, first.role) {
        return at_rest(alloc, rest, role, at);
    }
    match first.components.get(at) {
        Some(p) => p.copy(alloc),
        None => Ok(Poly::zero(alloc)),
    }
}

fn turned(alloc: Global, own: Poly, is: bool, k: usize, slope: &Poly) -> Result<Poly, Fault>
    ensures { IfOk result (λ p. value_of p ≡ (if is then plus (value_of own) (times (parameter k) (value_of slope.now)) else value_of own)) }
{
    if !is {
        return Ok(own);
    }
    own.sum(alloc, &Poly::parameter(alloc, k)?.product(alloc, slope)?)
}

fn scaled(alloc: Global, own: Poly, is: bool, k: usize) -> Result<Poly, Fault>
    ensures { IfOk result (λ p. value_of p ≡ (if is then times (parameter k) (value_of own) else value_of own)) }
{
    if !is {
        return Ok(own);
    }
    Poly::parameter(alloc, k)?.product(alloc, &own)
}

/// A component of the function of a role; one that isn't there is 0.
pub fn component(
    alloc: Global,
    functions: &[Given],
    changes: &[Change],
    role: Role,
    at: usize,
) -> Result<Poly, Fault>
    ensures { IfOk result (λ p. value_of p ≡ (environment_of functions.now changes.now).value role at) }
{
    let Some((last, before)) = changes.split_last() else {
        return at_rest(alloc, functions, role, at);
    };
    match last {
        Change::Raised { .. } => component(alloc, functions, before, role, at),
        Change::Turned { coef, dir } => {
            let own = component(alloc, functions, before, role, at)?;
            let slope = component(alloc, functions, before, *dir, at)?;
            turned(alloc, own, is_same(role, *coef), used(before), &slope)
        }
        Change::Scaled(w) => {
            let own = component(alloc, functions, before, role, at)?;
            scaled(alloc, own, is_same(role, *w), used(before))
        }
        Change::Replaced { last, by } => {
            let role = chosen(is_same(role, *last), *by, role);
            component(alloc, functions, before, role, at)
        }
        Change::Exchanged => component(alloc, functions, before, other_argument(role), at),
    }
}

fn moved(alloc: Global, own: Poly, is: bool, k: usize) -> Result<Poly, Fault>
    ensures { IfOk result (λ p. value_of p ≡ (if is then plus (value_of own) (parameter k) else value_of own)) }
{
    if !is {
        return Ok(own);
    }
    own.sum(alloc, &Poly::parameter(alloc, k)?)
}

fn is_component(label: u32, at: &[u8], of: u32, component: &[u8]) -> bool
    ensures { result ≡ ((label == of) && same_list at.now component.now) }
{
    label == of && at == component
}

/// What was added to a component of a variable.
pub fn offset(alloc: Global, changes: &[Change], label: u32, at: &[u8]) -> Result<Poly, Fault>
    ensures { (gs : List Given) → IfOk result (λ p. value_of p ≡ (environment_of gs changes.now).offset label at.now) }
{
    let Some((last, before)) = changes.split_last() else {
        return Ok(Poly::zero(alloc));
    };
    let own = offset(alloc, before, label, at)?;
    match last {
        Change::Raised {
            label: of,
            at: component,
        } => {
            let is = is_component(label, at, *of, component.as_slice());
            moved(alloc, own, is, used(before))
        }
        Change::Turned { .. } => Ok(own),
        Change::Scaled(_) => Ok(own),
        Change::Replaced { .. } => Ok(own),
        Change::Exchanged => Ok(own),
    }
}

fn copied(alloc: Global, change: &Change) -> Result<Change, Fault>
    ensures { IfOk result (λ c. c ≡ change.now) }
{
    match change {
        Change::Raised { label, at } => Ok(Change::Raised {
            label: *label,
            at: Items::from_slice(alloc, at.as_slice())?,
        }),
        Change::Turned { coef, dir } => Ok(Change::Turned {
            coef: *coef,
            dir: *dir,
        }),
        Change::Scaled(w) => Ok(Change::Scaled(*w)),
        Change::Replaced { last, by } => Ok(Change::Replaced {
            last: *last,
            by: *by,
        }),
        Change::Exchanged => Ok(Change::Exchanged),
    }
}

fn all_copied(alloc: Global, changes: &[Change]) -> Result<Items<Change>, Fault>
    ensures { IfOk result (λ r. r ≡ changes.now) }
{
    let mut all = Items::new(alloc);
    for one in changes {
        all.push(copied(alloc, one)?)?;
    }
    Ok(all)
}

/// The changes with one more.
pub fn with_change(alloc: Global, changes: &[Change], last: Change) -> Result<Items<Change>, Fault>
    ensures { IfOk result (λ r. r ≡ changes.now ++ last ∷ []) }
{
    let mut all = all_copied(alloc, changes)?;
    all.push(last)?;
    Ok(all)
}
