//! Forms and their builders.

ghost use Rattle.std.specs.Prelude.{◌≡◌, ◌≤◌, IfOk, IsOk};
ghost use Rattle.ufl_expr.specs.Answer.{Gives};
ghost use Rattle.ufl_tree.specs.Places.{table_of};
ghost use Rattle.ufl_form.specs.Reading.{form_of};
ghost use Rattle.ufl_form.specs.Sizes.{form_nodes, form_height};
ghost use Rattle.ufl_form.specs.Table.{AreTyped, form_kind, form_patterns, last_of, element_of};
ghost use Rattle.ufl_form.specs.Building.{IsDescribed, formed, acted, derived};

use crate::form_tree::{FormTree, copy_form};
use crate::pattern_set::PatternSet;
use crate::table::{
    FormKind, action_kind, adjoint_kind, element_of, integral_kind, last_of, right_kind, sum_kind,
    turned_kind,
};
use crate::tree_patterns::tree_patterns;
use ratio::Ratio;
use spaces::Cell;
use sqlite_items::Boxed;
use std::alloc::{AllocError, Global};
use std::marker::Model;
use ufl_expr::{Elements, Expr, MOST_HEIGHT, MOST_NODES, TypeRefusal};
use ufl_tree::{Function, On, Role};

/// A form whose tree obeys the typing table, with at most 10,000 nodes and a height of at most 128.
#[derive(Drop)]
pub struct Form {
    tree: FormTree,
    kind: FormKind,
    patterns: PatternSet,
    nodes: u32,
    height: u32,
}

impl Model for Form {
    ghost use Rattle.ufl_form.specs.declared.form_tree.FormTree.{FormTree};

    ghost Value = { FormTree };

    ghost use Rattle.ufl_form.specs.contracts.form_tree.FormTree as t;
    ghost use Rattle.std.specs.Coded.{codes};

    ghost coded = { Prim.hlevel (codes, t.the_row.coded) };

    ghost use Rattle.ufl_form.specs.Invariant.{IsSound};

    ghost view = { λ e. e.tree };

    ghost invariant = { IsSound };
}

/// The form of a tree and what is known of it, unless it is too large.
#[tactic(auto, unfolding(crate::specs::Building::formed, crate::specs::Building::checked, crate::specs::Building::fits))]
fn finish(
    tree: FormTree,
    kind: FormKind,
    patterns: PatternSet,
    nodes: u32,
    height: u32,
) -> Result<Form, TypeRefusal>
    requires { IsDescribed (form_of tree) kind patterns nodes height }
    ensures { result ≡ formed tree }
{
    if nodes > MOST_NODES || height > MOST_HEIGHT {
        return Err(TypeRefusal::Nodes);
    }
    Ok(Form {
        tree,
        kind,
        patterns,
        nodes,
        height,
    })
}

impl Form {
    /// The tree.
    pub fn tree(&self) -> &FormTree
        ensures same { result.now ≡ self.now }
        ensures typed { AreTyped (form_of self.now) }
        ensures lawful { IsOk (form_kind (form_of self.now)) }
        ensures few { form_nodes (form_of self.now) ≤ 10000 }
        ensures flat { form_height (form_of self.now) ≤ 128 }
    {
        &self.tree
    }

    /// How many nodes the tree has, those of the integrands counted, from 2 to 10,000.
    pub fn nodes(&self) -> u32
        ensures count { result ≡ form_nodes (form_of self.now) }
        ensures few { result ≤ 10000 }
    {
        self.nodes
    }

    /// The height of the tree, that of the integrands counted, from 2 to 128.
    pub fn height(&self) -> u32
        ensures depth { result ≡ form_height (form_of self.now) }
        ensures flat { result ≤ 128 }
    {
        self.height
    }

    /// The cell of the functions.
    pub fn cell(&self) -> Cell
        ensures { IfOk (form_kind (form_of self.now)) (λ kind. kind.cell ≡ result) }
    {
        self.kind.cell
    }

    /// The number of the element of an argument, where it occurs.
    pub fn element(&self, argument: Role) -> Option<u16>
        ensures { IfOk (form_kind (form_of self.now)) (λ kind. element_of argument kind.arguments ≡ result) }
    {
        element_of(argument, self.kind.arguments)
    }

    /// An equal form.
    pub fn copy(&self, alloc: Global) -> Result<Form, AllocError>
        ensures { IfOk result (λ f. f ≡ self.now) }
    {
        Ok(Form {
            tree: copy_form(alloc, &self.tree)?,
            kind: self.kind,
            patterns: self.patterns,
            nodes: self.nodes,
            height: self.height,
        })
    }

    /// The integral over these cells. `Kind` exactly where no function occurs or an argument has two elements, then `Shape`
    /// exactly where the integrand is no scalar, then `FreeIndex` exactly where it has a free index.
    pub fn integral(on: On, body: Expr) -> Result<Form, TypeRefusal>
        ensures { result ≡ formed (FormTree.Integral on body) }
    {
        let kind = integral_kind(&body)?;
        let patterns = tree_patterns(body.tree());
        let nodes = body.nodes() + 1;
        let height = body.height() + 1;
        finish(
            FormTree::Integral { on, body },
            kind,
            patterns,
            nodes,
            height,
        )
    }

    /// The sum. `Kind` exactly where the forms are on different cells, or an argument has different elements in them.
    pub fn add_forms(alloc: Global, a: Form, b: Form) -> Result<Form, TypeRefusal>
        ensures { Gives result (formed (FormTree.Sum a b)) }
    {
        let Form {
            tree: left,
            kind,
            patterns: p,
            nodes: m,
            height: h,
        } = a;
        let Form {
            tree: right,
            kind: other,
            patterns: q,
            nodes: n,
            height: k,
        } = b;
        let kind = sum_kind(kind, other)?;
        let tree = FormTree::Sum(Boxed::new(alloc, left)?, Boxed::new(alloc, right)?);
        finish(tree, kind, p.united(q), m + n + 1, h.max(k) + 1)
    }

    /// The form times a number.
    pub fn scale_form(alloc: Global, c: Ratio, a: Form) -> Result<Form, TypeRefusal>
        ensures { Gives result (formed (FormTree.Scale c a)) }
    {
        let Form {
            tree,
            kind,
            patterns,
            nodes,
            height,
        } = a;
        let tree = FormTree::Scale(c, Boxed::new(alloc, tree)?);
        finish(tree, kind, patterns, nodes + 1, height + 1)
    }

    /// The part that is linear in the trial function.
    pub fn left(alloc: Global, a: Form) -> Result<Form, TypeRefusal>
        ensures { Gives result (formed (FormTree.Left a)) }
    {
        let tree = FormTree::Left(Boxed::new(alloc, a.tree)?);
        let patterns = a.patterns.linear_pairs();
        finish(tree, a.kind, patterns, a.nodes + 1, a.height + 1)
    }

    /// The negative of the part without the trial function.
    pub fn right(alloc: Global, a: Form) -> Result<Form, TypeRefusal>
        ensures { Gives result (formed (FormTree.Right a)) }
    {
        let tree = FormTree::Right(Boxed::new(alloc, a.tree)?);
        let patterns = a.patterns.constant_pairs();
        finish(
            tree,
            right_kind(a.kind),
            patterns,
            a.nodes + 1,
            a.height + 1,
        )
    }

    /// The test and the trial function exchanged.
    pub fn adjoint(alloc: Global, a: Form) -> Result<Form, TypeRefusal>
        ensures { Gives result (formed (FormTree.Adjoint a)) }
    {
        let tree = FormTree::Adjoint(Boxed::new(alloc, a.tree)?);
        let patterns = a.patterns.turned();
        finish(
            tree,
            adjoint_kind(a.kind),
            patterns,
            a.nodes + 1,
            a.height + 1,
        )
    }

    /// The coefficient f in place of the last argument, which is the trial function where some pair of the pattern set has one, else the
    /// test function. `Kind` exactly where there is no argument, or f is no coefficient of the argument's element.
    pub fn action(alloc: Global, a: Form, f: Function) -> Result<Form, TypeRefusal>
        ensures { Gives result (acted (last_of (form_patterns (form_of a))) a f) }
    {
        let Form {
            tree,
            kind,
            patterns,
            nodes,
            height,
        } = a;
        let last = last_of(patterns)?;
        let kind = action_kind(kind, last, f)?;
        let body = Boxed::new(alloc, tree)?;
        finish(
            FormTree::Action { body, last, f },
            kind,
            patterns.without(last),
            nodes + 1,
            height + 1,
        )
    }

    /// The derivative by the coefficient w along du, which may be an argument or a coefficient. `Kind` exactly where w is no coefficient, a
    /// constant, or not in the table, the elements of both are different or on another cell than the form, or the argument du has another
    /// element in the form.
    pub fn derivative(
        alloc: Global,
        a: Form,
        w: Function,
        du: Function,
        elements: &Elements,
    ) -> Result<Form, TypeRefusal>
        ensures { Gives result (derived (table_of elements.now) a w du) }
    {
        let Form {
            tree,
            kind,
            patterns,
            nodes,
            height,
        } = a;
        let kind = turned_kind(elements, kind, w, du)?;
        let body = Boxed::new(alloc, tree)?;
        finish(
            FormTree::Derivative { body, w, du },
            kind,
            patterns.product(PatternSet::of_role(du.role)),
            nodes + 1,
            height + 1,
        )
    }
}

/// How many test and trial functions the terms of a form have as factors. Takes no memory.
pub fn patterns(f: &Form) -> PatternSet
    ensures { result ≡ form_patterns (form_of f.now) }
{
    f.patterns
}
