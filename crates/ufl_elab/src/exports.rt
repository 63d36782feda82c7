//! The forms that a file exports.

ghost use Rattle.std.specs.Prelude.{◌≡◌, ◌++◌, ℕ, List, [], if◌then◌else◌, IfOk, OnOk};
ghost use Rattle.std.specs.Option.{option_map, option_copied};
ghost use Rattle.std.specs.Str.{bytes_eq};
ghost use Rattle.ufl_elab.specs.Names.{get};
ghost use Rattle.ufl_elab.specs.Entries.{names_of};
ghost use Rattle.ufl_elab.specs.Exports.{exports_of, last_exports, form_bound, form_named, name_in, chosen, usual, optional, exported};
ghost use Rattle.ufl_elab.specs.Programs.{Gives};
ghost use Rattle.ufl_elab.specs.Answers.{file_in, names_in, exports_seen};

use crate::bound::Bound;
use crate::names::Names;
use crate::program::Named;
use indexmap::IndexMap;
use sqlite_items::Items;
use std::alloc::{AllocError, Global};
use ufl_read::FormRefusal;
use ufl_syntax::{AssignOp, Span, Stmt, Syn};
use ufl_values::{Reason, Value, is_spelled, refused};

/// A statement that names the forms.
#[derive(Clone, Copy)]
struct Exports<'s> {
    line: u32,
    target: Span,
    items: &'s [Syn],
}

/// The list of a statement whose only target is `forms`, no comma stands among its targets, its sign is `=` and its
/// value is a list.
#[tactic(auto, using(crate::proofs::Readings::list_readings), unfolding(crate::specs::Exports::exports_of))]
fn exports_of<'s>(file: &[u8], st: &'s Stmt) -> Option<Exports<'s>>
    ensures { option_map exports_seen result ≡ exports_of file.now st.now }
{
    let Some(Syn::List(_, items)) = &st.value else {
        return None;
    };
    match (st.op, st.targets.as_slice()) {
        (AssignOp::Set, [target]) => if is_spelled(target.text(file), b"forms") && !st.unpack {
            Some(Exports {
                line: st.line,
                target: *target,
                items: items.as_slice(),
            })
        } else {
            None
        },
        _ => None,
    }
}

/// The last statement that names the forms.
fn last_exports<'s>(file: &[u8], sts: &'s [Stmt]) -> Option<Exports<'s>>
    ensures { option_map exports_seen result ≡ last_exports file.now None sts.now }
{
    let mut last = None;
    for st in sts {
        if let Some(found) = exports_of(file, st) {
            last = Some(found);
        }
    }
    last
}

/// The form that this is, if it is one, with its target.
fn form_bound(alloc: Global, bound: Bound) -> Result<Option<Named>, AllocError>
    ensures { IfOk result (λ r. r ≡ form_bound bound bound.value) }
{
    let Bound {
        value,
        line,
        from,
        len,
    } = bound;
    match value.into_value(alloc)? {
        Value::Form(form) => Ok(Some(Named {
            line,
            from,
            len,
            form,
        })),
        _ => Ok(None),
    }
}

/// Takes what the name is bound to, and gives the form that this is, if it is one.
fn take_form(
    alloc: Global,
    names: &mut IndexMap<&[u8], Bound>,
    name: &[u8],
) -> Result<Option<Named>, AllocError>
    ensures form { IfOk result (λ r. r ≡ form_named (names_of names.old.entries) name.now) }
    ensures rest { (other : List ℕ) → get (names_of names.new.entries) other
        ≡ (if bytes_eq name.now other then None else get (names_of names.old.entries) other) }
{
    match names.swap_remove(name) {
        Some(bound) => form_bound(alloc, bound),
        None => Ok(None),
    }
}

/// A bare name.
#[tactic(auto, using(crate::proofs::Readings::name_readings))]
fn name_in<'f>(file: &'f [u8], item: &Syn) -> Option<&'f [u8]>
    ensures { option_copied result ≡ name_in file.now item.now }
{
    match item {
        Syn::Name(span) => Some(span.text(file)),
        Syn::Number(_) => None,
        Syn::Text(_) => None,
        Syn::Tuple(_, _) => None,
        Syn::List(_, _) => None,
        Syn::Sign(_, _) => None,
        Syn::Binary(_, _) => None,
        Syn::Postfix(_, _) => None,
    }
}

/// The forms of the names in the list, each a bare name that is bound to a form and stands there once.
fn chosen(
    alloc: Global,
    file: &[u8],
    names: &mut IndexMap<&[u8], Bound>,
    exports: Exports<'_>,
) -> Result<Items<Named>, FormRefusal>
    ensures { Gives result (chosen file.now (names_of names.old.entries) (exports_seen exports.entry) [] []
        exports.entry.items.now) }
{
    let mut all = Items::new(alloc);
    for item in exports.items {
        let Some(name) = name_in(file, item) else {
            return Err(refused(Reason::Kind, exports.line, exports.target));
        };
        match take_form(alloc, names, name)? {
            Some(form) => all.push(form)?,
            None => return Err(refused(Reason::Kind, exports.line, exports.target)),
        }
    }
    Ok(all)
}

/// The forms of `a`, `L` and `M`, as far as these are bound to forms.
fn usual(alloc: Global, names: &mut IndexMap<&[u8], Bound>) -> Result<Items<Named>, AllocError>
    ensures { IfOk result (λ r. r ≡ usual (names_of names.old.entries)) }
{
    let mut all = Items::new(alloc);
    push_form(&mut all, take_form(alloc, names, b"a")?)?;
    push_form(&mut all, take_form(alloc, names, b"L")?)?;
    push_form(&mut all, take_form(alloc, names, b"M")?)?;
    Ok(all)
}

/// The form, behind the others.
fn push_form(all: &mut Items<Named>, form: Option<Named>) -> Result<(), AllocError>
    ensures { OnOk result (all.new ≡ all.old ++ optional form) }
{
    match form {
        Some(form) => all.push(form),
        None => Ok(()),
    }
}

/// The forms that the statements export, from what the names are bound to at the end of the file.
#[tactic(auto, unfolding(crate::specs::Exports::exported))]
pub fn exported(alloc: Global, names: Names<'_>, sts: &[Stmt]) -> Result<Items<Named>, FormRefusal>
    ensures { Gives result (exported (file_in names.entry) sts.now (names_in names.entry)) }
{
    let Names {
        file,
        mut bound,
        ..
    } = names;
    match last_exports(file, sts) {
        Some(exports) => chosen(alloc, file, &mut bound, exports),
        None => Ok(usual(alloc, &mut bound)?),
    }
}
