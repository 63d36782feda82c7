//! The names: those that are assigned, and those of the language.

ghost use Rattle.std.specs.Prelude.{◌≡◌, nat_lt};
ghost use Rattle.ufl_elab.specs.Entries.{count_of, freed_of};

use crate::bound::Bound;
use crate::shared::Shared;
use indexmap::IndexMap;
use std::alloc::{AllocError, Global};
use ufl_calls::table_value;
use ufl_syntax::Span;
use ufl_values::{Reason, Value};

/// Most nodes of the values of all names together.
const MOST_NODES: u64 = 1_000_000;

/// A file, and the names that are assigned in it, in the order of their first assignment, with the number of nodes of
/// all their values. A name is a slice of the file.
#[derive(Drop)]
pub struct Names<'a> {
    pub file: &'a [u8],
    pub bound: IndexMap<&'a [u8], Bound>,
    nodes: u64,
    ghost counted: { nodes ≡ count_of bound.entries },
}

/// All values have more nodes together than they may.
fn are_too_many(nodes: u64) -> bool
    ensures { result ≡ nat_lt 1000000 nodes }
{
    nodes > MOST_NODES
}

/// How many nodes a former value had.
fn freed(former: Option<Bound>) -> u64
    ensures { result ≡ freed_of former }
{
    match former {
        Some(old) => old.value.nodes() as u64,
        None => 0,
    }
}

impl<'a> Names<'a> {
    ghost use Rattle.std.specs.Prelude.{◌≡◌, [], nat_lt, OnOk};
    ghost use Rattle.std.specs.Option.{option_copied};
    ghost use Rattle.ufl_syntax.specs.Spans.{word_at};
    ghost use Rattle.ufl_values.specs.Answer.{Answers};
    ghost use Rattle.ufl_elab.specs.Names.{bound_by, assign, get, value_in, nodes_in};
    ghost use Rattle.ufl_elab.specs.Answers.{file_in, names_in};

    /// No names are assigned yet.
    pub fn new(alloc: Global, file: &'a [u8]) -> Names<'a>
        ensures file { file_in result ≡ file.now }
        ensures names { names_in result ≡ [] }
    {
        Names {
            file,
            bound: IndexMap::new(alloc),
            nodes: 0,
        }
    }

    /// The word that stands there, as far as the file goes.
    pub fn text(&self, span: Span) -> &'a [u8]
        ensures { result.now ≡ word_at (file_in self.now) span }
    {
        span.text(self.file)
    }

    /// The values of all names have more nodes together than a file may have.
    pub fn is_full(&self) -> bool
        ensures { result ≡ nat_lt 1000000 (nodes_in (names_in self.now)) }
    {
        are_too_many(self.nodes)
    }

    /// What the name is bound to.
    fn get(&self, name: &[u8]) -> Option<&Bound>
        ensures { option_copied result ≡ get (names_in self.now) name.now }
    {
        self.bound.get(name)
    }

    /// The value of the name: what it is bound to, or else its meaning in the language.
    pub fn value(&self, alloc: Global, name: &[u8]) -> Result<Shared, Reason>
        ensures { Answers result (value_in (names_in self.now) name.now) }
    {
        match self.get(name) {
            Some(bound) => Ok(bound.value.share()?),
            None => Ok(Shared::new(alloc, table_value(name)?)?),
        }
    }

    /// Binds the target to the value, in a statement that begins on this line.
    pub fn assign(&mut self, target: Span, line: u32, value: Shared) -> Result<(), AllocError>
        ensures file { file_in self.new ≡ file_in self.old }
        ensures names { OnOk result (names_in self.new
            ≡ assign (names_in self.old) (word_at (file_in self.old) target) (bound_by target line value)) }
    {
        let Some(total) = self.nodes.checked_add(value.nodes() as u64) else {
            return Err(AllocError);
        };
        let name = self.text(target);
        match self.bound.insert(name, Bound::new(value, line, target)) {
            Ok(former) => {
                self.nodes = total - freed(former);
                Ok(())
            }
            Err(_) => Err(AllocError),
        }
    }
}
