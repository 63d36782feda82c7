//! The arguments of a call.

ghost use Rattle.std.specs.Prelude.{◌≡◌, [], OnOk};
ghost use Rattle.std.specs.Option.{option_copied};
ghost use Rattle.ufl_values.specs.Answer.{Answers};
ghost use Rattle.ufl_calls.specs.Arguments.{given_also, given_keyed, one_place, two_places, three_places, is_keyword, unknown_keyword, has_keyword, only_value, keyword_value, only_list};

use sqlite_items::Items;
use std::alloc::{AllocError, Global};
use ufl_syntax::Span;
use ufl_values::{Keyword, Reason, Value, copy_value, light, list_items};

/// How many places of a call may take a tree.
const PLACES_FOR_TREES: usize = 3;

/// Most nodes of a value with a keyword: a tuple of two numbers.
const MOST_KEYED_NODES: u32 = 3;

/// An argument with a keyword.
#[derive(Drop)]
pub struct Keyed {
    pub word: Span,
    /// The keyword that it is, where a function takes it.
    pub keyword: Option<Keyword>,
    pub value: Value,
}

/// The arguments of a call: those without a keyword, in order, and those with one.
#[derive(Drop)]
pub struct Given {
    pub places: Items<Value>,
    pub keyed: Items<Keyed>,
}

impl Given {
    /// No arguments.
    pub fn new(alloc: Global) -> Given
        ensures places { result.places ≡ [] }
        ensures keyed { result.keyed ≡ [] }
    {
        Given {
            places: Items::new(alloc),
            keyed: Items::new(alloc),
        }
    }

    /// One more argument without a keyword. No call takes a value of more than one node in its fourth place or behind
    /// it: such a value is let go.
    #[tactic(auto, unfolding(crate::specs::Arguments::given_also))]
    pub fn push(&mut self, value: Value) -> Result<(), AllocError>
        ensures { OnOk result (self.new ≡ given_also self.old value) }
    {
        if self.places.len() < PLACES_FOR_TREES {
            self.places.push(value)
        } else {
            self.places.push(light(value, 1))
        }
    }

    /// One more argument with this word and this keyword. No call takes a value of more than three nodes with a
    /// keyword: such a value is let go.
    #[tactic(auto, unfolding(crate::specs::Arguments::given_keyed))]
    pub fn push_keyed(
        &mut self,
        word: Span,
        keyword: Option<Keyword>,
        value: Value,
    ) -> Result<(), AllocError>
        ensures { OnOk result (self.new ≡ given_keyed self.old word keyword value) }
    {
        let value = light(value, MOST_KEYED_NODES);
        self.keyed.push(Keyed {
            word,
            keyword,
            value,
        })
    }
}

/// The items of the only argument, where it is a list.
pub fn only_list(places: &[Value]) -> Option<&[Value]>
    ensures { option_copied result ≡ only_list places.now }
{
    match places {
        [only] => list_items(only),
        _ => None,
    }
}

/// The only argument, else `Kind`.
pub fn one(places: Items<Value>) -> Result<Value, Reason>
    ensures { result ≡ one_place places }
{
    let mut rest = places;
    let Some(only) = rest.pop() else {
        return Err(Reason::Kind);
    };
    if !rest.is_empty() {
        return Err(Reason::Kind);
    }
    Ok(only)
}

/// The two arguments, else `Kind`.
pub fn two(places: Items<Value>) -> Result<(Value, Value), Reason>
    ensures { result ≡ two_places places }
{
    let mut rest = places;
    let Some(second) = rest.pop() else {
        return Err(Reason::Kind);
    };
    Ok((one(rest)?, second))
}

/// The three arguments, else `Kind`.
pub fn three(places: Items<Value>) -> Result<(Value, Value, Value), Reason>
    ensures { result ≡ three_places places }
{
    let mut rest = places;
    let Some(third) = rest.pop() else {
        return Err(Reason::Kind);
    };
    let (first, second) = two(rest)?;
    Ok((first, second, third))
}

/// The keyword is this one.
fn is_keyword(keyword: Option<Keyword>, known: Option<Keyword>) -> bool
    ensures { result ≡ is_keyword keyword known }
{
    match (keyword, known) {
        (Some(Keyword::Dim), Some(Keyword::Dim)) => true,
        (Some(Keyword::Shape), Some(Keyword::Shape)) => true,
        _ => false,
    }
}

/// The word of the first argument that has another keyword than this.
pub fn unknown_keyword(keyed: &[Keyed], known: Option<Keyword>) -> Option<Span>
    ensures { result ≡ unknown_keyword keyed.now known }
{
    for argument in keyed {
        if !is_keyword(argument.keyword, known) {
            return Some(argument.word);
        }
    }
    None
}

/// Some argument has this keyword.
fn has_keyword(keyed: &[Keyed], known: Option<Keyword>) -> bool
    ensures { result ≡ has_keyword keyed.now known }
{
    for argument in keyed {
        if is_keyword(argument.keyword, known) {
            return true;
        }
    }
    false
}

/// The value of the first argument with this keyword; `Kind` exactly where one of the others behind it has it too.
fn only_value(
    alloc: Global,
    first: &Keyed,
    others: &[Keyed],
    known: Option<Keyword>,
) -> Result<Option<Value>, Reason>
    ensures { Answers result (only_value first.now others.now known) }
{
    if has_keyword(others, known) {
        return Err(Reason::Kind);
    }
    Ok(Some(copy_value(alloc, &first.value)?))
}

/// The value of the argument with this keyword, if there is one; `Kind` exactly where there are several.
pub fn keyword_value(
    alloc: Global,
    keyed: &[Keyed],
    known: Option<Keyword>,
) -> Result<Option<Value>, Reason>
    ensures { Answers result (keyword_value keyed.now known) }
{
    let mut rest = keyed;
    while let [first, others @ ..] = rest {
        if is_keyword(first.keyword, known) {
            return only_value(alloc, first, others, known);
        }
        rest = others;
    }
    Ok(None)
}
