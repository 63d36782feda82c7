// Functions and units.

ghost use Rattle.std.specs.Prelude.{◌≡◌, ◌<◌, ◌≤◌, ◌^◌, ◌||◌, ℕ, List, not, bytes_eq, length, OnOk, IfOk, IfErr, option_map};
ghost use Rattle.c_unit.specs.declared.unit.CUnit.{CUnit};
ghost use Rattle.c_text.specs.Stream.{Gives};
ghost use Rattle.c_text.specs.Parser.{stream, left};
ghost use Rattle.c_text.specs.Lawful.{MeetsRules};
ghost use Rattle.c_text.specs.Names.{has_name, AreNames, AreNamesWith};
ghost use Rattle.c_text.specs.Lines.{IsLined};
ghost use Rattle.c_text.specs.Refused.{IsPlace};
ghost use Rattle.c_text.specs.Spelling.{Spells, IsTaken};
ghost use Rattle.c_text.specs.Units.{without_suffix as front_of, name_at, size_at, named_size_at, repeated_at, signature_at, clear_at, slots_at, end_at, sizes_at, function_at, functions_at, is_more as is_more_ahead, fault_at_end as fault_of_end, reading, Answers, IsRead};

use crate::fraction::LARGEST;
use crate::parser::{Parser, syntax};
use crate::place::{Scope, refused};
use crate::refusal::{KernelKind, KernelRefusal, ReadFault};
use crate::statement::Body;
use c_unit::{CFun, CUnit};
use sqlite_items::Items;
use std::alloc::{AllocError, Global};
use std::collections::BTreeSet;

/// The greatest number of bytes.
const LONGEST: usize = 0x1000_0000;

/// The greatest number of statements that a function may run.
const STATEMENTS: u64 = 0x400_0000;

/// A unit, and per function the line of its `enum` and the line of each statement in the order of the text, a loop's header counted as one.
#[derive(Drop)]
pub struct ReadUnit {
    pub unit: CUnit,
    pub enums: Items<u32>,
    pub lines: Items<Items<u32>>,
}

#[derive(Drop)]
struct ReadFun {
    fun: CFun,
    line: u32,
    lines: Items<u32>,
}

// The text without the suffix, where it ends in it.
#[tactic(auto, unfolding(crate::specs::Units::without_suffix))]
fn without_suffix<'t>(text: &'t [u8], suffix: &[u8]) -> Option<&'t [u8]>
    ensures { option_map (λ front. front.now) result ≡ front_of text.now suffix.now }
{
    if text.len() < suffix.len() {
        return None;
    }
    let (front, back) = text.split_at(text.len() - suffix.len());
    if back == suffix { Some(front) } else { None }
}

// Takes a name up among the others; the answer is whether it is new. They are kept in order, since names can be chosen
// to meet in a hash.
fn take_up<'t>(names: &mut BTreeSet<&'t [u8]>, name: &'t [u8]) -> Result<bool, AllocError>
    ensures fresh { IfOk result (λ b. not b ≡ has_name names.old name.now) }
    ensures now { OnOk result ((n : List ℕ) → has_name names.new n ≡ (bytes_eq name.now n || has_name names.old n)) }
{
    Ok(names.insert(name)?)
}

impl<'a> Parser<'a> {
    // The name of a function, from the first word between the brackets; `names` has those of the functions before it.
    #[tactic(auto, unfolding(crate::specs::Units::name_at))]
    fn name(&mut self, names: &mut BTreeSet<&'a [u8]>, funs: &[CFun]) -> Result<&'a [u8], ReadFault>
        requires { AreNames names.old funs.now }
        ensures read { Gives (λ n. n.now) result (stream self.new) (name_at funs.now (stream self.old)) }
        ensures shorter { OnOk result (left self.new < left self.old) }
        ensures names { IfOk result (λ n. AreNamesWith names.new funs.now n.now) }
    {
        let token = self.shift()?;
        let Some(name) = without_suffix(token.text, b"_X") else {
            return Err(syntax(token.line));
        };
        if name.is_empty() {
            return Err(syntax(token.line));
        }
        if !take_up(names, name)? {
            return Err(refused(KernelKind::Bound, token.line));
        }
        Ok(name)
    }

    // The size behind a word between the brackets.
    #[tactic(auto, unfolding(crate::specs::Units::size_at))]
    fn size(&mut self, least: u32) -> Result<u32, ReadFault>
        ensures read { Gives (λ x. x) result (stream self.new) (size_at least (stream self.old)) }
        ensures shorter { OnOk result (left self.new < left self.old) }
    {
        self.expect(b"=")?;
        let (size, line) = self.number()?;
        if size < least || size > LARGEST {
            return Err(refused(KernelKind::Bound, line));
        }
        Ok(size)
    }

    // A further size, with its word.
    #[tactic(auto, unfolding(crate::specs::Units::named_size_at))]
    fn named_size(&mut self, name: &[u8], suffix: &[u8], least: u32) -> Result<u32, ReadFault>
        ensures read { Gives (λ x. x) result (stream self.new) (named_size_at name.now suffix.now least (stream self.old)) }
        ensures shorter { OnOk result (left self.new < left self.old) }
    {
        self.expect(b",")?;
        let token = self.shift()?;
        match without_suffix(token.text, suffix) {
            Some(front) if front == name => self.size(least),
            _ => Err(syntax(token.line)),
        }
    }

    // A size for the second or third time.
    #[tactic(auto, unfolding(crate::specs::Units::repeated_at))]
    fn repeated(&mut self, size: u32) -> Result<(), ReadFault>
        ensures read { Gives (λ x. x) result (stream self.new) (repeated_at size (stream self.old)) }
        ensures shorter { OnOk result (left self.new < left self.old) }
    {
        let (again, line) = self.number()?;
        if again != size {
            return Err(refused(KernelKind::Bound, line));
        }
        Ok(())
    }

    #[tactic(auto, unfolding(crate::specs::Units::signature_at))]
    fn signature(&mut self, name: &[u8]) -> Result<(), ReadFault>
        ensures read { Gives (λ x. x) result (stream self.new) (signature_at name.now (stream self.old)) }
        ensures shorter { OnOk result (left self.new < left self.old) }
    {
        self.expect(b"int")?;
        self.expect(name)?;
        self.expect_all(&[
            b"(", b"const", b"fr", b"*", b"X", b",", b"const", b"fr", b"*", b"W", b",", b"fr",
            b"*", b"A", b")",
        ])
    }

    // The call that clears an array.
    #[tactic(auto, unfolding(crate::specs::Units::clear_at))]
    fn clear(&mut self, array: &[u8], size: u32) -> Result<(), ReadFault>
        ensures read { Gives (λ x. x) result (stream self.new) (clear_at array.now size (stream self.old)) }
        ensures shorter { OnOk result (left self.new < left self.old) }
    {
        self.expect_all(&[b"fr_clear", b"(", array, b","])?;
        self.repeated(size)?;
        self.expect_all(&[b")", b";"])
    }

    // The slots of T, and the two clears.
    #[tactic(auto, unfolding(crate::specs::Units::slots_at))]
    fn slots(&mut self, t: u32, a: u32) -> Result<(), ReadFault>
        ensures read { Gives (λ x. x) result (stream self.new) (slots_at t a (stream self.old)) }
        ensures shorter { OnOk result (left self.new < left self.old) }
    {
        self.expect_all(&[b"{", b"fr", b"T", b"["])?;
        self.repeated(t)?;
        self.expect_all(&[b"]", b";"])?;
        self.clear(b"T", t)?;
        self.clear(b"A", a)
    }

    // The end of a function, which runs this many statements.
    #[tactic(auto, unfolding(crate::specs::Units::end_at))]
    fn end_of_function(&mut self, count: u64) -> Result<(), ReadFault>
        ensures read { Gives (λ x. x) result (stream self.new) (end_at count (stream self.old)) }
        ensures shorter { OnOk result (left self.new < left self.old) }
    {
        self.expect_all(&[b"return", b"0", b";"])?;
        let line = self.expect(b"}")?;
        if count > STATEMENTS {
            return Err(refused(KernelKind::Bound, line));
        }
        Ok(())
    }

    // The sizes of the arrays, and the name.
    #[tactic(auto, unfolding(crate::specs::Units::sizes_at))]
    fn sizes(
        &mut self,
        names: &mut BTreeSet<&'a [u8]>,
        funs: &[CFun],
    ) -> Result<(&'a [u8], Scope), ReadFault>
        requires { AreNames names.old funs.now }
        ensures read { Gives (λ x. (x.0.now, x.1)) result (stream self.new) (sizes_at funs.now (stream self.old)) }
        ensures shorter { OnOk result (left self.new < left self.old) }
        ensures outside { IfOk result (λ x. x.1.depth ≡ 0) }
        ensures names { IfOk result (λ x. AreNamesWith names.new funs.now x.0.now) }
    {
        self.expect(b"{")?;
        let name = self.name(names, funs)?;
        let x = self.size(0)?;
        let w = self.named_size(name, b"_W", 0)?;
        let t = self.named_size(name, b"_T", 1)?;
        let a = self.named_size(name, b"_A", 0)?;
        self.expect_all(&[b"}", b";"])?;
        Ok((
            name,
            Scope {
                x,
                w,
                t,
                a,
                turns: [1; 4],
                depth: 0,
            },
        ))
    }

    #[tactic(auto, unfolding(crate::specs::Units::function_at))]
    fn function(
        &mut self,
        alloc: Global,
        names: &mut BTreeSet<&'a [u8]>,
        funs: &[CFun],
    ) -> Result<ReadFun, ReadFault>
        requires { AreNames names.old funs.now }
        ensures read { Gives (λ x. x) result (stream self.new) (function_at funs.now (stream self.old)) }
        ensures shorter { OnOk result (left self.new < left self.old) }
        ensures names { IfOk result (λ f. AreNamesWith names.new funs.now f.fun.name) }
    {
        let line = self.expect(b"enum")?;
        let (name, scope) = self.sizes(names, funs)?;
        self.signature(name)?;
        self.slots(scope.t, scope.a)?;
        let tables = self.tables(alloc)?;
        let Body {
            statements,
            lines,
            count,
        } = self.body(alloc, &scope, tables.as_slice(), 4)?;
        self.end_of_function(count)?;
        let name = Items::from_slice(alloc, name)?;
        let fun = CFun {
            name,
            x: scope.x,
            w: scope.w,
            t: scope.t,
            a: scope.a,
            tables,
            body: statements,
        };
        Ok(ReadFun { fun, line, lines })
    }

    // All functions up to the end of the text.
    #[tactic(auto, unfolding(crate::specs::Units::functions_at))]
    fn functions(&mut self, alloc: Global) -> Result<ReadUnit, ReadFault>
        ensures { Gives (λ x. x) result (stream self.new) (functions_at (stream self.old)) }
    {
        let mut names = BTreeSet::new(alloc);
        let mut funs = Items::new(alloc);
        let mut enums = Items::new(alloc);
        let mut all_lines = Items::new(alloc);
        'all: loop {
            if !self.is_more() {
                return Ok(ReadUnit {
                    unit: CUnit { funs },
                    enums,
                    lines: all_lines,
                });
            }
            let ReadFun { fun, line, lines } = self.function(alloc, &mut names, funs.as_slice())?;
            funs.push(fun)?;
            enums.push(line)?;
            all_lines.push(lines)?;
        }
    }

    #[tactic(auto, unfolding(crate::specs::Units::is_more, crate::specs::Stream::stream_behind))]
    fn is_more(&self) -> bool
        ensures { result ≡ is_more_ahead (stream self.now) }
    {
        self.ahead.is_some()
    }

    // The place behind the last token where no token starts, if there is one.
    #[tactic(auto, unfolding(crate::specs::Units::fault_at_end, crate::specs::Stream::stream_behind))]
    fn fault_at_end(&self) -> Option<KernelRefusal>
        ensures { result ≡ fault_of_end (stream self.now) }
    {
        match self.ahead {
            Some(_) => None,
            None => match self.end.kind {
                KernelKind::Lex => Some(self.end),
                _ => None,
            },
        }
    }
}

#[tactic(auto, using(crate::proofs::UnitLaws::reading_ends), unfolding(crate::specs::Units::reading))]
fn read_all(alloc: Global, text: &[u8]) -> Result<ReadUnit, ReadFault>
    ensures { IsRead result (reading text.now) }
{
    if text.len() > LONGEST {
        return Err(refused(KernelKind::TooLong, 0));
    }
    let mut parser = Parser::new(text);
    parser.expect_all(&[b"#include", b"\"fr.h\""])?;
    let unit = parser.functions(alloc)?;
    match parser.fault_at_end() {
        Some(fault) => Err(ReadFault::Refused(fault)),
        None => Ok(unit),
    }
}

/// The unit of a text, or the first place where it is refused.
///
/// A text is taken exactly where it spells a unit that meets the rules: its words and signs are those of the unit, in their order.
///
/// The line of a refusal is where the text goes wrong: for Lex no token starts there; for Slot and Bound it has a token with
/// which, after those before it, no text of a unit that meets the rules begins; and for Syntax such a token, or the end of
/// a text of tokens alone.
pub fn read_unit(alloc: Global, text: &[u8]) -> Result<ReadUnit, KernelRefusal>
    ensures exact { Answers result (reading text.now) }
    ensures spelled { IfOk result (λ r. Spells text.now r.unit) }
    ensures lawful { IfOk result (λ r. MeetsRules r.unit) }
    ensures lined { IfOk result (λ r. IsLined text.now r) }
    ensures place { IfErr result (λ e. IsPlace e.kind text.now e.line) }
    ensures taken { (u : CUnit) → MeetsRules u → Spells text.now u → length text.now ≤ 2 ^ 28 → IsTaken result u }
{
    match read_all(alloc, text) {
        Ok(unit) => Ok(unit),
        Err(ReadFault::Refused(refusal)) => Err(refusal),
        Err(ReadFault::Memory) => Err(KernelRefusal {
            kind: KernelKind::Memory,
            line: 0,
        }),
    }
}
