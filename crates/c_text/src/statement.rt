// Statements.

ghost use Rattle.std.specs.Prelude.{◌≡◌, ◌<◌, ◌≤◌, ◌+◌, ◌*◌, ℕ, ◌||◌, ◌&&◌, OnOk, IfOk, [], ◌∷◌, ◌-◌, nat_lt, codes};
ghost use Rattle.c_text.specs.Stream.{Gives, is_ahead};
ghost use Rattle.c_text.specs.Parser.{stream, left};
ghost use Rattle.c_text.specs.Statements.{set_at, pair_at, inverse_at, triple_at, step_call_at, test_at, table_used_at, load_at, call_at, own_counter_at, turns_at, header_at, line_ahead as line_of_next, loop_by, line_at, body_at, call_line_at, inside as inside_of, capped, is_call as is_call_ahead, is_statement as is_statement_ahead};

use crate::number::{counter_number, table_number};
use crate::parser::{Parser, syntax};
use crate::place::{Scope, refused};
use crate::refusal::{KernelKind, ReadFault};
use c_unit::{Array, CStmt, Place};
use ratio::Ratio;
use sqlite_items::Items;
use std::alloc::{AllocError, Global};

// One more than a function may run.
const CAP: u64 = 0x400_0001;

/// Statements, with their lines in the order of the text, and how many a run makes, or 2^26 + 1 where it makes more.
#[derive(Drop)]
pub struct Body {
    pub statements: Items<CStmt>,
    pub lines: Items<u32>,
    pub count: u64,
}

/// A statement, with the same.
#[derive(Drop)]
pub struct Line {
    pub statement: CStmt,
    pub lines: Items<u32>,
    pub count: u64,
}

fn one_line(alloc: Global, line: u32) -> Result<Items<u32>, AllocError>
    ensures { IfOk result (λ lines. lines ≡ line ∷ []) }
{
    let mut lines = Items::new(alloc);
    lines.push(line)?;
    Ok(lines)
}

fn sum_capped(count: u64, more: u64) -> u64
    ensures { result ≡ capped (count + more) }
{
    count.saturating_add(more).min(CAP)
}

fn product_capped(count: u64, turns: u32) -> u64
    ensures { result ≡ capped (count * turns) }
{
    count.saturating_mul(turns as u64).min(CAP)
}

impl Scope {
    // The scope inside a loop of so many turns.
    fn inside(&self, turns: u32) -> Scope
        requires { self.now.depth < 4 }
        ensures value { result ≡ inside_of self.now turns }
        ensures deeper { result.depth ≡ self.now.depth + 1 }
    {
        let mut inner = *self;
        inner.turns[self.depth as usize] = turns;
        inner.depth = self.depth + 1;
        inner
    }
}

impl<'a> Parser<'a> {
    #[tactic(auto, unfolding(crate::specs::Statements::set_at))]
    fn set(&mut self, scope: &Scope) -> Result<CStmt, ReadFault>
        requires { scope.now.depth ≤ 4 }
        ensures read { Gives (λ x. x) result (stream self.new) (set_at scope.now (stream self.old)) }
        ensures shorter { OnOk result (left self.new < left self.old) }
    {
        self.expect_all(&[b"fr_set", b"("])?;
        let to = self.target(scope)?;
        self.expect(b",")?;
        let value = self.fraction()?;
        self.expect_all(&[b")", b";"])?;
        Ok(CStmt::Set { to, value })
    }

    // This word, and the target and the argument behind it.
    #[tactic(auto, unfolding(crate::specs::Statements::pair_at))]
    fn pair(&mut self, word: &[u8], scope: &Scope) -> Result<(Place, Place), ReadFault>
        requires { scope.now.depth ≤ 4 }
        ensures read { Gives (λ x. x) result (stream self.new) (pair_at word.now scope.now (stream self.old)) }
        ensures shorter { OnOk result (left self.new < left self.old) }
    {
        self.expect_all(&[word, b"("])?;
        let to = self.target(scope)?;
        self.expect(b",")?;
        let arg = self.source(scope)?;
        Ok((to, arg))
    }

    #[tactic(auto, unfolding(crate::specs::Statements::inverse_at))]
    fn inverse(&mut self, scope: &Scope) -> Result<CStmt, ReadFault>
        requires { scope.now.depth ≤ 4 }
        ensures read { Gives (λ x. x) result (stream self.new) (inverse_at scope.now (stream self.old)) }
        ensures shorter { OnOk result (left self.new < left self.old) }
    {
        let (to, arg) = self.pair(b"fr_inv", scope)?;
        self.expect_all(&[b")", b")", b"return", b"2", b";"])?;
        Ok(CStmt::Inv { to, arg })
    }

    // This word, and the target and two arguments behind it.
    #[tactic(auto, unfolding(crate::specs::Statements::triple_at))]
    fn triple(&mut self, word: &[u8], scope: &Scope) -> Result<(Place, Place, Place), ReadFault>
        requires { scope.now.depth ≤ 4 }
        ensures read { Gives (λ x. x) result (stream self.new) (triple_at word.now scope.now (stream self.old)) }
        ensures shorter { OnOk result (left self.new < left self.old) }
    {
        let (to, left) = self.pair(word, scope)?;
        self.expect(b",")?;
        let right = self.source(scope)?;
        self.expect_all(&[b")", b")", b"return", b"1", b";"])?;
        Ok((to, left, right))
    }

    // A call that may end the run, behind `if (`.
    #[tactic(auto, unfolding(crate::specs::Statements::step_call_at, crate::specs::Statements::add_at, crate::specs::Statements::sub_at, crate::specs::Statements::mul_at))]
    fn step_call(&mut self, scope: &Scope) -> Result<CStmt, ReadFault>
        requires { scope.now.depth ≤ 4 }
        ensures read { Gives (λ x. x) result (stream self.new) (step_call_at scope.now (stream self.old)) }
        ensures shorter { OnOk result (left self.new < left self.old) }
    {
        if self.next_is(b"fr_add") {
            let (to, left, right) = self.triple(b"fr_add", scope)?;
            return Ok(CStmt::Add { to, left, right });
        }
        if self.next_is(b"fr_sub") {
            let (to, left, right) = self.triple(b"fr_sub", scope)?;
            return Ok(CStmt::Sub { to, left, right });
        }
        if self.next_is(b"fr_mul") {
            let (to, left, right) = self.triple(b"fr_mul", scope)?;
            return Ok(CStmt::Mul { to, left, right });
        }
        self.inverse(scope)
    }

    #[tactic(auto, unfolding(crate::specs::Statements::test_at))]
    fn test(&mut self, scope: &Scope) -> Result<CStmt, ReadFault>
        requires { scope.now.depth ≤ 4 }
        ensures read { Gives (λ x. x) result (stream self.new) (test_at scope.now (stream self.old)) }
        ensures shorter { OnOk result (left self.new < left self.old) }
    {
        self.expect_all(&[b"if", b"("])?;
        self.step_call(scope)
    }

    // A table of the function: its number and its size.
    #[tactic(auto, unfolding(crate::specs::Statements::table_used_at))]
    fn table_used(&mut self, tables: &[Items<Ratio>]) -> Result<(u32, usize), ReadFault>
        ensures read { Gives (λ x. x) result (stream self.new) (table_used_at tables.now (stream self.old)) }
        ensures shorter { OnOk result (left self.new < left self.old) }
    {
        let token = self.shift()?;
        let Some(number) = table_number(token.text) else {
            return Err(syntax(token.line));
        };
        match tables.get(number as usize) {
            Some(table) => Ok((number, table.len())),
            None => Err(syntax(token.line)),
        }
    }

    #[tactic(auto, unfolding(crate::specs::Statements::load_at))]
    fn load(&mut self, scope: &Scope, tables: &[Items<Ratio>]) -> Result<CStmt, ReadFault>
        requires { scope.now.depth ≤ 4 }
        ensures read { Gives (λ x. x) result (stream self.new) (load_at scope.now tables.now (stream self.old)) }
        ensures shorter { OnOk result (left self.new < left self.old) }
    {
        self.expect_all(&[b"fr_load", b"(", b"&", b"T", b"["])?;
        let slot = self.slot(scope, scope.t as usize)?;
        self.expect_all(&[b"]", b",", b"&"])?;
        let (table, size) = self.table_used(tables)?;
        self.expect(b"[")?;
        let at = self.slot(scope, size)?;
        self.expect_all(&[b"]", b")", b";"])?;
        let to = Place {
            array: Array::T,
            slot,
        };
        Ok(CStmt::Load { to, table, at })
    }

    #[tactic(auto, unfolding(crate::specs::Statements::call_at, crate::specs::Statements::copy_at, crate::specs::Statements::abs_at))]
    fn call(&mut self, scope: &Scope, tables: &[Items<Ratio>]) -> Result<CStmt, ReadFault>
        requires { scope.now.depth ≤ 4 }
        ensures read { Gives (λ x. x) result (stream self.new) (call_at scope.now tables.now (stream self.old)) }
        ensures shorter { OnOk result (left self.new < left self.old) }
    {
        if self.next_is(b"fr_set") {
            return self.set(scope);
        }
        if self.next_is(b"fr_copy") {
            let (to, arg) = self.pair(b"fr_copy", scope)?;
            self.expect_all(&[b")", b";"])?;
            return Ok(CStmt::Copy { to, arg });
        }
        if self.next_is(b"fr_abs") {
            let (to, arg) = self.pair(b"fr_abs", scope)?;
            self.expect_all(&[b")", b";"])?;
            return Ok(CStmt::Abs { to, arg });
        }
        if self.next_is(b"fr_load") {
            return self.load(scope, tables);
        }
        self.test(scope)
    }

    // The counter of a loop at this depth.
    #[tactic(auto, unfolding(crate::specs::Statements::own_counter_at))]
    fn own_counter(&mut self, depth: u32) -> Result<(), ReadFault>
        ensures read { Gives (λ x. x) result (stream self.new) (own_counter_at depth (stream self.old)) }
        ensures shorter { OnOk result (left self.new < left self.old) }
    {
        let token = self.shift()?;
        match counter_number(token.text) {
            Some(counter) if counter == depth => Ok(()),
            _ => Err(syntax(token.line)),
        }
    }

    // The number of turns: 1 or more.
    #[tactic(auto, unfolding(crate::specs::Statements::turns_at))]
    fn turns(&mut self) -> Result<u32, ReadFault>
        ensures read { Gives (λ x. x) result (stream self.new) (turns_at (stream self.old)) }
        ensures shorter { OnOk result (left self.new < left self.old) }
    {
        let (turns, line) = self.number()?;
        if turns == 0 {
            return Err(refused(KernelKind::Bound, line));
        }
        Ok(turns)
    }

    // The header of a loop; the answer is its number of turns.
    #[tactic(auto, unfolding(crate::specs::Statements::header_at))]
    fn header(&mut self, depth: u32) -> Result<u32, ReadFault>
        ensures read { Gives (λ x. x) result (stream self.new) (header_at depth (stream self.old)) }
        ensures shorter { OnOk result (left self.new < left self.old) }
    {
        self.expect_all(&[b"for", b"(", b"int"])?;
        self.own_counter(depth)?;
        self.expect_all(&[b"=", b"0", b";"])?;
        self.own_counter(depth)?;
        self.expect(b"<")?;
        let turns = self.turns()?;
        self.expect(b";")?;
        self.own_counter(depth)?;
        self.expect_all(&[b"++", b")", b"{"])?;
        Ok(turns)
    }

    // The line of the next token.
    #[tactic(auto, unfolding(crate::specs::Statements::line_ahead, crate::specs::Stream::stream_behind))]
    fn line_ahead(&self) -> u32
        ensures { result ≡ line_of_next (stream self.now) }
    {
        match self.ahead {
            Some(token) => token.line,
            None => 0,
        }
    }

    // Whether a loop begins here, where there is room for one more inside one another.
    fn is_loop(&self, room: u32) -> bool
        ensures { result ≡ (nat_lt 0 room && is_ahead (codes "for") (stream self.now)) }
    {
        room > 0 && self.next_is(b"for")
    }

    #[tactic(auto, unfolding(crate::specs::Statements::is_call))]
    fn is_call(&self) -> bool
        ensures { result ≡ is_call_ahead (stream self.now) }
    {
        self.next_is(b"fr_set")
            || self.next_is(b"fr_copy")
            || self.next_is(b"fr_abs")
            || self.next_is(b"fr_load")
            || self.next_is(b"if")
    }

    // Whether a statement begins here.
    fn is_statement(&self, room: u32) -> bool
        ensures { result ≡ is_statement_ahead (nat_lt 0 room) (stream self.now) }
    {
        self.is_call() || self.is_loop(room)
    }

    #[tactic(auto, unfolding(crate::specs::Statements::call_line_at))]
    fn call_line(
        &mut self,
        alloc: Global,
        scope: &Scope,
        tables: &[Items<Ratio>],
    ) -> Result<Line, ReadFault>
        requires { scope.now.depth ≤ 4 }
        ensures read { Gives (λ x. x) result (stream self.new) (call_line_at (line_of_next (stream self.old)) scope.now tables.now (stream self.old)) }
        ensures shorter { OnOk result (left self.new < left self.old) }
    {
        let line = self.line_ahead();
        let statement = self.call(scope, tables)?;
        let lines = one_line(alloc, line)?;
        Ok(Line {
            statement,
            lines,
            count: 1,
        })
    }

    // A statement, with the lines and the count of a loop's own statements.
    #[cycle(body)]
    fn line(
        &mut self,
        alloc: Global,
        scope: &Scope,
        tables: &[Items<Ratio>],
        room: u32,
    ) -> Result<Line, ReadFault>
        requires { scope.now.depth + room ≡ 4 }
        ensures read { Gives (λ x. x) result (stream self.new) (line_at room scope.now tables.now (stream self.old)) }
        ensures shorter { OnOk result (left self.new < left self.old) }
    {
        if self.is_loop(room) {
            return self.counted_loop(alloc, scope, tables, room - 1);
        }
        self.call_line(alloc, scope, tables)
    }

    // A loop, inside which there may be this many loops inside one another.
    #[cycle(body)]
    #[tactic(auto, unfolding(crate::specs::Statements::loop_by))]
    fn counted_loop(
        &mut self,
        alloc: Global,
        scope: &Scope,
        tables: &[Items<Ratio>],
        room: u32,
    ) -> Result<Line, ReadFault>
        requires { scope.now.depth + room ≡ 3 }
        ensures read { Gives (λ x. x) result (stream self.new) (loop_by (body_at room) (line_of_next (stream self.old)) scope.now tables.now (stream self.old)) }
        ensures shorter { OnOk result (left self.new < left self.old) }
    {
        let line = self.line_ahead();
        let turns = self.header(scope.depth)?;
        let inner = scope.inside(turns);
        let Body {
            statements,
            lines: more,
            count,
        } = self.body(alloc, &inner, tables, room)?;
        self.expect(b"}")?;
        let mut lines = one_line(alloc, line)?;
        lines.append(more)?;
        Ok(Line {
            statement: CStmt::For {
                turns,
                body: statements,
            },
            lines,
            count: product_capped(count, turns),
        })
    }

    /// Statements, as far as they go, with at most this many loops inside one another.
    #[cycle(body)]
    pub fn body(
        &mut self,
        alloc: Global,
        scope: &Scope,
        tables: &[Items<Ratio>],
        room: u32,
    ) -> Result<Body, ReadFault>
        requires { scope.now.depth + room ≡ 4 }
        ensures read { Gives (λ x. x) result (stream self.new) (body_at room scope.now tables.now (stream self.old)) }
        ensures shorter { OnOk result (left self.new ≤ left self.old) }
    {
        let mut statements = Items::new(alloc);
        let mut lines = Items::new(alloc);
        let mut count: u64 = 0;
        'all: loop {
            if !self.is_statement(room) {
                return Ok(Body {
                    statements,
                    lines,
                    count,
                });
            }
            let Line {
                statement,
                lines: more,
                count: counted,
            } = self.line(alloc, scope, tables, room)?;
            statements.push(statement)?;
            lines.append(more)?;
            count = sum_capped(count, counted);
        }
    }
}
