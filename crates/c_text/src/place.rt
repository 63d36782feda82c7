// Slot numbers and places.

ghost use Rattle.std.specs.Prelude.{◌≡◌, ◌<◌, ◌≤◌, ℕ, OnOk, IfOk};
ghost use Rattle.c_text.specs.Stream.{Gives};
ghost use Rattle.c_unit.specs.Rules.{greatest as greatest_of};
ghost use Rattle.c_text.specs.Parser.{stream, left};
ghost use Rattle.c_text.specs.Places.{number_at, counter_at, factor_at, step_at, steps_at, is_step_ahead as step_is_ahead, slot_at, array_at, slot_of as slot_in, target_at, source_at, size_in};

use crate::number::{counter_number, small};
use crate::parser::{Parser, syntax};
use crate::refusal::{KernelKind, KernelRefusal, ReadFault};
use c_unit::{Array, Place, Slot};
use slices::Tok;

/// The sizes of the four arrays, and the turns of the enclosing loops, the outermost first.
#[derive(Clone, Copy)]
pub struct Scope {
    pub x: u32,
    pub w: u32,
    pub t: u32,
    pub a: u32,
    pub turns: [u32; 4],
    pub depth: u32,
}

// The multiples of counters so far, the least counter that may follow, and the line of the last token.
#[derive(Clone, Copy)]
struct Steps {
    steps: [u32; 4],
    from: u32,
    line: u32,
}

impl Scope {
    fn size(&self, array: Array) -> u32
        ensures { result ≡ size_in self.now array }
    {
        match array {
            Array::X => self.x,
            Array::W => self.w,
            Array::T => self.t,
            Array::A => self.a,
        }
    }

    // The greatest slot number that comes in the turns of the loops.
    #[tactic(auto, unfolding(c_unit::specs::Rules::greatest))]
    fn greatest(&self, slot: Slot) -> u128
        ensures { result ≡ greatest_of self.now.turns slot }
    {
        slot.base as u128
            + slot.steps[0] as u128 * self.turns[0].saturating_sub(1) as u128
            + slot.steps[1] as u128 * self.turns[1].saturating_sub(1) as u128
            + slot.steps[2] as u128 * self.turns[2].saturating_sub(1) as u128
            + slot.steps[3] as u128 * self.turns[3].saturating_sub(1) as u128
    }
}

pub fn refused(kind: KernelKind, line: u32) -> ReadFault
    ensures { result ≡ ReadFault.Refused (record { kind = kind; line = line }) }
{
    ReadFault::Refused(KernelRefusal { kind, line })
}

impl<'a> Parser<'a> {
    /// A number below 2^32, and its line.
    #[tactic(auto, unfolding(crate::specs::Places::number_at))]
    pub fn number(&mut self) -> Result<(u32, u32), ReadFault>
        ensures read { Gives (λ x. x) result (stream self.new) (number_at (stream self.old)) }
        ensures shorter { OnOk result (left self.new < left self.old) }
    {
        let token = self.shift()?;
        match small(token.text) {
            Some(value) => Ok((value, token.line)),
            None => Err(syntax(token.line)),
        }
    }

    // A counter of an enclosing loop, from this one on, and its line.
    #[tactic(auto, unfolding(crate::specs::Places::counter_at))]
    fn counter(&mut self, from: u32, depth: u32) -> Result<(u32, u32), ReadFault>
        ensures read { Gives (λ x. x) result (stream self.new) (counter_at from depth (stream self.old)) }
        ensures shorter { OnOk result (left self.new < left self.old) }
        ensures below { IfOk result (λ c. (from ≤ c.0) × (c.0 < depth)) }
    {
        let token = self.shift()?;
        match counter_number(token.text) {
            Some(counter) if from <= counter && counter < depth => Ok((counter, token.line)),
            _ => Err(syntax(token.line)),
        }
    }

    // A factor: a number of 1 or more.
    #[tactic(auto, unfolding(crate::specs::Places::factor_at))]
    fn factor(&mut self) -> Result<u32, ReadFault>
        ensures read { Gives (λ x. x) result (stream self.new) (factor_at (stream self.old)) }
        ensures shorter { OnOk result (left self.new < left self.old) }
    {
        let (factor, line) = self.number()?;
        if factor == 0 {
            return Err(syntax(line));
        }
        Ok(factor)
    }

    // A multiple of a counter: the factor, the counter and its line.
    #[tactic(auto, unfolding(crate::specs::Places::step_at))]
    fn step(&mut self, from: u32, depth: u32) -> Result<(u32, u32, u32), ReadFault>
        ensures read { Gives (λ x. x) result (stream self.new) (step_at from depth (stream self.old)) }
        ensures shorter { OnOk result (left self.new < left self.old) }
        ensures below { IfOk result (λ x. (from ≤ x.1) × (x.1 < depth)) }
    {
        self.expect(b"+")?;
        let factor = self.factor()?;
        self.expect(b"*")?;
        let (counter, line) = self.counter(from, depth)?;
        Ok((factor, counter, line))
    }

    // Whether a multiple of a counter follows: a `+`, where a counter from this one on is enclosed.
    fn is_step_ahead(&self, from: u32, depth: u32) -> bool
        ensures { result ≡ step_is_ahead from depth (stream self.now) }
    {
        self.next_is(b"+") && from < depth
    }

    // The multiples of counters behind a number of this line, as far as a counter can follow.
    #[tactic(auto, unfolding(crate::specs::Places::steps_at))]
    fn steps(&mut self, depth: u32, line: u32) -> Result<Steps, ReadFault>
        requires { depth ≤ 4 }
        ensures read { Gives (λ x. x) result (stream self.new) (steps_at depth line (stream self.old)) }
        ensures shorter { OnOk result (left self.new ≤ left self.old) }
    {
        let mut steps = [0; 4];
        let mut from = 0;
        let mut last = line;
        'all: loop {
            if !self.is_step_ahead(from, depth) {
                return Ok(Steps {
                    steps,
                    from,
                    line: last,
                });
            }
            let (factor, counter, place) = self.step(from, depth)?;
            steps[counter as usize] = factor;
            from = counter + 1;
            last = place;
        }
    }

    /// A slot number below the size in all turns of the loops.
    #[tactic(auto, unfolding(crate::specs::Places::slot_at))]
    pub fn slot(&mut self, scope: &Scope, size: usize) -> Result<Slot, ReadFault>
        requires { scope.now.depth ≤ 4 }
        ensures read { Gives (λ x. x) result (stream self.new) (slot_at scope.now size (stream self.old)) }
        ensures shorter { OnOk result (left self.new < left self.old) }
    {
        let (base, line) = self.number()?;
        let found = self.steps(scope.depth, line)?;
        let steps = found.steps;
        let slot = Slot { base, steps };
        if scope.greatest(slot) >= size as u128 {
            return Err(refused(KernelKind::Slot, found.line));
        }
        Ok(slot)
    }

    #[tactic(auto, unfolding(crate::specs::Places::array_at))]
    fn array(&mut self) -> Result<(Array, u32), ReadFault>
        ensures read { Gives (λ x. x) result (stream self.new) (array_at (stream self.old)) }
        ensures shorter { OnOk result (left self.new < left self.old) }
    {
        let token = self.shift()?;
        match token.text {
            b"X" => Ok((Array::X, token.line)),
            b"W" => Ok((Array::W, token.line)),
            b"T" => Ok((Array::T, token.line)),
            b"A" => Ok((Array::A, token.line)),
            _ => Err(syntax(token.line)),
        }
    }

    #[tactic(auto, unfolding(crate::specs::Places::slot_of))]
    fn slot_of(&mut self, scope: &Scope, array: Array) -> Result<Place, ReadFault>
        requires { scope.now.depth ≤ 4 }
        ensures read { Gives (λ x. x) result (stream self.new) (slot_in scope.now array (stream self.old)) }
        ensures shorter { OnOk result (left self.new < left self.old) }
    {
        self.expect(b"[")?;
        let slot = self.slot(scope, scope.size(array) as usize)?;
        self.expect(b"]")?;
        Ok(Place { array, slot })
    }

    /// A place that is written: of T or A.
    #[tactic(auto, unfolding(crate::specs::Places::target_at))]
    pub fn target(&mut self, scope: &Scope) -> Result<Place, ReadFault>
        requires { scope.now.depth ≤ 4 }
        ensures read { Gives (λ x. x) result (stream self.new) (target_at scope.now (stream self.old)) }
        ensures shorter { OnOk result (left self.new < left self.old) }
    {
        self.expect(b"&")?;
        let (array, line) = self.array()?;
        match array {
            Array::X | Array::W => Err(syntax(line)),
            Array::T | Array::A => self.slot_of(scope, array),
        }
    }

    /// A place that is read: of any array.
    #[tactic(auto, unfolding(crate::specs::Places::source_at))]
    pub fn source(&mut self, scope: &Scope) -> Result<Place, ReadFault>
        requires { scope.now.depth ≤ 4 }
        ensures read { Gives (λ x. x) result (stream self.new) (source_at scope.now (stream self.old)) }
        ensures shorter { OnOk result (left self.new < left self.old) }
    {
        self.expect(b"&")?;
        let (array, _line) = self.array()?;
        self.slot_of(scope, array)
    }
}
