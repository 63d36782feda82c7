// How a run ends.

ghost use Rattle.std.specs.Prelude.{◌≡◌, ℕ, ◌-◌, ◌^◌};
ghost use Rattle.c_unit.specs.Meaning.{further, Slots};
ghost use Rattle.c_run.specs.Answer.{end_of, numbered, is_good};

use c_unit::Op;
use ratio::Ratio;

/// How a run ended. `at` is the number of the statement that ended it, from 0 in the order of the function's text, where a
/// loop's header counts as one, and `u32::MAX` for every number above that.
#[derive(Clone, Copy)]
pub enum Ret {
    /// All statements were run.
    Good,
    /// The exact result of `left` and `right` needs more than 127 bits.
    Passed {
        at: u32,
        op: Op,
        left: Ratio,
        right: Ratio,
    },
    /// The reciprocal of zero was asked for.
    Zero {
        at: u32,
    },
}

impl Ret {
    pub fn is_good(&self) -> bool
        ensures { result ≡ is_good self.now }
    {
        match self {
            Ret::Good => true,
            Ret::Passed { .. } => false,
            Ret::Zero { .. } => false,
        }
    }

    // The same end where `n` more statements stand before.
    pub fn further(self, n: u32) -> Ret
        ensures { (s : Slots) → end_of result s ≡ numbered (further n (end_of self s)) }
    {
        match self {
            Ret::Good => Ret::Good,
            Ret::Passed {
                at,
                op,
                left,
                right,
            } => Ret::Passed {
                at: n.saturating_add(at),
                op,
                left,
                right,
            },
            Ret::Zero { at } => Ret::Zero {
                at: n.saturating_add(at),
            },
        }
    }
}
