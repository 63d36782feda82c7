//! Sets of pairs: how many test and how many trial functions the terms of an expression or a form have as factors.

ghost use Rattle.std.specs.Prelude.{◌≡◌};
ghost use Rattle.ufl_form.specs.Patterns.{no_numbers, either, one_more, chosen, sums, only_one, only_zero, is_some, forgotten, no_pairs, only_pair, united, test_added, trials_added, product, raised, of_role, linear_pairs, constant_pairs, without_test, without_trial, without, turned, has_test, has_trial};

use ufl_tree::Role;

/// A set of numbers of factors, of which two and more are not told apart.
#[derive(Clone, Copy, Debug, PartialEq, Eq)]
pub struct Numbers {
    pub zero: bool,
    pub one: bool,
    /// Two or more.
    pub more: bool,
}

/// A set of pairs of a number of test functions and a number of trial functions, as the set of the second numbers for each first number.
#[derive(Clone, Copy, Debug, PartialEq, Eq)]
pub struct PatternSet {
    pub zero: Numbers,
    pub one: Numbers,
    /// Two or more.
    pub more: Numbers,
}

impl Numbers {
    fn none() -> Numbers
        ensures { result ≡ no_numbers }
    {
        Numbers {
            zero: false,
            one: false,
            more: false,
        }
    }

    /// The numbers of either set.
    fn either(self, other: Numbers) -> Numbers
        ensures { result ≡ either self other }
    {
        Numbers {
            zero: self.zero || other.zero,
            one: self.one || other.one,
            more: self.more || other.more,
        }
    }

    /// Each number and one more.
    fn one_more(self) -> Numbers
        ensures { result ≡ one_more self }
    {
        Numbers {
            zero: false,
            one: self.zero,
            more: self.one || self.more,
        }
    }

    /// The set, if it is wanted, and else none.
    fn chosen(self, wanted: bool) -> Numbers
        ensures { result ≡ chosen wanted self }
    {
        if wanted { self } else { Numbers::none() }
    }

    /// Each sum of two numbers.
    fn sums(self, other: Numbers) -> Numbers
        ensures { result ≡ sums self other }
    {
        let once = other.one_more();
        let same = other.chosen(self.zero);
        let more = once.chosen(self.one);
        let twice = once.one_more().chosen(self.more);
        same.either(more.either(twice))
    }

    /// The number 1, if it is there.
    fn linear(self) -> Numbers
        ensures { result ≡ only_one self }
    {
        Numbers {
            zero: false,
            one: self.one,
            more: false,
        }
    }

    /// The number 0, if it is there.
    fn constant(self) -> Numbers
        ensures { result ≡ only_zero self }
    {
        Numbers {
            zero: self.zero,
            one: false,
            more: false,
        }
    }

    /// There is a number.
    fn is_some(self) -> bool
        ensures { result ≡ is_some self }
    {
        self.zero || self.one || self.more
    }

    /// 0 in place of each number.
    fn forgotten(self) -> Numbers
        ensures { result ≡ forgotten self }
    {
        Numbers {
            zero: self.is_some(),
            one: false,
            more: false,
        }
    }
}

impl PatternSet {
    pub(crate) fn none() -> PatternSet
        ensures { result ≡ no_pairs }
    {
        PatternSet {
            zero: Numbers::none(),
            one: Numbers::none(),
            more: Numbers::none(),
        }
    }

    /// The set of the pair without a factor.
    pub(crate) fn unit() -> PatternSet
        ensures { result ≡ only_pair }
    {
        PatternSet {
            zero: Numbers {
                zero: true,
                one: false,
                more: false,
            },
            one: Numbers::none(),
            more: Numbers::none(),
        }
    }

    /// The pairs of either set.
    pub(crate) fn united(self, other: PatternSet) -> PatternSet
        ensures { result ≡ united self other }
    {
        PatternSet {
            zero: self.zero.either(other.zero),
            one: self.one.either(other.one),
            more: self.more.either(other.more),
        }
    }

    /// Each pair with one more test function.
    fn test_added(self) -> PatternSet
        ensures { result ≡ test_added self }
    {
        PatternSet {
            zero: Numbers::none(),
            one: self.zero,
            more: self.one.either(self.more),
        }
    }

    /// Each pair with as many more trial functions as one of the numbers says.
    fn trials_added(self, numbers: Numbers) -> PatternSet
        ensures { result ≡ trials_added numbers self }
    {
        PatternSet {
            zero: numbers.sums(self.zero),
            one: numbers.sums(self.one),
            more: numbers.sums(self.more),
        }
    }

    /// Each sum of two pairs.
    pub(crate) fn product(self, other: PatternSet) -> PatternSet
        ensures { result ≡ product self other }
    {
        let same = other.trials_added(self.zero);
        let once = other.trials_added(self.one).test_added();
        let twice = other.trials_added(self.more).test_added().test_added();
        same.united(once.united(twice))
    }

    /// Each sum of n pairs.
    pub(crate) fn raised(self, n: u8) -> PatternSet
        ensures { result ≡ raised self n }
    {
        let mut all = PatternSet::unit();
        for number in 0..n {
            all = all.product(self);
        }
        all
    }

    /// The set of a function of this role.
    pub(crate) fn of_role(role: Role) -> PatternSet
        ensures { result ≡ of_role role }
    {
        match role {
            Role::Test => PatternSet::unit().test_added(),
            Role::Trial => PatternSet {
                zero: PatternSet::unit().zero.one_more(),
                one: Numbers::none(),
                more: Numbers::none(),
            },
            Role::Position | Role::Coefficient(_) => PatternSet::unit(),
        }
    }

    /// The pairs with one trial function.
    pub(crate) fn linear_pairs(self) -> PatternSet
        ensures { result ≡ linear_pairs self }
    {
        PatternSet {
            zero: self.zero.linear(),
            one: self.one.linear(),
            more: self.more.linear(),
        }
    }

    /// The pairs without a trial function.
    pub(crate) fn constant_pairs(self) -> PatternSet
        ensures { result ≡ constant_pairs self }
    {
        PatternSet {
            zero: self.zero.constant(),
            one: self.one.constant(),
            more: self.more.constant(),
        }
    }

    /// Each pair with no test function in place of its own.
    fn without_test(self) -> PatternSet
        ensures { result ≡ without_test self }
    {
        PatternSet {
            zero: self.zero.either(self.one.either(self.more)),
            one: Numbers::none(),
            more: Numbers::none(),
        }
    }

    /// Each pair with no trial function in place of its own.
    fn without_trial(self) -> PatternSet
        ensures { result ≡ without_trial self }
    {
        PatternSet {
            zero: self.zero.forgotten(),
            one: self.one.forgotten(),
            more: self.more.forgotten(),
        }
    }

    /// Each pair with no such argument in place of its own.
    pub(crate) fn without(self, role: Role) -> PatternSet
        ensures { result ≡ without role self }
    {
        match role {
            Role::Test => self.without_test(),
            Role::Trial => self.without_trial(),
            Role::Position | Role::Coefficient(_) => self,
        }
    }

    /// Each pair with its two numbers exchanged.
    pub(crate) fn turned(self) -> PatternSet
        ensures { result ≡ turned self }
    {
        PatternSet {
            zero: Numbers {
                zero: self.zero.zero,
                one: self.one.zero,
                more: self.more.zero,
            },
            one: Numbers {
                zero: self.zero.one,
                one: self.one.one,
                more: self.more.one,
            },
            more: Numbers {
                zero: self.zero.more,
                one: self.one.more,
                more: self.more.more,
            },
        }
    }

    /// Some pair has a test function.
    pub(crate) fn has_test(self) -> bool
        ensures { result ≡ has_test self }
    {
        self.one.is_some() || self.more.is_some()
    }

    /// Some pair has a trial function.
    pub(crate) fn has_trial(self) -> bool
        ensures { result ≡ has_trial self }
    {
        self.turned().has_test()
    }
}
