//! A set of the numbers 0 to 63, kept in one 64-bit word. Every function takes every input.
#![tactic(auto)]

ghost use Rattle.std.specs.Prelude.{◌≡◌, ◌<◌, ◌^◌, ℕ, not, ◌||◌, slice_index_or};
ghost use Rattle.std.specs.Iterator.{YieldsFirst, item_count};
ghost use Rattle.sets.specs.Test.{insert, remove, either, both, less, under, up_to, least, first_passing, every};
ghost use Rattle.sets.specs.Word.{has, kept, count, members};

use std::marker::Model;

/// A set of the numbers 0 to 63. Clauses see its word: i is in the set where `has word i`.
#[derive(Clone, Copy, Debug, Default, PartialEq, Eq, Hash)]
pub struct Set {
    word: u64,
}

impl Model for Set {
    ghost Value = { ℕ };

    ghost view = { λ s. s.word };

    ghost invariant = { λ s. s.word < 2 ^ 64 };

    ghost inverse = { λ w. record { word = w } };
}

/// The set of a word.
impl From<u64> for Set {
    ghost from_gives = { λ word set. set ≡ word };

    fn from(word: u64) -> Set {
        Set { word }
    }
}

/// The word of a set.
impl From<Set> for u64 {
    ghost from_gives = { λ set word. word ≡ set };

    fn from(set: Set) -> u64 {
        set.word
    }
}

impl Set {
    /// Is i in the set?
    pub fn holds(self, i: u64) -> bool
        ensures { result ≡ has self i }
    {
        i < 64 && (self.word >> i) & 1 == 1
    }

    /// The set with i in it; no number past 63 can be.
    pub fn with(self, i: u64) -> Set
        ensures { has result ≡ kept (insert i (has self)) }
    {
        if i >= 64 {
            return self;
        }
        Set {
            word: self.word | (1u64 << i),
        }
    }

    /// The set with i left out.
    pub fn without(self, i: u64) -> Set
        ensures { has result ≡ remove i (has self) }
    {
        if i >= 64 {
            return self;
        }
        Set {
            word: self.word & !(1u64 << i),
        }
    }

    /// What is in this set, in the other or in both.
    pub fn union(self, other: Set) -> Set
        ensures { has result ≡ either (has self) (has other) }
    {
        Set {
            word: self.word | other.word,
        }
    }

    /// What is in both this set and the other.
    pub fn shared(self, other: Set) -> Set
        ensures { has result ≡ both (has self) (has other) }
    {
        Set {
            word: self.word & other.word,
        }
    }

    /// What is in this set and not in the other.
    pub fn difference(self, other: Set) -> Set
        ensures { has result ≡ less (has self) (has other) }
    {
        Set {
            word: self.word & !other.word,
        }
    }

    /// Is each number of this set in the other?
    pub fn within(self, other: Set) -> bool
        ensures { result ≡ every (λ i. not (has self i) || has other i) 64 }
    {
        self.word & other.word == self.word
    }

    /// The lowest number, if there is one.
    pub fn first(self) -> Option<u64>
        ensures { result ≡ first_passing (has self) 64 }
    {
        if self.word == 0 {
            None
        } else {
            Some(u64::from(self.word.trailing_zeros()))
        }
    }

    /// The lowest number, 64 where there is none.
    // 64 stays: what may not change, the clause of this function. `first` has the Option.
    pub fn lowest(self) -> u64
        ensures { result ≡ least (has self) 64 }
    {
        self.first().unwrap_or(64)
    }

    /// How many numbers there are.
    pub fn count(self) -> u64
        ensures { result ≡ count self }
    {
        u64::from(self.word.count_ones())
    }

    /// The numbers below n, those past 63 apart.
    pub fn below(n: u64) -> Set
        ensures { has result ≡ kept (under n) }
    {
        if n >= 64 {
            return Set { word: u64::MAX };
        }
        Set {
            word: (1u64 << n) - 1,
        }
    }

    /// The numbers 1 to n, those past 63 apart.
    pub fn steps(n: u64) -> Set
        ensures { has result ≡ kept (up_to n) }
    {
        Set::below(n.min(63) + 1).without(0)
    }

    /// The number with k lower ones in the set, 64 where there is none.
    // 64 stays: what may not change, the clause of this function. `into_iter` and the library's `nth` have the Option.
    pub fn nth(self, k: u64) -> u64
        ensures { result ≡ slice_index_or (members self) k 64 }
    {
        self.into_iter().nth(k as usize).unwrap_or(64)
    }
}

/// The numbers of a set that are still to come, rising.
#[derive(Clone, Debug, Drop)]
pub struct Numbers {
    rest: Set,
}

impl Model for Numbers {
    ghost Value = { ℕ };

    ghost view = { λ m. m.rest };

    ghost inverse = { λ w. record { rest = w } };
}

impl Iterator for Numbers {
    type Item = u64;

    ghost next_gives = { YieldsFirst members };

    ghost remaining = { item_count members };

    fn next(&mut self) -> Option<u64> {
        let i = self.rest.first()?;
        self.rest = self.rest.without(i);
        Some(i)
    }
}

/// The numbers of a set, rising.
impl IntoIterator for Set {
    type Item = u64;

    type IntoIter = Numbers;

    ghost into_iter_gives = { λ set numbers. numbers ≡ set };

    fn into_iter(self) -> Numbers {
        Numbers { rest: self }
    }
}
