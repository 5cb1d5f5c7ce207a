// Sets of marks: numbers below 128, in two words of 64 digits, for the numbers 0 to 63 and 64 to 127, the lowest digit first.
#![tactic(auto)]

ghost use Rattle.std.specs.Prelude.{◌≡◌, ◌<◌};
ghost use Rattle.sets.specs.Sets.{set_of, has, none, first, rest, both, either, including, without};

// Two words and no array or wider number: `set_of` and `has` of specs/Sets.antt, and the edits about the wrong half, are about `low` and `high`.
#[derive(Clone, Copy, PartialEq, Eq)]
pub struct Set {
    pub low: u64,
    pub high: u64,
}

impl Set {
    pub const EMPTY: Set = Set { low: 0, high: 0 };

    pub fn contains(self, i: usize) -> bool
        requires { i < 128 }
        ensures member { result ≡ has self i }
    {
        if i < 64 {
            (self.low >> i) % 2 == 1
        } else {
            (self.high >> (i - 64)) % 2 == 1
        }
    }

    pub fn is_empty(self) -> bool
        ensures none { result ≡ none self }
    {
        self.low == 0 && self.high == 0
    }

    // Takes the first out, and gives it. A `u32` becomes a `usize` by `as`: std has no `From` for the two.
    // The test of both words comes first, so that a loop has one way out and what does not change leaves it.
    pub fn pop_first(&mut self) -> Option<usize>
        ensures first { result ≡ first self.old }
        ensures rest { self.new ≡ rest self.old }
    {
        if self.is_empty() {
            return None;
        }
        if self.low != 0 {
            let k = self.low.trailing_zeros() as usize;
            self.low &= self.low - 1;
            Some(k)
        } else {
            let k = 64 + self.high.trailing_zeros() as usize;
            self.high &= self.high - 1;
            Some(k)
        }
    }

    // What is in both sets.
    pub fn intersection(self, other: Set) -> Set
        ensures both { result ≡ set_of (both (has self) (has other)) }
    {
        Set {
            low: self.low & other.low,
            high: self.high & other.high,
        }
    }

    // What is in either set.
    pub fn union(self, other: Set) -> Set
        ensures either { result ≡ set_of (either (has self) (has other)) }
    {
        Set {
            low: self.low | other.low,
            high: self.high | other.high,
        }
    }

    // The set with k.
    pub fn with(self, k: usize) -> Set
        requires { k < 128 }
        ensures added { result ≡ set_of (including (has self) k) }
    {
        if k < 64 {
            Set {
                low: self.low | (1 << k),
                ..self
            }
        } else {
            Set {
                high: self.high | (1 << (k - 64)),
                ..self
            }
        }
    }

    // The set without k.
    pub fn without(self, k: usize) -> Set
        requires { k < 128 }
        ensures removed { result ≡ set_of (without (has self) k) }
    {
        if k < 64 {
            Set {
                low: self.low & !(1 << k),
                ..self
            }
        } else {
            Set {
                high: self.high & !(1 << (k - 64)),
                ..self
            }
        }
    }
}

// The members of a set, smallest first.
#[derive(Clone, Copy)]
pub struct Members {
    rest: Set,
}

impl Iterator for Members {
    type Item = usize;

    ghost use Rattle.std.specs.Iterator.{at_most};
    ghost use Rattle.sets.specs.Sets.{PopsFirst, members_left, members_rest};

    ghost next_gives = { λ s r t. PopsFirst (members_rest s) r (members_rest t) };

    ghost remaining = { λ s. at_most (members_left (members_rest s)) };

    fn next(&mut self) -> Option<usize> {
        self.rest.pop_first()
    }
}

impl IntoIterator for Set {
    type Item = usize;

    type IntoIter = Members;

    ghost use Rattle.std.specs.Prelude.{◌≡◌};
    ghost use Rattle.sets.specs.Sets.{members_rest};

    ghost into_iter_gives = { λ s r. members_rest r ≡ s };

    fn into_iter(self) -> Members {
        Members { rest: self }
    }
}
