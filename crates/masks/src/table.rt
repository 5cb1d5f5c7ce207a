// The table of left sets: a set for each ordered pair of numbers below 128. It is filled pair by pair, in pair order, and then read.
ghost use Rattle.std.specs.Prelude.{◌≡◌, ◌+◌, ◌<◌};
ghost use Rattle.plane.specs.Marks.{IsMark};
ghost use Rattle.pairs.specs.Pairs.{pair_number};
ghost use Rattle.plane.specs.Hull.{kind_of};
ghost use Rattle.sets.specs.Sets.{set_of};
ghost use Rattle.sides.specs.Sides.{left_set};
ghost use Rattle.masks.specs.Table.{Table, Filled, none_left, split_mark};

use plane::hull::Kind;
use plane::plate::Marks;
use sets::Set;
use sides::{kind_by, sides_of};
use std::marker::Model;

// Stores the left sets of (a, b) and of (b, a), the next in pair order, and says what kind of pair it is.
pub fn store_pair(m: &Marks<'_>, t: &mut [Set], a: usize, b: usize) -> Kind
    requires a_lt_b { a < b }
    requires b_is_mark { IsMark m.now b }
    requires filled_before { Filled m.now t.old (pair_number a b) }
    ensures kind { result ≡ kind_of m.now a b }
    ensures filled { Filled m.now t.new (pair_number a b + 1) }
{
    let x = sides_of(m, a, b);
    t[a * 128 + b] = x.left;
    t[b * 128 + a] = x.right;
    kind_by(x)
}

// A list of marks and its filled table, seen as the list. Its methods take numbers below 128 and not only marks, as the table is filled for them
// all; a type for such numbers would be made at each call from a
// mark, and say what the clause says.
#[derive(Drop)]
pub struct LeftSets<'a> {
    list: &'a [i32],
    sets: &'a [Set],
}

impl<'a> Model for LeftSets<'a> {
    ghost use Rattle.std.specs.Prelude.{List, ℤ};

    ghost Value = { List ℤ };

    ghost use Rattle.masks.specs.Table.{Table};

    ghost view = { λ s. s.list.now };

    ghost invariant = { λ s. Table s.list.now s.sets.now };
}

impl<'a> LeftSets<'a> {
    pub fn new(list: &'a [i32], sets: &'a [Set]) -> LeftSets<'a>
        requires { Table list.now sets.now }
        ensures { result ≡ list.now }
    {
        LeftSets { list, sets }
    }

    pub fn list(&self) -> &'a [i32]
        ensures { result.now ≡ self.now }
    {
        self.list
    }

    // The marks strictly left of p to q.
    pub fn left_set(&self, p: usize, q: usize) -> Set
        requires p_bound { p < 128 }
        requires q_bound { q < 128 }
        ensures left { result ≡ left_set self.now p q }
    {
        self.sets[p * 128 + q]
    }

    // No mark is strictly left of all of p to q, q to r and r to p.
    pub fn none_left(&self, p: usize, q: usize, r: usize) -> bool
        requires p_bound { p < 128 }
        requires q_bound { q < 128 }
        requires r_bound { r < 128 }
        ensures none { result ≡ none_left self.now p q r }
    {
        let x = self.left_set(p, q);
        let y = self.left_set(q, r);
        let z = self.left_set(r, p);
        x.intersection(y).intersection(z).is_empty()
    }

    // The marks i such that p and q lie strictly on opposite sides of the line from r to i: those left of p to r and of r to q, and
    // those left of r to p and of q to r.
    pub fn splits(&self, p: usize, q: usize, r: usize) -> Set
        requires p_bound { p < 128 }
        requires q_bound { q < 128 }
        requires r_bound { r < 128 }
        ensures split { result ≡ set_of (split_mark self.now p q r) }
    {
        let x = self.left_set(p, r);
        let y = self.left_set(r, q);
        let z = self.left_set(r, p);
        let w = self.left_set(q, r);
        x.intersection(y).union(z.intersection(w))
    }
}
