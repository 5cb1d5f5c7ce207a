// A list that has been checked. What every rule may take for granted stands in its type: clauses see the list, and it is a plate.
//
// A mark's number stays a number, with the clause `IsMark`: what makes it one is of the plate and the number together, so that a type for it
// would hold the plate again for each corner of a triangle, which is no plainer.
ghost use Rattle.std.specs.Prelude.{◌≡◌, List, ℤ, ◌≤◌};
ghost use Rattle.plane.specs.Marks.{count, mark, IsMark, Plate};

use super::marks;
use super::spot::Spot;
use std::marker::Model;

#[derive(Drop)]
pub struct Marks<'a> {
    list: &'a [i32],
}

impl<'a> Model for Marks<'a> {
    ghost Value = { List ℤ };

    ghost view = { λ s. s.list.now };

    ghost invariant = { λ s. Plate s.list.now };
}

impl<'a> Marks<'a> {
    // The marks of a list that has been checked.
    pub fn of(list: &'a [i32]) -> Self
        requires { Plate list.now }
        ensures { result ≡ list.now }
    {
        Marks { list }
    }

    // The list. Whoever reads it, or counts its marks, has it as a plate.
    pub fn list(&self) -> &'a [i32]
        ensures list { result.now ≡ self.now }
        ensures plate { Plate self.now }
    {
        self.list
    }

    // How many they are.
    pub fn count(&self) -> usize
        ensures counted { result ≡ count self.now }
        ensures few { result ≤ 128 }
        ensures plate { Plate self.now }
    {
        marks::count(self.list)
    }

    // The point of mark i.
    pub fn point(&self, i: usize) -> Spot
        requires { IsMark self.now i }
        ensures { result ≡ mark self.now i }
    {
        Spot::of(marks::mark(self.list, i))
    }
}
