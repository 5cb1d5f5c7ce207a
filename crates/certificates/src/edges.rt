// A set of edges, to be read: the left sets of a plate, the status bytes of its pairs, and the rows of those whose bytes are not 0. A pair is two
// numbers with their clauses, as the definitions of rules 7 to 9 take it, and a method that serves every number below 128 asks just that, for the
// reason given in masks/src/table.rt. That an edge is empty, and that all bytes are `Clean`, only some methods ask.
ghost use Rattle.std.specs.Prelude.{◌≡◌, ◌<◌};
ghost use Rattle.plane.specs.Marks.{Plate};
ghost use Rattle.striking.specs.Status.{remaining};
ghost use Rattle.certificates.specs.Edges.{belongs};
ghost use Rattle.certificates.specs.Plate.{edges_of};
ghost use Rattle.certificates.specs.Rows.{Rows, near_set};

use masks::table::LeftSets;
use sets::Set;
use std::marker::Model;

#[derive(Drop)]
pub struct Edges<'a> {
    lefts: &'a LeftSets<'a>,
    statuses: &'a [u8],
    rows: &'a [Set],
}

impl<'a> Model for Edges<'a> {
    ghost use Rattle.certificates.specs.Edges.{EdgeSet};

    ghost Value = { EdgeSet };

    ghost use Rattle.striking.specs.Status.{remaining};
    ghost use Rattle.certificates.specs.Plate.{edges_of};
    ghost use Rattle.certificates.specs.Rows.{Rows};
    ghost use Rattle.plane.specs.Marks.{Plate};

    ghost view = { λ s. record { marks = s.lefts.now; statuses = s.statuses.now } };

    ghost invariant = { λ s. Plate s.lefts.now × Rows s.lefts.now (edges_of s.lefts.now (remaining s.statuses.now)) s.rows.now };
}

impl<'a> Edges<'a> {
    pub fn new(lefts: &'a LeftSets<'a>, statuses: &'a [u8], rows: &'a [Set]) -> Edges<'a>
        requires plate { Plate lefts.now }
        requires rows { Rows lefts.now (edges_of lefts.now (remaining statuses.now)) rows.now }
        ensures { result ≡ record { marks = lefts.now; statuses = statuses.now } }
    {
        Edges {
            lefts,
            statuses,
            rows,
        }
    }

    pub(super) fn lefts(&self) -> &'a LeftSets<'a>
        ensures lefts { result.now ≡ self.now.marks }
        ensures plate { Plate self.now.marks }
    {
        self.lefts
    }

    // The marks that p has an edge of the set to.
    pub fn neighbours(&self, p: usize) -> Set
        requires { p < 128 }
        ensures near { result ≡ near_set self.now.marks (belongs self.now) p }
    {
        self.rows[p]
    }
}
