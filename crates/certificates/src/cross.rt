// Whether some edge of the set crosses an edge.
ghost use Rattle.std.specs.Prelude.{◌≡◌, ◌<◌};
ghost use Rattle.plane.specs.Marks.{IsMark};
ghost use Rattle.pairs.specs.Pairs.{pair_number};
ghost use Rattle.striking.specs.System.{crossed};
ghost use Rattle.striking.specs.Status.{remaining};
ghost use Rattle.certificates.specs.Edges.{belongs};
ghost use Rattle.certificates.specs.Plate.{plate};
ghost use Rattle.certificates.specs.Rows.{Clean, crossed_from};

use super::edges::Edges;

impl Edges<'_> {
    // Some edge of the set from r, a mark left of p to q, crosses (p, q).
    fn is_crossed_from(&self, p: usize, q: usize, r: usize) -> bool
        requires p_bound { p < 128 }
        requires q_bound { q < 128 }
        requires r_bound { r < 128 }
        ensures crossed { result ≡ crossed_from self.now.marks (belongs self.now) p q r }
    {
        let lefts = self.lefts();
        let x = self.neighbours(r).intersection(lefts.left_set(q, p));
        !x.intersection(lefts.splits(p, q, r)).is_empty()
    }

    // Some edge of the set crosses (p, q).
    pub fn is_crossed(&self, p: usize, q: usize) -> bool
        requires clean { Clean self.now.marks self.now.statuses }
        requires p_lt_q { p < q }
        requires q_is_mark { IsMark self.now.marks q }
        ensures crossed { result ≡ crossed (plate self.now.marks) (remaining self.now.statuses) (pair_number p q) }
    {
        for r in self.lefts().left_set(p, q) {
            if self.is_crossed_from(p, q, r) {
                return true;
            }
        }
        false
    }
}
