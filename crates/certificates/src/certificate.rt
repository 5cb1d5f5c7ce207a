// Rules 7 and 8: the first certificate of an edge, in the set of edges whose bytes are not 0.
ghost use Rattle.std.specs.Prelude.{◌≡◌, true, ◌<◌, ◌≤◌};
ghost use Rattle.plane.specs.Marks.{IsMark};
ghost use Rattle.plane.specs.Edge.{empty_edge};
ghost use Rattle.sets.specs.Sets.{set_of};
ghost use Rattle.masks.specs.Table.{split_mark};
ghost use Rattle.certificates.specs.Certificate.{first_certificate, certificate_of};
ghost use Rattle.certificates.specs.Edges.{belongs};
ghost use Rattle.certificates.specs.Rows.{candidate, right_candidate, goes_with, Apart};

use super::edges::Edges;
use pairs::pair_of;
use plane::plate::Marks;
use plane::weight::weight;
use sets::Set;

// The two apexes, and the pair numbers of the four sides in the order pr, qr, ps, qs.
#[derive(Clone, Copy)]
pub struct Certificate {
    pub r: usize,
    pub s: usize,
    pub sides: [usize; 4],
}

// The apexes of a certificate.
#[derive(Clone, Copy)]
pub struct Apexes {
    pub r: usize,
    pub s: usize,
}

// The record of the certificate of (p, q) with the apexes r and s.
pub fn certificate_of(p: usize, q: usize, r: usize, s: usize) -> Certificate
    requires r_apart { Apart p q r }
    requires s_apart { Apart p q s }
    ensures kept { result ≡ certificate_of p q r s }
{
    let pr = pair_of(p, r);
    let qr = pair_of(q, r);
    let ps = pair_of(p, s);
    let qs = pair_of(q, s);
    Certificate {
        r,
        s,
        sides: [pr, qr, ps, qs],
    }
}

impl Edges<'_> {
    // The marks left of a to b that have an edge of the set to p and to q.
    fn candidates(&self, p: usize, q: usize, a: usize, b: usize) -> Set
        requires p_bound { p < 128 }
        requires q_bound { q < 128 }
        requires a_bound { a < 128 }
        requires b_bound { b < 128 }
        ensures found { result ≡ set_of (candidate self.now.marks (belongs self.now) p q a b) }
    {
        let near = self.neighbours(p).intersection(self.neighbours(q));
        near.intersection(self.lefts().left_set(a, b))
    }

    // The right apexes to try with the left one r: none where a mark lies inside pqr.
    fn right_candidates(&self, p: usize, q: usize, r: usize, rights: Set) -> Set
        requires p_bound { p < 128 }
        requires q_bound { q < 128 }
        requires r_bound { r < 128 }
        requires rights_value { rights ≡ set_of (candidate self.now.marks (belongs self.now) p q q p) }
        ensures found { result ≡ set_of (right_candidate self.now.marks (belongs self.now) p q r) }
    {
        if self.lefts().none_left(p, q, r) {
            rights
        } else {
            Set::EMPTY
        }
    }

    // The right apex s goes with the left one r: pqs is empty, and pq holds against rs. `across` has the marks whose segment to r
    // crosses pq.
    fn is_match(&self, p: usize, q: usize, r: usize, s: usize, across: Set) -> bool
        requires p_is_mark { IsMark self.now.marks p }
        requires q_is_mark { IsMark self.now.marks q }
        requires r_is_mark { IsMark self.now.marks r }
        requires s_is_mark { IsMark self.now.marks s }
        requires across_value { across ≡ set_of (split_mark self.now.marks p q r) }
        ensures fits { result ≡ goes_with self.now.marks p q r s }
    {
        let lefts = self.lefts();
        let m = Marks::of(lefts.list());
        (weight(m.point(p), m.point(q)) <= weight(m.point(r), m.point(s)) || !across.contains(s))
            && lefts.none_left(q, p, s)
    }

    // The first certificate of the empty edge (p, q): the smallest r, then the smallest s. The loops are left by a label: one value is
    // found, in one place.
    pub fn first_certificate(&self, p: usize, q: usize) -> Option<Apexes>
        requires p_lt_q { p < q }
        requires q_is_mark { IsMark self.now.marks q }
        requires empty { empty_edge self.now.marks p q ≡ true }
        ensures first { result ≡ first_certificate self.now.marks (belongs self.now) p q }
    {
        let lefts = self.lefts();
        let rights = self.candidates(p, q, q, p);
        let mut found = None;
        'search: for r in self.candidates(p, q, p, q) {
            let across = lefts.splits(p, q, r);
            for s in self.right_candidates(p, q, r, rights) {
                if self.is_match(p, q, r, s, across) {
                    found = Some(Apexes { r, s });
                    break 'search;
                }
            }
        }
        found
    }
}
