// Rule 6: an empty triangle.
ghost use Rattle.std.specs.Prelude.{◌≡◌};
ghost use Rattle.plane.specs.Marks.{mark, IsMark};
ghost use Rattle.plane.specs.Side.{on_line};
ghost use Rattle.plane.specs.Triangle.{inside, hollow, empty_triangle};

use super::edge::is_empty_edge;
use super::plate::Marks;
use super::side::{is_on, is_same_side, side};
use super::spot::Spot;

// Whether k lies strictly inside the triangle p q r: on one side of p to q, of q to r and of r to p.
pub fn is_inside(p: Spot, q: Spot, r: Spot, k: Spot) -> bool
    ensures inside { result ≡ inside p q r k }
{
    let s = side(p, q, k);
    is_same_side(s, side(q, r, k)) && is_same_side(s, side(r, p, k))
}

// No mark lies strictly inside.
pub fn is_hollow(m: &Marks<'_>, p: usize, q: usize, r: usize) -> bool
    requires p_is_mark { IsMark m.now p }
    requires q_is_mark { IsMark m.now q }
    requires r_is_mark { IsMark m.now r }
    ensures hollow { result ≡ hollow m.now p q r }
{
    (0..m.count()).all(|k| !is_inside(m.point(p), m.point(q), m.point(r), m.point(k)))
}

// The three marks lie on one line.
fn are_on_line(m: &Marks<'_>, p: usize, q: usize, r: usize) -> bool
    requires p_is_mark { IsMark m.now p }
    requires q_is_mark { IsMark m.now q }
    requires r_is_mark { IsMark m.now r }
    ensures on { result ≡ on_line (mark m.now p) (mark m.now q) (mark m.now r) }
{
    is_on(side(m.point(p), m.point(q), m.point(r)))
}

#[tactic(auto, unfolding(crate::specs::Triangle::empty_triangle))]
pub fn is_empty_triangle(m: &Marks<'_>, p: usize, q: usize, r: usize) -> bool
    requires p_is_mark { IsMark m.now p }
    requires q_is_mark { IsMark m.now q }
    requires r_is_mark { IsMark m.now r }
    ensures empty { result ≡ empty_triangle m.now p q r }
{
    !are_on_line(m, p, q, r)
        && is_empty_edge(m, p, q)
        && is_empty_edge(m, q, r)
        && is_empty_edge(m, r, p)
        && is_hollow(m, p, q, r)
}
