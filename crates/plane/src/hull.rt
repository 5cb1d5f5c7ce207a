// Rule 5: what kind of pair (a, b) is. One pass of the marks answers, with one side test a mark.
ghost use Rattle.std.specs.Prelude.{◌≡◌, not};
ghost use Rattle.plane.specs.Marks.{mark, IsMark};
ghost use Rattle.plane.specs.Side.{on_line};
ghost use Rattle.plane.specs.Edge.{clear};
ghost use Rattle.plane.specs.Hull.{kind_of};

use super::edge::is_between;
use super::plate::Marks;
use super::side::{is_left, is_on, is_right, side};

#[derive(Clone, Copy, Debug, PartialEq, Eq)]
pub enum Kind {
    // A third mark lies on the segment.
    Blocked,
    // An empty edge with at least one side on which no mark lies strictly.
    Hull,
    // Any other empty edge.
    Inner,
}

// Mark k, which is on the line of a and b or not, lies on the segment and is no end of it. The ends are told last: they are two of the marks, and
// the tests before leave few others.
#[tactic(auto, unfolding(crate::specs::Edge::clear, crate::specs::Edge::on_segment))]
pub fn is_blocking(m: &Marks<'_>, a: usize, b: usize, k: usize, on: bool) -> bool
    requires a_is_mark { IsMark m.now a }
    requires b_is_mark { IsMark m.now b }
    requires k_is_mark { IsMark m.now k }
    requires on_value { on ≡ on_line (mark m.now a) (mark m.now b) (mark m.now k) }
    ensures blocking { result ≡ not (clear m.now a b k) }
{
    on && is_between(m.point(a), m.point(b), m.point(k)) && k != a && k != b
}

pub fn kind_of(m: &Marks<'_>, a: usize, b: usize) -> Kind
    requires a_is_mark { IsMark m.now a }
    requires b_is_mark { IsMark m.now b }
    ensures kind { result ≡ kind_of m.now a b }
{
    let mut left = false;
    let mut right = false;
    for k in 0..m.count() {
        let s = side(m.point(a), m.point(b), m.point(k));
        if is_blocking(m, a, b, k, is_on(s)) {
            return Kind::Blocked;
        }
        left |= is_left(s);
        right |= is_right(s);
    }
    if left && right {
        Kind::Inner
    } else {
        Kind::Hull
    }
}
