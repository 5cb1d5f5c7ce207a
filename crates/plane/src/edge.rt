// Rule 3: a pair is an empty edge if no third mark lies on the segment.
ghost use Rattle.std.specs.Prelude.{◌≡◌};
ghost use Rattle.plane.specs.Marks.{IsMark};
ghost use Rattle.plane.specs.Edge.{dot, between, on_segment, clear, empty_edge};

use super::plate::Marks;
use super::side::{is_on, side};
use super::spot::Spot;

// (a - k) · (b - k)
fn dot(k: Spot, a: Spot, b: Spot) -> i32
    ensures product { result ≡ dot k a b }
{
    (a.x - k.x) * (b.x - k.x) + (a.y - k.y) * (b.y - k.y)
}

// Whether k, a point of the line through a and b, lies between them or at one of them.
pub fn is_between(a: Spot, b: Spot, k: Spot) -> bool
    ensures between { result ≡ between a b k }
{
    dot(k, a, b) <= 0
}

// Whether k lies on the segment from a to b, ends included.
pub fn is_on_segment(a: Spot, b: Spot, k: Spot) -> bool
    ensures on { result ≡ on_segment a b k }
{
    is_on(side(a, b, k)) && is_between(a, b, k)
}

// Mark k is an end of (a, b), or off the segment.
#[tactic(auto, unfolding(crate::specs::Edge::clear))]
pub fn is_clear(m: &Marks<'_>, a: usize, b: usize, k: usize) -> bool
    requires a_is_mark { IsMark m.now a }
    requires b_is_mark { IsMark m.now b }
    requires k_is_mark { IsMark m.now k }
    ensures clear { result ≡ clear m.now a b k }
{
    k == a || k == b || !is_on_segment(m.point(a), m.point(b), m.point(k))
}

pub fn is_empty_edge(m: &Marks<'_>, a: usize, b: usize) -> bool
    requires a_is_mark { IsMark m.now a }
    requires b_is_mark { IsMark m.now b }
    ensures empty { result ≡ empty_edge m.now a b }
{
    (0..m.count()).all(|k| is_clear(m, a, b, k))
}
