// One pass of the marks against a pair (a, b): one side test a mark gives a digit of the left set of a to b, a digit of that of b to a,
// and, where the mark is on the line, whether it lies on the segment.
#![tactic(auto)]

ghost use Rattle.std.specs.Prelude.{◌≡◌, not, ◌+◌, ◌*◌, ◌-◌, ◌^◌, ◌<◌, ◌≤◌};
ghost use Rattle.plane.specs.Marks.{mark, IsMark, Plate, count};
ghost use Rattle.plane.specs.Side.{side};
ghost use Rattle.plane.specs.Edge.{clear};
ghost use Rattle.sets.specs.Sets.{bit};
ghost use Rattle.sides.specs.Sides.{Passed, Found, kind_by};

use plane::hull::{Kind, is_blocking};
use plane::plate::Marks;
use plane::side::{is_left, is_on, is_right, side};
use sets::Set;

// The marks on either side of a pair, and whether its edge is clear of those passed: of a half of the marks as a word, of all as a set.
#[derive(Clone, Copy)]
pub struct Sides<W> {
    pub left: W,
    pub right: W,
    pub clear: bool,
}

// One digit more, below those of w.
fn push(w: u64, x: bool) -> u64
    requires { w < 2 ^ 63 }
    ensures pushed { result ≡ w * 2 + bit x }
{
    w * 2 + u64::from(x)
}

// Mark k, whose side of a to b is s, lies on the segment and is no end of it. `is_blocking` is asked only on the line: asked at each mark, it took
// 97.4 million instructions on the circle, where 95 are the most.
fn blocks(m: &Marks<'_>, a: usize, b: usize, k: usize, s: i32) -> bool
    requires a_is_mark { IsMark m.now a }
    requires b_is_mark { IsMark m.now b }
    requires k_is_mark { IsMark m.now k }
    requires s_value { s ≡ side (mark m.now a) (mark m.now b) (mark m.now k) }
    ensures blocking { result ≡ not (clear m.now a b k) }
{
    is_on(s) && is_blocking(m, a, b, k, true)
}

// The marks lo to hi - 1 against the pair (a, b). From the last to the first, so that each digit is pushed below the ones before it.
fn pass_over(m: &Marks<'_>, a: usize, b: usize, lo: usize, hi: usize) -> Sides<u64>
    requires a_is_mark { IsMark m.now a }
    requires b_is_mark { IsMark m.now b }
    requires lo_le_hi { lo ≤ hi }
    requires hi_bound { hi ≤ count m.now }
    requires hi_near { hi ≤ lo + 64 }
    ensures passed { Passed m.now a b lo (hi - lo) result }
{
    let p = m.point(a);
    let q = m.point(b);
    let mut left = 0;
    let mut right = 0;
    let mut clear = true;
    for k in (lo..hi).rev() {
        let s = side(p, q, m.point(k));
        left = push(left, is_left(s));
        right = push(right, is_right(s));
        if blocks(m, a, b, k, s) {
            clear = false;
        }
    }
    Sides { left, right, clear }
}

// All marks against the pair (a, b).
pub fn sides_of(m: &Marks<'_>, a: usize, b: usize) -> Sides<Set>
    requires a_is_mark { IsMark m.now a }
    requires b_is_mark { IsMark m.now b }
    ensures found { Found m.now a b result }
    ensures plate { Plate m.now }
{
    let n = m.count();
    let h = n.min(64);
    let x = pass_over(m, a, b, 0, h);
    let y = pass_over(m, a, b, h, n);
    Sides {
        left: Set {
            low: x.left,
            high: y.left,
        },
        right: Set {
            low: x.right,
            high: y.right,
        },
        clear: x.clear && y.clear,
    }
}

// Rule 5, from what a pass has found.
#[tactic(auto, unfolding(crate::specs::Sides::kind_by))]
pub fn kind_by(x: Sides<Set>) -> Kind
    ensures kind { result ≡ kind_by x }
{
    if !x.clear {
        Kind::Blocked
    } else if x.left.is_empty() || x.right.is_empty() {
        Kind::Hull
    } else {
        Kind::Inner
    }
}
