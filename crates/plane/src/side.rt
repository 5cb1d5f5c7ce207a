// Rule 1: on which side of the line from p to q a point lies. What `side` answers is read by `is_left`, `is_right` and `is_on` alone,
// which would read the doubled area itself in the same way.
ghost use Rattle.std.specs.Prelude.{◌≡◌};
ghost use Rattle.plane.specs.Side.{side, is_left, is_right, is_on, same_side, opposite};

use super::spot::Spot;

// The side test. Its answer is the number -1, 0 or 1 and no enum: `side` of specs/Side.antt, which the contract and rule 1's laws name, is one.
pub fn side(p: Spot, q: Spot, r: Spot) -> i32
    ensures sided { result ≡ side p q r }
{
    ((q.x - p.x) * (r.y - p.y) - (q.y - p.y) * (r.x - p.x)).signum()
}

pub fn is_left(s: i32) -> bool
    ensures left { result ≡ is_left s }
{
    0 < s
}

pub fn is_right(s: i32) -> bool
    ensures right { result ≡ is_right s }
{
    s < 0
}

pub fn is_on(s: i32) -> bool
    ensures on { result ≡ is_on s }
{
    s == 0
}

// Both strictly left, or both strictly right.
pub fn is_same_side(s: i32, t: i32) -> bool
    ensures same { result ≡ same_side s t }
{
    if is_left(s) {
        is_left(t)
    } else {
        is_right(s) && is_right(t)
    }
}

// One strictly left, and the other strictly right.
pub fn is_opposite(s: i32, t: i32) -> bool
    ensures opposite { result ≡ opposite s t }
{
    if is_left(s) {
        is_right(t)
    } else {
        is_right(s) && is_left(t)
    }
}
