// Marks as points of the plane.
ghost use Rattle.std.specs.Prelude.{◌≡◌};
ghost use Rattle.plane.specs.Marks.{count, mark, IsMark, same_point};

#[derive(Clone, Copy, Debug, PartialEq, Eq)]
pub struct Point {
    pub x: i32,
    pub y: i32,
}

// The number of marks.
pub fn count(m: &[i32]) -> usize
    ensures counted { result ≡ count m.now }
{
    m.len() / 2
}

// Mark i.
pub fn mark(m: &[i32], i: usize) -> Point
    requires { IsMark m.now i }
    ensures placed { result ≡ mark m.now i }
{
    Point {
        x: m[2 * i],
        y: m[2 * i + 1],
    }
}

// Both coordinates agree.
pub fn is_same(p: Point, q: Point) -> bool
    ensures same { result ≡ same_point p q }
{
    p == q
}
