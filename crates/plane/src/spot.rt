// A point within the range of a plate. The rules of the plane are asked of such points.
ghost use Rattle.std.specs.Prelude.{◌≡◌};
ghost use Rattle.plane.specs.declared.marks.Point.{Point};
ghost use Rattle.plane.specs.Marks.{InRange};

use super::marks::Point;
use std::marker::Model;

#[derive(Clone, Copy)]
pub struct Spot {
    pub x: i32,
    pub y: i32,
}

impl Model for Spot {
    ghost Value = { Point };

    ghost view = { λ s. record { x = s.x; y = s.y } };

    ghost invariant = { λ s. InRange (record { x = s.x; y = s.y }) };

    ghost inverse = { λ p. record { x = p.x; y = p.y } };
}

impl Spot {
    // A point that is known to be within the range.
    pub fn of(p: Point) -> Self
        requires { InRange p }
        ensures { result ≡ p }
    {
        Spot { x: p.x, y: p.y }
    }
}
