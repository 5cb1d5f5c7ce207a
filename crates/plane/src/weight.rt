// Rule 2: the weight of a pair is the square of its length.
ghost use Rattle.std.specs.Prelude.{◌≡◌};
ghost use Rattle.plane.specs.Weight.{weight};

use super::spot::Spot;

pub fn weight(a: Spot, b: Spot) -> i32
    ensures weighed { result ≡ weight a b }
{
    let dx = b.x - a.x;
    let dy = b.y - a.y;
    dx * dx + dy * dy
}
