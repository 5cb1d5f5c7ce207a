// Rule 4: two empty edges cross if each has its ends strictly on opposite sides of the other's line.
ghost use Rattle.std.specs.Prelude.{◌≡◌};
ghost use Rattle.plane.specs.Cross.{crosses};

use super::side::{is_opposite, side};
use super::spot::Spot;

pub fn is_crossing(a: Spot, b: Spot, c: Spot, d: Spot) -> bool
    ensures crossing { result ≡ crosses a b c d }
{
    is_opposite(side(a, b, c), side(a, b, d)) && is_opposite(side(c, d, a), side(c, d, b))
}
