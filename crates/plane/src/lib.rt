// The plane rules: marks, and rules 1 to 6.
//
// A plate is a lent list of numbers x0, y0, x1, y1, ..; mark i is the point (m[2i], m[2i + 1]). What a list must be is `Plate` of
// specs/Marks.antt, which crate refusals checks. A list that has been checked is a `plate::Marks`, and its marks stand at `spot::Spot`s: the
// rules take these. Each function computes one definition of specs/, and its contract is the equation with that definition.
#![tactic(auto)]

pub mod cross;
pub mod edge;
pub mod hull;
pub mod marks;
pub mod plate;
pub mod side;
pub mod spot;
pub mod triangle;
pub mod weight;
