// The table of the marks strictly left of each ordered pair.
//
// The table has a set of marks for each ordered pair of marks; `table::store_pair` writes the two of one pair in one pass of the marks and
// says what kind of pair it is. Each function computes one definition of specs/, and its contract says so, so that a layer above that works
// on words is held to the plane rules themselves.
#![tactic(auto)]

pub mod table;
