// Rules 7 to 9: which certificate an edge has in a set of edges, whether an edge of the set crosses it, and the sets of which the demands speak.
//
// A set of edges stands in the code as status bytes and, beside them, as rows of neighbours: `rows` fills and parts these. `edges::Edges` is
// the set as it is read, over them and the table of crate masks, and `first_certificate` and `is_crossed` are quick over it. specs/Certificate.antt
// has rules 7 and 8, specs/Rule9.antt the sets of which demands 2 and 3 speak, specs/Plate.antt the plate as the theory of striking sees it.
#![tactic(auto)]

pub mod certificate;
pub mod cross;
pub mod edges;
pub mod rows;
