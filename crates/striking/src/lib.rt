// The theory of striking: what a search that strikes edges leaves, whatever an edge, a crossing and a certificate are.
//
// specs/ has the search of 01 step by step, with its budget, its status bytes and its answer 8, and the
// sets of which demands 2 and 3 speak. proofs/Theorems.antt has the demands, for every system of edges that keeps the few
// laws of specs/System.antt. There is no function here: the crates that have geometry run the search and cite the theorems.
#![tactic(auto)]
