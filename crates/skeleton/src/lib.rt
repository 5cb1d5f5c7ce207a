// The skeleton of a plate: the search and the certificate request, with answers 5 to 8, and the demands.
//
// `search::search` and `request::request` take any list of numbers, any buffer of status bytes and any budget or pair, and answer each
// with a refusal of the table or with a result; neither requires anything of its caller. specs/Answers.antt says every answer and every
// status byte, specs/Table.antt when each row of the table applies. proofs/Theorems.antt has the demands themselves.
#![tactic(auto)]

pub mod request;
pub mod search;
