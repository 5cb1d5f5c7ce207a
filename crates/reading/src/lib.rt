// The text that the listing program reads (answer 9).
//
// `read::read` takes the text's bytes to the budget and the marks' numbers, or to refusal 9 with its line; a refusal changes nothing.
// specs/Text.antt has the grammar's pieces, specs/Read.antt what a text means.
#![tactic(auto)]

pub mod read;
