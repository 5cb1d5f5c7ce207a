// The listing program, but for its input and output: from the bytes of a text to the bytes of its answer.
//
// `list::answer` reads the text (crate reading), searches the plate (crate skeleton) and writes what the search answers (crate writing): the
// bytes of the answer are those of `answer_text`, of every text (specs/Program.antt).
#![tactic(auto)]

pub mod list;
