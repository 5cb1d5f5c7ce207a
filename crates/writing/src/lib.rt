// The text that the listing program writes.
//
// `write` makes what the program answers, a listing or the line of a refusal: it fills a lent buffer from its start with the text that
// specs/Listing.antt defines, and leaves the rest of the buffer as it was. `page` has the buffer under way.
#![tactic(auto)]

mod page;
pub mod write;
