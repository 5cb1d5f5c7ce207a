// What the program answers, as text: a listing, or the line of a refusal.
//
// The text fills a lent buffer from its start, and the result is its length; behind it the buffer holds what it held.
ghost use Rattle.std.specs.Prelude.{◌≡◌, ◌++◌, ◌≤◌, length, drop};
ghost use Rattle.pairs.specs.Pairs.{pair_count};
ghost use Rattle.writing.specs.Listing.{refused_text, listing_text};

use crate::page::Page;

// The line of a refusal: at most 50 bytes.
#[tactic(auto, using(crate::proofs::Lengths::refused_length), unfolding(crate::specs::Sheet::put, crate::specs::Sheet::sheet))]
pub fn write_refusal(out: &mut [u8], number: u64, detail: u64) -> usize
    requires { 64 ≤ length out.old }
    ensures counted { result ≡ length (refused_text number detail) }
    ensures written { out.new ≡ refused_text number detail ++ drop (length (refused_text number detail)) out.old }
{
    let mut page = Page::new(out);
    page.refusal(number, detail);
    page.len()
}

// The listing of n marks, whose status bytes are st: a first line of at most 28 bytes, and at most 8,128 lines of at most 17.
// `done` stays a flag beside its examinations, and a refusal two numbers: `outcome_text`, `listing_text` and `refused_text` of specs/Listing.antt,
// on which the promises about the listing stand, take them so. What is written is told by its length, since there is no memory but the lent buffer.
#[tactic(auto, using(crate::proofs::Lengths::listings), unfolding(crate::specs::Listing::listing_text, crate::specs::Sheet::put, crate::specs::Sheet::sheet))]
pub fn write_listing(out: &mut [u8], done: bool, examinations: u64, st: &[u8], n: usize) -> usize
    requires n_bound { n ≤ 128 }
    requires st_len { length st.now ≡ pair_count n }
    requires out_room { 138240 ≤ length out.old }
    ensures counted { result ≡ length (listing_text done examinations st.now n) }
    ensures written { out.new ≡ listing_text done examinations st.now n ++ drop (length (listing_text done examinations st.now n)) out.old }
{
    let mut page = Page::new(out);
    page.outcome(done, examinations);
    page.pairs(st, n);
    page.len()
}
