// From the text's bytes to the answer's. The room for the answer is a clause and no array's length: any lent buffer that is long enough serves.
ghost use Rattle.std.specs.Prelude.{◌≡◌, ◌++◌, ◌≤◌, length, drop, replicate};
ghost use Rattle.skeleton.specs.Answers.{status_after};
ghost use Rattle.listing.specs.Program.{status_room, marks_text, list_text, list_status, answer_text, answer_status};

use pairs::pair_count;
use plane::marks::count;
use reading::read::{BadLine, Reading, read};
use skeleton::search::{Outcome, search};
use writing::write::{write_listing, write_refusal};

// How many status bytes a list is lent: one for each pair, and none if it has more than 128 marks.
pub fn status_room(m: &[i32]) -> usize
    ensures room { result ≡ status_room m.now }
{
    let n = count(m);
    if 128 < n { 0 } else { pair_count(n) }
}

// Searches, and writes what the search answers: the listing, or the line of a refusal.
pub fn list(m: &[i32], st: &mut [u8], budget: u32, out: &mut [u8]) -> usize
    requires { 138240 ≤ length out.old }
    ensures counted { result ≡ length (marks_text m.now st.old budget) }
    ensures written { out.new ≡ marks_text m.now st.old budget ++ drop (length (marks_text m.now st.old budget)) out.old }
    ensures status { st.new ≡ status_after m.now st.old budget }
{
    match search(m, st, budget) {
        Ok(Outcome::Done(e)) => write_listing(out, true, u64::from(e), st, count(m)),
        Ok(Outcome::Paused(e)) => write_listing(out, false, u64::from(e), st, count(m)),
        Err(f) => write_refusal(out, u64::from(f.number()), f.detail() as u64),
    }
}

// The same, with status bytes that are all cleared; a part of them is lent.
fn list_cleared(m: &[i32], st: &mut [u8], budget: u32, out: &mut [u8]) -> usize
    requires cleared { st.old ≡ replicate 8128 0 }
    requires out_room { 138240 ≤ length out.old }
    ensures counted { result ≡ length (list_text m.now budget) }
    ensures written { out.new ≡ list_text m.now budget ++ drop (length (list_text m.now budget)) out.old }
    ensures status { st.new ≡ list_status m.now budget }
{
    let k = status_room(m);
    list(m, &mut st[..k], budget, out)
}

// The program, but for its input and output: reads the text, and writes its answer at the start of `out`.
pub fn answer(text: &[u8], st: &mut [u8], out: &mut [u8]) -> usize
    requires cleared { st.old ≡ replicate 8128 0 }
    requires out_room { 138240 ≤ length out.old }
    ensures counted { result ≡ length (answer_text text.now) }
    ensures written { out.new ≡ answer_text text.now ++ drop (length (answer_text text.now)) out.old }
    ensures fits { result ≤ length out.new }
    ensures status { st.new ≡ answer_status text.now }
{
    let mut numbers = [0i32; 2048];
    match read(text, &mut numbers) {
        Ok(Reading { budget, count }) => list_cleared(&numbers[..count], st, budget, out),
        // Row 9 of the table, a number and no case of `Refusal`: it is of a text, which no library function sees.
        // A `usize` becomes a `u64` by `as`: std has no `From` for the two.
        Err(BadLine(line)) => write_refusal(out, 9, line as u64),
    }
}
