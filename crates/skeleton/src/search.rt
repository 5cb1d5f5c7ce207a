// The search: its refusals, its answer, and the status buffer on return.
ghost use Rattle.std.specs.Prelude.{◌≡◌, ◌≤◌, length};
ghost use Rattle.plane.specs.Marks.{count};
ghost use Rattle.pairs.specs.Pairs.{pair_count};
ghost use Rattle.striking.specs.Search.{bytes_at, search_result};
ghost use Rattle.certificates.specs.Plate.{plate};
ghost use Rattle.rounds.specs.Run.{outcome_by};
ghost use Rattle.rounds.specs.Search.{place, marks, remains, IsReady};
ghost use Rattle.skeleton.specs.Answers.{buffer_row, search_refusal, told, outcome_of, status_after};

use certificates::rows::fill_rows;
use masks::table::LeftSets;
use pairs::pair_count;
use plane::marks::count;
use plane::plate::Marks;
use refusals::{Refusal, check_list};
use rounds::mark_edges;
use rounds::search::{Halt, Run, Search};
use sets::Set;
use std::fmt;

// How a search ended, and after how many examinations.
#[derive(Clone, Copy, Debug, PartialEq, Eq)]
pub enum Outcome {
    // Nothing more is to be struck.
    Done(u32),
    // An examination was due and the budget was spent.
    Paused(u32),
}

impl fmt::Display for Outcome {
    ghost use Rattle.std.specs.Prelude.{Some};
    ghost use Rattle.skeleton.specs.Answers.{outcome_words};

    ghost output = { λ o. Some (outcome_words o) };

    fn fmt<W: fmt::Write>(&self, f: &mut fmt::Formatter<W>) -> fmt::Result {
        match self {
            Outcome::Done(e) => write!(f, "done {e}"),
            Outcome::Paused(e) => write!(f, "paused {e}"),
        }
    }
}

// Row 5 of the table.
pub fn check_buffer(m: &[i32], st: &[u8]) -> Result<(), Refusal>
    requires { count m.now ≤ 128 }
    ensures answered { result ≡ buffer_row m.now st.now }
{
    let k = pair_count(count(m));
    if st.len() != k {
        return Err(Refusal::BufferLength(k));
    }
    Ok(())
}

// Rows 1 to 5 of the table.
pub fn check_search(m: &[i32], st: &[u8]) -> Result<(), Refusal>
    ensures answered { result ≡ search_refusal m.now st.now }
{
    check_list(m)?;
    check_buffer(m, st)
}

// Writes the statuses, or 255 throughout after answer 8, and tells how the search ended.
fn finish(search: &mut Search<'_>, run: Run) -> Result<Outcome, Refusal>
    requires { IsReady search.old }
    ensures outcome { result ≡ told (outcome_by run.halt) run.exams }
    ensures status { remains search.new ≡ bytes_at (plate (marks search.old)) (outcome_by run.halt) (remains search.old) }
    ensures place { place search.new ≡ place search.old }
{
    if let Halt::Stuck(i) = run.halt {
        search.blank();
        return Err(Refusal::Uncrossed(i));
    }
    search.show();
    if let Halt::Finished = run.halt {
        return Ok(Outcome::Done(run.exams));
    }
    Ok(Outcome::Paused(run.exams))
}

// The search of an accepted plate.
fn search_plate(m: &Marks<'_>, st: &mut [u8], budget: u32) -> Result<Outcome, Refusal>
    requires { length st.old ≡ pair_count (count m.now) }
    ensures outcome { result ≡ told (search_result (plate m.now) budget).outcome (search_result (plate m.now) budget).examinations }
    ensures status { st.new ≡ (search_result (plate m.now) budget).status }
{
    let mut sets = [Set::EMPTY; 16384];
    let mut rows = [Set::EMPTY; 128];
    mark_edges(m, st, &mut sets);
    fill_rows(m, st, &mut rows);
    let lefts = LeftSets::new(m.list(), &sets);
    let mut search = Search::of(&lefts, st, &mut rows);
    let run = search.rounds(budget);
    finish(&mut search, run)
}

// Searches the plate m within the budget and writes the status of each pair. Answers every list, buffer and budget.
pub fn search(m: &[i32], st: &mut [u8], budget: u32) -> Result<Outcome, Refusal>
    ensures outcome { result ≡ outcome_of m.now st.old budget }
    ensures status { st.new ≡ status_after m.now st.old budget }
{
    check_search(m, st)?;
    search_plate(&Marks::of(m), st, budget)
}
