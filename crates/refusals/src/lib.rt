// The check of a list: the first four rows of 01's table. Every list gets an answer.
#![tactic(auto)]

ghost use Rattle.std.specs.Prelude.{◌≡◌, ◌<◌, length};
ghost use Rattle.plane.specs.Marks.{IsMark, count};
ghost use Rattle.refusals.specs.Check.{found, in_range, first_out, has_twin, first_twin, shown, verdict};

use plane::marks::{count, is_same, mark};
use std::error::Error;
use std::fmt;

// A row of 01's table, with its detail.
#[derive(Clone, Copy, Debug, PartialEq, Eq)]
pub enum Refusal {
    // List length odd: the length.
    OddLength(usize),
    // More than 128 marks: how many.
    TooManyMarks(usize),
    // A number outside the range: the index in the list of the first.
    OutOfRange(usize),
    // Two marks equal: the smallest mark number that equals an earlier mark.
    EqualMarks(usize),
    // Status buffer not n(n-1)/2 long: n(n-1)/2.
    BufferLength(usize),
    // Certificate request, a byte above 2: the index of the first.
    ByteAboveTwo(usize),
    // Certificate request, not a < b < n.
    NotAPair,
    // Search, an edge without a certificate that nothing remaining crosses: its pair number.
    Uncrossed(usize),
}

impl Refusal {
    // The number of the row.
    #[tactic(auto, unfolding(crate::specs::Check::shown))]
    pub fn number(self) -> u8
        ensures number { result ≡ (shown self).number }
    {
        match self {
            Refusal::OddLength(_) => 1,
            Refusal::TooManyMarks(_) => 2,
            Refusal::OutOfRange(_) => 3,
            Refusal::EqualMarks(_) => 4,
            Refusal::BufferLength(_) => 5,
            Refusal::ByteAboveTwo(_) => 6,
            Refusal::NotAPair => 7,
            Refusal::Uncrossed(_) => 8,
        }
    }

    // Its detail; 0 where the row has none.
    #[tactic(auto, unfolding(crate::specs::Check::shown))]
    pub fn detail(self) -> usize
        ensures detail { result ≡ (shown self).detail }
    {
        match self {
            Refusal::OddLength(k)
            | Refusal::TooManyMarks(k)
            | Refusal::OutOfRange(k)
            | Refusal::EqualMarks(k)
            | Refusal::BufferLength(k)
            | Refusal::ByteAboveTwo(k)
            | Refusal::Uncrossed(k) => k,
            Refusal::NotAPair => 0,
        }
    }
}

impl fmt::Display for Refusal {
    ghost use Rattle.std.specs.Prelude.{Some};
    ghost use Rattle.refusals.specs.Check.{refusal_words};

    ghost output = { λ x. Some (refusal_words x) };

    fn fmt<W: fmt::Write>(&self, f: &mut fmt::Formatter<W>) -> fmt::Result {
        write!(f, "refused {} {}", self.number(), self.detail())
    }
}

impl Error for Refusal {}

fn is_in_range(z: i32) -> bool
    ensures ranged { result ≡ in_range z }
{
    (-10000..=10000).contains(&z)
}

// The index of the first number outside the range.
fn first_out(m: &[i32]) -> Option<usize>
    ensures first { result ≡ found (first_out m.now) (length m.now) }
{
    m.iter().position(|&z| !is_in_range(z))
}

// Mark j equals an earlier mark.
fn has_twin(m: &[i32], j: usize) -> bool
    requires { IsMark m.now j }
    ensures twin { result ≡ has_twin m.now j }
{
    let p = mark(m, j);
    (0..j).any(|i| is_same(mark(m, i), p))
}

// The first mark that equals an earlier one.
fn first_twin(m: &[i32]) -> Option<usize>
    ensures first { result ≡ found (first_twin m.now) (count m.now) }
{
    (0..count(m)).find(|&j| has_twin(m, j))
}

pub fn check_list(m: &[i32]) -> Result<(), Refusal>
    ensures answered { result ≡ verdict m.now }
{
    if m.len() % 2 == 1 {
        return Err(Refusal::OddLength(m.len()));
    }
    let n = count(m);
    if 128 < n {
        return Err(Refusal::TooManyMarks(n));
    }
    if let Some(k) = first_out(m) {
        return Err(Refusal::OutOfRange(k));
    }
    if let Some(j) = first_twin(m) {
        return Err(Refusal::EqualMarks(j));
    }
    Ok(())
}
