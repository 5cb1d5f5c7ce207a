// Reading the listing program's text. A part of the text is a slice of it. The text is read by its lines, and twice: no number is stored
// before the whole text is known to be good, so that a refusal changes nothing.
ghost use Rattle.std.specs.Prelude.{◌≡◌, ◌==◌, false, ◌++◌, ◌*◌, ◌^◌, ◌≤◌, ◌<◌, ltb, IfSome, length, drop, is_some, MatchOption};
ghost use Rattle.std.specs.Bool.{then_some};
ghost use Rattle.std.specs.List.{position};
ghost use Rattle.reading.specs.Text.{has, Cut, all_digits, is_number, value_of, is_coordinate, coordinate_of};
ghost use Rattle.reading.specs.Read.{is_budget, budget_of, is_mark, x_of, y_of, is_good_as, line_of, first_bad, Readable};
ghost use Rattle.reading.specs.Read.{mark_count, numbers_of, reading_of, numbers_after};

// What a good text holds: the budget, and how many numbers the marks have.
#[derive(Clone, Copy, Debug, PartialEq, Eq)]
pub struct Reading {
    pub budget: u32,
    pub count: usize,
}

// Refusal 9 with its detail: the number of the first bad line, or 0 for a text that is too long, as the table has it.
#[derive(Clone, Copy, Debug, PartialEq, Eq)]
pub struct BadLine(pub usize);

// What "-" stands for.
const DASH_BUDGET: u32 = 1000;

// The most bytes that a text may have.
const LONGEST: usize = 4096;

// The first place at which b stands.
fn place_of(part: &[u8], b: u8) -> Option<usize>
    ensures placed { result ≡ position (λ x. x == b) part.now }
{
    part.iter().position(|x| *x == b)
}

// What stands before the first b, and what stands after it.
#[tactic(auto, unfolding(crate::specs::Text::place_of))]
fn split_once(part: &[u8], b: u8) -> Option<(&[u8], &[u8])>
    ensures cut { MatchOption result (has b part.now ≡ false) (λ p. Cut b part.now p.0.now p.1.now) }
{
    let at = place_of(part, b)?;
    Some((&part[..at], &part[at + 1..]))
}

// The number that a part of digits spells.
#[tactic(auto, using(crate::proofs::Text::passed_small), unfolding(crate::specs::Text::all_digits, crate::specs::Text::value_of))]
fn digits(part: &[u8]) -> Option<u32>
    requires { length part.now ≤ 9 }
    ensures spelled { result ≡ then_some (all_digits part.now) (value_of part.now) }
{
    let mut v = 0;
    for &b in part {
        if !b.is_ascii_digit() {
            return None;
        }
        v = v * 10 + u32::from(b - b'0');
    }
    Some(v)
}

// A number of at most `most` digits.
#[tactic(auto, unfolding(crate::specs::Text::is_number, crate::specs::Text::is_counting))]
fn number(part: &[u8], most: usize) -> Option<u32>
    requires { most ≤ 9 }
    ensures number { result ≡ then_some (is_number most part.now) (value_of part.now) }
    ensures small { IfSome result (λ n. n < 10 ^ most) }
{
    match part {
        [] | [b'0', _, ..] => None,
        _ if most < part.len() => None,
        _ => digits(part),
    }
}

// A number of at most 7 digits, with "-" before it or not; but not "-0". A `u32` below 10^7 becomes an `i32` by `as`: std has no `From` for the two.
#[tactic(auto, unfolding(crate::specs::Text::is_coordinate, crate::specs::Text::coordinate_of))]
fn coordinate(part: &[u8]) -> Option<i32>
    ensures coordinate { result ≡ then_some (is_coordinate part.now) (coordinate_of part.now) }
{
    match part {
        [b'-', b'0'] => None,
        [b'-', rest @ ..] => Some(-(number(rest, 7)? as i32)),
        _ => Some(number(part, 7)? as i32),
    }
}

// "-", or a number of at most 9 digits.
#[tactic(auto, unfolding(crate::specs::Read::is_budget, crate::specs::Read::budget_of))]
fn budget(part: &[u8]) -> Option<u32>
    ensures budget { result ≡ then_some (is_budget part.now) (budget_of part.now) }
{
    match part {
        b"-" => Some(DASH_BUDGET),
        _ => number(part, 9),
    }
}

// A coordinate, one space, a coordinate.
#[tactic(auto, unfolding(crate::specs::Read::is_mark))]
fn mark(line: &[u8]) -> Option<(i32, i32)>
    ensures mark { result ≡ then_some (is_mark line.now) (x_of line.now, y_of line.now) }
{
    let (x, y) = split_once(line, b' ')?;
    Some((coordinate(x)?, coordinate(y)?))
}

// The line is good as line n, counted from 0.
#[tactic(auto, unfolding(crate::specs::Read::is_good_as))]
fn is_good(n: usize, line: &[u8]) -> bool
    ensures good { result ≡ is_good_as n line.now }
{
    if n == 0 {
        budget(line).is_some()
    } else {
        mark(line).is_some()
    }
}

// The first bad line, counted from 0. No `for` over `split`: it gives a last line without its line feed, which is bad, like any other, and one more
// after the last line feed; and what is counted, `n`, is the answer.
#[tactic(auto, using(crate::proofs::Lines::passing), unfolding(crate::specs::Read::rest_of))]
fn first_bad(text: &[u8]) -> Option<usize>
    ensures first { result ≡ then_some (ltb (first_bad text.now) (length text.now)) (first_bad text.now) }
{
    let mut n = 0;
    let mut rest = text;
    while !rest.is_empty() {
        let Some((line, after)) = split_once(rest, b'\n') else {
            return Some(n);
        };
        if !is_good(n, line) {
            return Some(n);
        }
        n += 1;
        rest = after;
    }
    None
}

// Stores the numbers of the marks of a good text. How many stand stored, `count`, is part of the answer, and the lent list is all the memory there is.
#[tactic(auto, using(crate::proofs::Marks::storing), unfolding(crate::specs::Read::rest_of, crate::specs::Read::numbers_to, crate::specs::Read::numbers_of))]
fn store(text: &[u8], numbers: &mut [i32]) -> Reading
    requires readable { Readable text.now }
    requires numbers_len { length numbers.old ≡ 2048 }
    ensures budget { result.budget ≡ budget_of (line_of text.now 0) }
    ensures count { result.count ≡ 2 * mark_count text.now }
    ensures stored { numbers.new ≡ numbers_of text.now ++ drop (2 * mark_count text.now) numbers.old }
{
    let (first, mut rest) = split_once(text, b'\n').unwrap();
    let budget = budget(first).unwrap();
    let mut count = 0;
    while let Some((line, after)) = split_once(rest, b'\n') {
        let (x, y) = mark(line).unwrap();
        numbers[count] = x;
        numbers[count + 1] = y;
        count += 2;
        rest = after;
    }
    Reading { budget, count }
}

// Reads a text. The lent list has room for every text that is read: 4,096 bytes hold at most 1,023 marks, 2,046 numbers.
#[tactic(auto, using(crate::proofs::Answer::answers))]
pub fn read(text: &[u8], numbers: &mut [i32]) -> Result<Reading, BadLine>
    requires { length numbers.old ≡ 2048 }
    ensures answered { result ≡ reading_of text.now }
    ensures stored { numbers.new ≡ numbers_after text.now numbers.old }
{
    if LONGEST < text.len() {
        return Err(BadLine(0));
    }
    if text.is_empty() {
        return Err(BadLine(1));
    }
    if let Some(n) = first_bad(text) {
        return Err(BadLine(n + 1));
    }
    Ok(store(text, numbers))
}
