// The worked plates of 01 that are proved: one table, and a program that runs the search over it.
#![tactic(auto)]

ghost use Rattle.std.specs.Prelude.{◌≡◌, ◌<◌, ◌≤◌, length, get_or};
ghost use Rattle.plates.specs.Plates.{table};

use pairs::pair_count;
use skeleton::search::search;
use std::io;

// A row has 24 numbers: how many marks, the budget, 1 for done and 0 for paused, the examinations, the marks with 10 added to each
// coordinate, the statuses. Places that a plate does not need say nothing.
// Numbers and no rows of a struct: they are `table` of specs/Plates.antt, number by number, over which the one statement `all_right` computes.
const TABLE: [u32; 312] = [
    // none
    0, 1000, 1, 0, 10, 10, 10, 10, 10, 10, 10, 10, 10, 10, 0, 0, 0, 0, 0, 0, 0, 0, 0, 0,
    // one mark
    1, 1000, 1, 0, 17, 17, 10, 10, 10, 10, 10, 10, 10, 10, 0, 0, 0, 0, 0, 0, 0, 0, 0, 0,
    // two marks
    2, 1000, 1, 0, 10, 10, 15, 10, 10, 10, 10, 10, 10, 10, 2, 0, 0, 0, 0, 0, 0, 0, 0, 0,
    // three on a line
    3, 1000, 1, 0, 10, 10, 11, 10, 12, 10, 10, 10, 10, 10, 2, 0, 2, 0, 0, 0, 0, 0, 0, 0,
    // the square
    4, 1000, 1, 2, 10, 10, 12, 10, 12, 12, 10, 12, 10, 10, 2, 1, 2, 2, 1, 2, 0, 0, 0, 0,
    // the kite
    4, 1000, 1, 3, 7, 10, 10, 9, 13, 10, 10, 11, 10, 10, 2, 0, 2, 2, 2, 2, 0, 0, 0, 0,
    // the kite, budget 0
    4, 0, 0, 0, 7, 10, 10, 9, 13, 10, 10, 11, 10, 10, 2, 1, 2, 2, 1, 2, 0, 0, 0, 0,
    // the kite, budget 2
    4, 2, 0, 2, 7, 10, 10, 9, 13, 10, 10, 11, 10, 10, 2, 0, 2, 2, 2, 2, 0, 0, 0, 0,
    // a mark inside
    4, 1000, 1, 3, 10, 10, 16, 10, 10, 16, 11, 11, 10, 10, 2, 2, 2, 2, 2, 2, 0, 0, 0, 0,
    // a mark on a side
    4, 1000, 1, 1, 10, 10, 14, 10, 10, 14, 12, 10, 10, 10, 0, 2, 2, 2, 2, 2, 0, 0, 0, 0,
    // a mark in the centre
    5, 1000, 1, 4, 10, 10, 14, 10, 14, 14, 10, 14, 12, 12, 2, 0, 2, 2, 0, 2, 2, 2, 2, 2,
    // five marks
    5, 1000, 1, 10, 10, 10, 11, 8, 18, 7, 19, 13, 11, 12, 2, 0, 2, 0, 0, 2, 2, 2, 2, 2,
    // five marks, budget 5
    5, 5, 0, 5, 10, 10, 11, 8, 18, 7, 19, 13, 11, 12, 2, 1, 2, 0, 0, 2, 2, 1, 2, 2,
];

#[tactic(auto, unfolding(crate::specs::Plates::table))]
fn entry(i: usize) -> u32
    requires { i < 312 }
    ensures entry { result ≡ get_or table i 0 }
{
    TABLE[i]
}

fn coordinate(i: usize) -> i32
    requires { i < 312 }
{
    // From a `u32` of at most 20: std has no `From` for the two.
    entry(i).min(20) as i32 - 10
}

fn marks_of(row: usize) -> [i32; 10]
    requires { row < 289 }
{
    std::array::from_fn(|i| coordinate(row + 4 + i))
}

fn show_bytes(rt: &impl Print, st: &[u8]) -> io::Result<()> {
    for x in st {
        print!(rt; " {x}")?;
    }
    println!(rt; "")
}

// Searches, and prints the outcome and the statuses.
fn show_search(rt: &impl Print, m: &[i32], st: &mut [u8], budget: u32) -> io::Result<()> {
    match search(m, st, budget) {
        Ok(outcome) => print!(rt; "{outcome}")?,
        Err(refusal) => print!(rt; "{refusal}")?,
    }
    show_bytes(rt, st)
}

// The same, of the plate whose row starts at `row`.
fn show_plate(rt: &impl Print, row: usize) -> io::Result<()>
    requires { row < 289 }
{
    // From a `u32` of at most 5: std has no `From` for the two.
    let n = entry(row).min(5) as usize;
    let budget = entry(row + 1);
    let marks = marks_of(row);
    let mut status = [7u8; 10];
    // No plate of the table has more than 10 pairs.
    let p = pair_count(n).min(10);
    show_search(rt, &marks[..n * 2], &mut status[..p], budget)
}

// A list of one number, which no text can give: answer 1, and the lent byte stays.
fn show_odd(rt: &impl Print) -> io::Result<()> {
    let one = [5i32; 1];
    let mut status = [7u8; 1];
    show_search(rt, &one, &mut status, 1000)
}

fn main(rt: HostRuntime) -> io::Result<()> {
    for k in 0..13 {
        show_plate(&rt, k * 24)?;
    }
    show_odd(&rt)
}
