// The certificate request. It never writes.
ghost use Rattle.std.specs.Prelude.{◌≡◌, ◌≤◌, ◌<◌, length, true};
ghost use Rattle.plane.specs.Marks.{count};
ghost use Rattle.pairs.specs.Pairs.{pair_count};
ghost use Rattle.plane.specs.Edge.{empty_edge};
ghost use Rattle.striking.specs.Status.{remaining, all_edges};
ghost use Rattle.certificates.specs.Certificate.{first_certificate};
ghost use Rattle.certificates.specs.Plate.{edges_of};
ghost use Rattle.certificates.specs.Rule9.{IsPair};
ghost use Rattle.skeleton.specs.Common.{common_byte, common};
ghost use Rattle.refusals.specs.Check.{found};
ghost use Rattle.skeleton.specs.Answers.{first_above, byte_row, pair_row, request_refusal, answer_with, answer_in, answer_of};

use super::search::check_search;
use certificates::certificate::{Apexes, Certificate, certificate_of};
use certificates::edges::Edges;
use certificates::rows::fill_rows;
use masks::table::LeftSets;
use pairs::pair_count;
use plane::hull::{Kind, kind_of};
use plane::marks::count;
use plane::plate::Marks;
use refusals::Refusal;
use rounds::mark_edges;
use sets::Set;

// What a pair of marks is, in a set of edges.
#[derive(Clone, Copy)]
pub enum Reply {
    // A hull edge.
    Hull,
    // A third mark lies on the segment.
    NotEmpty,
    // An inner edge, with its first certificate.
    Certified(Certificate),
    // An inner edge that has no certificate.
    Uncertified,
}

// The index of the first byte above 2.
fn first_above(st: &[u8]) -> Option<usize>
    ensures first { result ≡ found (first_above st.now) (length st.now) }
{
    st.iter().position(|&x| 2 < x)
}

// Row 6 of the table.
fn check_bytes(st: &[u8]) -> Result<(), Refusal>
    ensures answered { result ≡ byte_row st.now }
{
    match first_above(st) {
        Some(k) => Err(Refusal::ByteAboveTwo(k)),
        None => Ok(()),
    }
}

// Row 7 of the table.
fn check_pair(m: &[i32], a: usize, b: usize) -> Result<(), Refusal>
    ensures answered { result ≡ pair_row m.now a b }
{
    if a < b && b < count(m) {
        return Ok(());
    }
    Err(Refusal::NotAPair)
}

// Rows 1 to 7 of the table.
fn check_request(m: &[i32], st: &[u8], a: usize, b: usize) -> Result<(), Refusal>
    ensures answered { result ≡ request_refusal m.now st.now a b }
{
    check_search(m, st)?;
    check_bytes(st)?;
    check_pair(m, a, b)
}

// x, or 0 where y is 0: of status bytes, which the C interface lends.
fn common_byte(x: u8, y: u8) -> u8
    ensures kept { result ≡ common_byte x y }
{
    if y == 0 { 0 } else { x }
}

// Leaves in `own` the bytes that are not 0 in `st` either. An index, since over `own.iter_mut().zip(st)` the proof did not close.
fn keep_common(own: &mut [u8], st: &[u8])
    requires { length own.old ≡ length st.now }
    ensures kept { own.new ≡ common own.old st.now }
{
    for (i, &y) in st.iter().enumerate() {
        own[i] = common_byte(own[i], y);
    }
}

// The first certificate of the empty edge (a, b) among the empty edges whose bytes are not 0. It writes over `own`. Plate, bytes and pair stay
// parameters of this function and the next two: in a struct each clause would name them through it, as `self.now.marks.now`, and be twice as long.
fn certificate_with(m: &Marks<'_>, st: &[u8], own: &mut [u8], a: usize, b: usize) -> Option<Apexes>
    requires st_len { length st.now ≡ pair_count (count m.now) }
    requires own_len { length own.old ≡ pair_count (count m.now) }
    requires pair { IsPair m.now a b }
    requires empty { empty_edge m.now a b ≡ true }
    ensures first { result ≡ first_certificate m.now (edges_of m.now (remaining st.now)) a b }
{
    let mut sets = [Set::EMPTY; 16384];
    let mut rows = [Set::EMPTY; 128];
    mark_edges(m, own, &mut sets);
    keep_common(own, st);
    fill_rows(m, own, &mut rows);
    let lefts = LeftSets::new(m.list(), &sets);
    Edges::new(&lefts, st, &rows).first_certificate(a, b)
}

// The answer for an inner edge, found with bytes of its own to write over.
fn certify_inner(m: &Marks<'_>, st: &[u8], a: usize, b: usize) -> Reply
    requires st_len { length st.now ≡ pair_count (count m.now) }
    requires pair { IsPair m.now a b }
    requires empty { empty_edge m.now a b ≡ true }
    ensures answered { result ≡ answer_with a b (first_certificate m.now (edges_of m.now (remaining st.now)) a b) }
{
    let mut own = [0u8; 8128];
    match certificate_with(m, st, &mut own[..pair_count(m.count())], a, b) {
        None => Reply::Uncertified,
        Some(Apexes { r, s }) => Reply::Certified(certificate_of(a, b, r, s)),
    }
}

// The answer for a pair of an accepted request.
fn certify(m: &Marks<'_>, st: &[u8], a: usize, b: usize) -> Reply
    requires st_len { length st.now ≡ pair_count (count m.now) }
    requires pair { IsPair m.now a b }
    ensures answered { result ≡ answer_in m.now (edges_of m.now (remaining st.now)) a b }
{
    match kind_of(m, a, b) {
        Kind::Blocked => Reply::NotEmpty,
        Kind::Hull => Reply::Hull,
        Kind::Inner => certify_inner(m, st, a, b),
    }
}

// The certificate request for the pair (a, b). Answers every list, buffer and pair, and writes nothing.
pub fn request(m: &[i32], st: &[u8], a: usize, b: usize) -> Result<Reply, Refusal>
    ensures answered { result ≡ answer_of m.now st.now a b }
{
    check_request(m, st, a, b)?;
    Ok(certify(&Marks::of(m), st, a, b))
}
