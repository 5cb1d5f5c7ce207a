// The C interface: what include/skeleton.h declares, over `skeleton`.
//
// Each function but `skeleton_version` answers with a status number: 0, or the number of a refusal. What else it has to tell it writes at the
// start of a lent result buffer; what stands behind stays. A result buffer that is too short is refused with a number of its own, whatever else
// is wrong, and then nothing is written anywhere. specs/Driver.antt says every number.
#![tactic(auto)]

ghost use Rattle.std.specs.Prelude.{◌≡◌, ◌++◌, ◌≤◌, length, drop};
ghost use Rattle.refusals.specs.Check.{shown_by};
ghost use Rattle.skeleton.specs.Answers.{certificate_shown};
ghost use Rattle.driver.specs.Driver.{version, told, returned, written};
ghost use Rattle.driver.specs.Driver.{outcome_numbers, search_reply, search_status};
ghost use Rattle.driver.specs.Driver.{reply_first, certificate_numbers, certificate_reply};
ghost use Rattle.driver.specs.Driver.{is_pair, pair_reply, longest_budget_reply};

use certificates::certificate::Certificate;
use pairs::{pair_count, pair_number};
use refusals::Refusal;
use skeleton::request::{Reply, request};
use skeleton::search::{Outcome, search};

const VERSION: u32 = 1;

// ---- numbers in place of enums, and zeros in place of an `Option`, here and below: the C interface. A `usize` becomes a `u64` by `as`: std has no
// `From` for the two.

// Status numbers beside those of 01's table: the result buffer is too short; two numbers that are no pair of marks.
const SHORT: u32 = 100;

const NO_PAIR: u32 = 101;

// How a search ended.
const DONE: u64 = 0;

const PAUSED: u64 = 1;

// What a pair is.
const HULL: u64 = 0;

const NOT_EMPTY: u64 = 1;

const CERTIFIED: u64 = 2;

const NONE: u64 = 3;

// ---- the result buffer

// Writes the numbers at the start of the result buffer.
fn put(res: &mut [u64], numbers: &[u64])
    requires { length numbers.now ≤ length res.old }
    ensures put { res.new ≡ numbers.now ++ drop (length numbers.now) res.old }
{
    res[..numbers.len()].copy_from_slice(numbers);
}

// Tells a reply: the status number, and the numbers for the result buffer.
#[tactic(auto, unfolding(crate::specs::Driver::returned, crate::specs::Driver::written))]
fn tell(res: &mut [u64], number: u32, numbers: &[u64]) -> u32
    ensures returned { result ≡ returned res.old (told number numbers.now) }
    ensures written { res.new ≡ written res.old (told number numbers.now) }
{
    if res.len() < numbers.len() {
        return SHORT;
    }
    put(res, numbers);
    number
}

// The status number of an answer: that of its refusal, or 0.
#[tactic(auto, unfolding(refusals::specs::Check::shown_by))]
fn status_number<T>(answer: &Result<T, Refusal>) -> u32
    ensures number { result ≡ (shown_by answer.now).number }
{
    match answer {
        Ok(_) => 0,
        Err(f) => u32::from(f.number()),
    }
}

// ---- the search

// What a search tells beside its status number.
#[tactic(auto, unfolding(crate::specs::Driver::outcome_numbers))]
fn outcome_numbers(answer: Result<Outcome, Refusal>) -> [u64; 2]
    ensures numbers { result ≡ outcome_numbers answer }
{
    match answer {
        Ok(Outcome::Done(e)) => [DONE, u64::from(e)],
        Ok(Outcome::Paused(e)) => [PAUSED, u64::from(e)],
        Err(f) => [f.detail() as u64, 0],
    }
}

// Searches the plate within the budget and writes the status of each pair.
#[unsafe(no_mangle)]
pub extern "C" fn skeleton_search(
    marks: &[i32],
    status: &mut [u8],
    budget: u32,
    res: &mut [u64],
) -> u32
    ensures returned { result ≡ returned res.old (search_reply marks.now status.old budget) }
    ensures written { res.new ≡ written res.old (search_reply marks.now status.old budget) }
    ensures status { status.new ≡ search_status res.old marks.now status.old budget }
{
    if res.len() < 2 {
        return SHORT;
    }
    let answer = search(marks, status, budget);
    tell(res, status_number(&answer), &outcome_numbers(answer))
}

// ---- the certificate request

// What the pair is, or a refusal's detail.
#[tactic(auto, unfolding(crate::specs::Driver::reply_first))]
fn reply_first(answer: Result<Reply, Refusal>) -> u64
    ensures first { result ≡ reply_first answer }
{
    match answer {
        Ok(Reply::Hull) => HULL,
        Ok(Reply::NotEmpty) => NOT_EMPTY,
        Ok(Reply::Certified(_)) => CERTIFIED,
        Ok(Reply::Uncertified) => NONE,
        Err(f) => f.detail() as u64,
    }
}

// The certificate of a pair that has one, or zeros.
#[tactic(auto, unfolding(skeleton::specs::Answers::certificate_shown, skeleton::specs::Answers::reply_certificate))]
fn certificate_shown(answer: Result<Reply, Refusal>) -> Certificate
    ensures certificate { result ≡ certificate_shown answer }
{
    match answer {
        Ok(Reply::Certified(c)) => c,
        Ok(Reply::Hull | Reply::NotEmpty | Reply::Uncertified) | Err(_) => Certificate {
            r: 0,
            s: 0,
            sides: [0; 4],
        },
    }
}

// The first number of a reply, and those of the certificate.
#[tactic(auto, unfolding(crate::specs::Driver::certificate_numbers))]
fn certificate_numbers(first: u64, c: Certificate) -> [u64; 7]
    ensures numbers { result ≡ certificate_numbers first c }
{
    let [pr, qr, ps, qs] = c.sides;
    [
        first, c.r as u64, c.s as u64, pr as u64, qr as u64, ps as u64, qs as u64,
    ]
}

// The certificate request for the pair (a, b), in the set of the empty edges whose byte is not 0.
#[unsafe(no_mangle)]
pub extern "C" fn skeleton_certificate(
    marks: &[i32],
    status: &[u8],
    a: usize,
    b: usize,
    res: &mut [u64],
) -> u32
    ensures returned { result ≡ returned res.old (certificate_reply marks.now status.now a b) }
    ensures written { res.new ≡ written res.old (certificate_reply marks.now status.now a b) }
{
    let answer = request(marks, status, a, b);
    let numbers = certificate_numbers(reply_first(answer), certificate_shown(answer));
    tell(res, status_number(&answer), &numbers)
}

// ---- numbers alone

// Whether (a, b) is a pair of at most 128 marks.
fn is_pair(a: usize, b: usize) -> bool
    ensures pair { result ≡ is_pair a b }
{
    a < b && b < 128
}

// The number of the pair (a, b).
#[unsafe(no_mangle)]
pub extern "C" fn skeleton_pair(a: usize, b: usize, res: &mut [u64]) -> u32
    ensures returned { result ≡ returned res.old (pair_reply a b) }
    ensures written { res.new ≡ written res.old (pair_reply a b) }
{
    if is_pair(a, b) {
        return tell(res, 0, &[pair_number(a, b) as u64]);
    }
    tell(res, NO_PAIR, &[0])
}

// The longest budget that a plate of n marks can need.
#[unsafe(no_mangle)]
pub extern "C" fn skeleton_longest_budget(n: usize, res: &mut [u64]) -> u32
    ensures returned { result ≡ returned res.old (longest_budget_reply n) }
    ensures written { res.new ≡ written res.old (longest_budget_reply n) }
{
    if 128 < n {
        let refusal = Refusal::TooManyMarks(n);
        return tell(res, u32::from(refusal.number()), &[refusal.detail() as u64]);
    }
    let k = pair_count(n) as u64;
    tell(res, 0, &[k * (k + 1) / 2])
}

// The version of the interface that skeleton.h declares.
#[unsafe(no_mangle)]
pub extern "C" fn skeleton_version() -> u32
    ensures version { result ≡ version }
{
    VERSION
}
