// The search of an accepted plate, round by round, over the table of crate masks and the rows of crate certificates.
//
// What remains stands in the status bytes, and beside them in the rows of neighbours; `Ready` of specs/Run.antt says that they agree. The
// contracts are equations with the search of crate striking, of the plate as certificates/specs/Plate.antt makes it a system of edges.
#![tactic(auto)]

pub mod search;

ghost use Rattle.std.specs.Prelude.{◌≡◌, length, replicate};
ghost use Rattle.plane.specs.Marks.{count};
ghost use Rattle.pairs.specs.Pairs.{pair_count, pair_number};
ghost use Rattle.striking.specs.Status.{remaining, all_edges, status_byte, statuses};
ghost use Rattle.masks.specs.Table.{Table, Filled};
ghost use Rattle.certificates.specs.Plate.{plate};
ghost use Rattle.certificates.specs.Rule9.{IsPair};
ghost use Rattle.rounds.specs.Run.{edge_byte, Ready};

use certificates::edges::Edges;
use masks::table::{LeftSets, store_pair};
use pairs::{Pair, Pairs, pair_number};
use plane::hull::Kind;
use plane::marks::count;
use plane::plate::Marks;
use sets::Set;

// The byte with which a pair starts: 1 for each empty edge. A status is a byte and no enum here and below: the C interface lends the bytes.
#[tactic(auto, unfolding(crate::specs::Run::edge_byte))]
fn edge_byte(k: Kind) -> u8
    ensures byte { result ≡ edge_byte k }
{
    match k {
        Kind::Blocked => 0,
        Kind::Hull | Kind::Inner => 1,
    }
}

// Writes 1 for each empty edge and 0 for any other pair, and fills the table. How long the bytes are is a clause, here and above: they are lent
// through the C interface.
pub fn mark_edges(m: &Marks<'_>, st: &mut [u8], t: &mut [Set])
    requires st_len { length st.old ≡ pair_count (count m.now) }
    requires filled_before { Filled m.now t.old 0 }
    ensures edges { st.new ≡ all_edges (plate m.now) }
    ensures filled { Table m.now t.new }
{
    for p in Pairs::of(m.count()) {
        st[pair_number(p.a, p.b)] = edge_byte(store_pair(m, t, p.a, p.b));
    }
}

// ---- the end: the statuses. Functions of what is lent, which ask for no more; the methods of `Search` call them.

// The status byte of a pair.
fn status_byte(lefts: &LeftSets<'_>, st: &[u8], rows: &[Set], p: Pair) -> u8
    requires ready { Ready lefts.now st.now rows.now }
    requires pair { IsPair lefts.now p.a p.b }
    ensures status { result ≡ status_byte (plate lefts.now) (remaining st.now) (pair_number p.a p.b) }
{
    if st[pair_number(p.a, p.b)] == 0 {
        return 0;
    }
    if Edges::new(lefts, st, rows).is_crossed(p.a, p.b) {
        return 1;
    }
    2
}

// Writes each pair's status over what remains.
pub fn show(lefts: &LeftSets<'_>, st: &mut [u8], rows: &[Set])
    requires { Ready lefts.now st.old rows.now }
    ensures shown { st.new ≡ statuses (plate lefts.now) (remaining st.old) }
{
    for p in Pairs::of(count(lefts.list())) {
        st[pair_number(p.a, p.b)] = status_byte(lefts, st, rows, p);
    }
}

// What answer 8 leaves: 255 throughout.
pub fn blank(st: &mut [u8])
    ensures blank { st.new ≡ replicate (length st.old) 255 }
{
    st.fill(255);
}
