// Which marks each mark has an edge of the set to: a set of marks for each of 128 marks. The set of edges is that of the bytes that are not 0.
// `Plate`, `Rows`, `Clean` and the length of the bytes are clauses here: what is lent is not yet, or while it is written no longer, a set of edges as
// `Edges` holds it, and `part` takes the bare list that it always took.
ghost use Rattle.std.specs.Prelude.{◌≡◌, true, ◌+◌, ◌<◌, length, set, replicate};
ghost use Rattle.plane.specs.Marks.{IsMark, Plate, count};
ghost use Rattle.pairs.specs.Pairs.{pair_count, pair_number};
ghost use Rattle.striking.specs.Status.{remaining};
ghost use Rattle.masks.specs.Table.{empty_set};
ghost use Rattle.certificates.specs.Plate.{edges_of};
ghost use Rattle.certificates.specs.Rows.{Rows, below, Clean};

use pairs::Pairs;
use plane::plate::Marks;
use sets::Set;

// The rows without the edge (a, b), as its byte becomes 0.
pub fn part(m: &[i32], st: &[u8], d: &mut [Set], a: usize, b: usize)
    requires plate { Plate m.now }
    requires rows { Rows m.now (edges_of m.now (remaining st.now)) d.old }
    requires a_lt_b { a < b }
    requires b_is_mark { IsMark m.now b }
    ensures parted { Rows m.now (edges_of m.now (remaining (set st.now (pair_number a b) 0))) d.new }
{
    d[a] = d[a].without(b);
    d[b] = d[b].without(a);
}

// The rows of the pairs up to the edge (a, b), from those of the pairs before it.
fn join(m: &Marks<'_>, st: &[u8], d: &mut [Set], a: usize, b: usize)
    requires plate { Plate m.now }
    requires clean { Clean m.now st.now }
    requires rows { Rows m.now (edges_of m.now (below (pair_number a b) (remaining st.now))) d.old }
    requires a_lt_b { a < b }
    requires b_is_mark { IsMark m.now b }
    requires remains { remaining st.now (pair_number a b) ≡ true }
    ensures joined { Rows m.now (edges_of m.now (below (pair_number a b + 1) (remaining st.now))) d.new }
{
    d[a] = d[a].with(b);
    d[b] = d[b].with(a);
}

// All rows, from rows that are empty.
pub fn fill_rows(m: &Marks<'_>, st: &[u8], d: &mut [Set])
    requires st_len { length st.now ≡ pair_count (count m.now) }
    requires clean { Clean m.now st.now }
    requires d_value { d.old ≡ replicate 128 empty_set }
    ensures filled { Rows m.now (edges_of m.now (remaining st.now)) d.new }
{
    for (p, &byte) in Pairs::of(m.count()).zip(st) {
        if byte != 0 {
            join(m, st, d, p.a, p.b);
        }
    }
}
