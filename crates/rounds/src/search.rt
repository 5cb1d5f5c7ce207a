// The search as it goes on.
//
// A clause sees what remains, `remains`, and where, `place`: the marks, and the loan of the status bytes. That the rows agree with the bytes,
// `IsReady`, is a clause and no field: in a struct that holds a `&mut` a ghost field has to be true at each write through it, and an edge that is
// struck leaves a byte and two rows. `IsPair` is a clause too: it is of the marks and the pair together, and a `Pair` alone may be any two numbers.
ghost use Rattle.std.specs.Prelude.{◌≡◌};

use super::{blank, show};
use certificates::edges::Edges;
use certificates::rows::part;
use masks::table::LeftSets;
use pairs::{Pair, Pairs, pair_number};
use plane::marks::count;
use sets::Set;

// How far a search is.
#[derive(Clone, Copy, Debug, PartialEq, Eq)]
pub enum Halt {
    Going,
    Finished,
    Spent,
    Stuck(usize),
}

// How far it is, whether this round has struck something, and the examinations made. What remains is in the status bytes.
#[derive(Clone, Copy, Debug, PartialEq, Eq)]
pub struct Run {
    pub halt: Halt,
    pub struck: bool,
    pub exams: u32,
}

#[derive(Drop)]
pub struct Search<'a> {
    lefts: &'a LeftSets<'a>,
    statuses: &'a mut [u8],
    rows: &'a mut [Set],
}

impl<'a> Search<'a> {
    ghost use Rattle.std.specs.Prelude.{◌≡◌, true, false, ◌+◌, ◌^◌, ◌<◌, length, set, replicate};
    ghost use Rattle.plane.specs.Marks.{count};
    ghost use Rattle.plane.specs.Edge.{empty_edge};
    ghost use Rattle.plane.specs.Hull.{inner_edge};
    ghost use Rattle.pairs.specs.Pairs.{pair_count, pair_number};
    ghost use Rattle.striking.specs.System.{due};
    ghost use Rattle.striking.specs.Status.{remaining, statuses};
    ghost use Rattle.striking.specs.Search.{going, examine, visit, visits, search_from};
    ghost use Rattle.certificates.specs.Plate.{plate};
    ghost use Rattle.certificates.specs.Rule9.{IsPair};
    ghost use Rattle.rounds.specs.Run.{as_state, as_final, IsGoing, Ready};
    ghost use Rattle.rounds.specs.Search.{place, marks, remains, near, IsReady};

    pub fn of(lefts: &'a LeftSets<'a>, statuses: &'a mut [u8], rows: &'a mut [Set]) -> Search<'a>
        requires { Ready lefts.now statuses.old rows.old }
        ensures remains { remains result ≡ statuses.old }
        ensures near { near result ≡ rows.old }
        ensures place { place result ≡ record { marks = lefts.now; loan = statuses.entry.ghost_name; rows_loan = rows.entry.ghost_name } }
        ensures ready { IsReady result }
    {
        Search {
            lefts,
            statuses,
            rows,
        }
    }

    // How many marks there are.
    fn count(&self) -> usize
        ensures counted { result ≡ count (marks self.now) }
    {
        count(self.lefts.list())
    }

    // The edges that remain, to be read.
    fn edges(&self) -> Edges<'_>
        requires { IsReady self.now }
        ensures { result ≡ record { marks = marks self.now; statuses = remains self.now } }
    {
        Edges::new(self.lefts, self.statuses, self.rows)
    }

    // Whether the pair remains.
    fn remains(&self, p: Pair) -> bool
        requires ready { IsReady self.now }
        requires pair { IsPair (marks self.now) p.a p.b }
        ensures remains { result ≡ remaining (remains self.now) (pair_number p.a p.b) }
    {
        self.statuses[pair_number(p.a, p.b)] != 0
    }

    // ---- a round

    // Whether the empty edge is an inner edge.
    fn is_inner(&self, p: Pair) -> bool
        requires ready { IsReady self.now }
        requires pair { IsPair (marks self.now) p.a p.b }
        requires empty { empty_edge (marks self.now) p.a p.b ≡ true }
        ensures inner { result ≡ inner_edge (marks self.now) p.a p.b }
    {
        !self.lefts.left_set(p.a, p.b).is_empty() && !self.lefts.left_set(p.b, p.a).is_empty()
    }

    // Whether the pair has to be examined.
    fn is_due(&self, p: Pair) -> bool
        requires ready { IsReady self.now }
        requires pair { IsPair (marks self.now) p.a p.b }
        ensures due { result ≡ due (plate (marks self.now)) (remaining (remains self.now)) (pair_number p.a p.b) }
    {
        self.remains(p) && self.is_inner(p)
    }

    // Strikes the pair.
    fn strike(&mut self, p: Pair)
        requires ready_before { IsReady self.old }
        requires pair { IsPair (marks self.old) p.a p.b }
        ensures struck { remains self.new ≡ set (remains self.old) (pair_number p.a p.b) 0 }
        ensures place { place self.new ≡ place self.old }
        ensures ready { IsReady self.new }
    {
        let list = self.lefts.list();
        let statuses = &mut *self.statuses;
        part(list, statuses, self.rows, p.a, p.b);
        statuses[pair_number(p.a, p.b)] = 0;
    }

    // Examines an edge, while the search is going.
    fn examine(&mut self, p: Pair, run: Run) -> Run
        requires going { IsGoing run }
        requires ready_before { IsReady self.old }
        requires pair { IsPair (marks self.old) p.a p.b }
        requires empty { empty_edge (marks self.old) p.a p.b ≡ true }
        requires exams_bound { run.exams + 1 < 2 ^ 32 }
        ensures examined { as_state result (remains self.new) ≡
            examine (plate (marks self.old)) run.struck run.exams (remains self.old) (pair_number p.a p.b) }
        ensures place { place self.new ≡ place self.old }
        ensures ready { IsReady self.new }
    {
        let exams = run.exams + 1;
        let edges = self.edges();
        if edges.first_certificate(p.a, p.b).is_some() {
            return Run { exams, ..run };
        }
        if !edges.is_crossed(p.a, p.b) {
            return Run {
                halt: Halt::Stuck(pair_number(p.a, p.b)),
                exams,
                ..run
            };
        }
        self.strike(p);
        Run {
            struck: true,
            exams,
            ..run
        }
    }

    // The turn of a pair.
    fn visit(&mut self, budget: u32, p: Pair, run: Run) -> Run
        requires ready_before { IsReady self.old }
        requires pair { IsPair (marks self.old) p.a p.b }
        ensures visited { as_state result (remains self.new) ≡
            visit (plate (marks self.old)) budget (pair_number p.a p.b) (as_state run (remains self.old)) }
        ensures place { place self.new ≡ place self.old }
        ensures ready { IsReady self.new }
    {
        let Halt::Going = run.halt else {
            return run;
        };
        if !self.is_due(p) {
            return run;
        }
        if run.exams < budget {
            return self.examine(p, run);
        }
        Run {
            halt: Halt::Spent,
            ..run
        }
    }

    // The turns of all pairs, in pair order.
    fn round(&mut self, budget: u32, exams: u32) -> Run
        requires { IsReady self.old }
        ensures visited { as_state result (remains self.new) ≡
            visits (plate (marks self.old)) budget (pair_count (count (marks self.old))) (going false exams (remains self.old)) }
        ensures place { place self.new ≡ place self.old }
        ensures ready { IsReady self.new }
    {
        let mut run = Run {
            halt: Halt::Going,
            struck: false,
            exams,
        };
        for p in Pairs::of(self.count()) {
            run = self.visit(budget, p, run);
        }
        run
    }

    // ---- the rounds

    // Rounds, until one strikes nothing, the budget is spent, or an edge is stuck.
    pub fn rounds(&mut self, budget: u32) -> Run
        requires { IsReady self.old }
        ensures searched { as_final result (remains self.new) ≡ search_from (plate (marks self.old)) budget 0 (remains self.old) }
        ensures place { place self.new ≡ place self.old }
        ensures ready { IsReady self.new }
    {
        let mut exams = 0;
        // How many rounds there are is not known before: no index is counted, and no `for` has the end.
        loop {
            let run = self.round(budget, exams);
            let Halt::Going = run.halt else {
                return run;
            };
            if !run.struck {
                return Run {
                    halt: Halt::Finished,
                    ..run
                };
            }
            exams = run.exams;
        }
    }

    // ---- the end

    // Writes each pair's status over what remains.
    pub fn show(&mut self)
        requires { IsReady self.old }
        ensures shown { remains self.new ≡ statuses (plate (marks self.old)) (remaining (remains self.old)) }
        ensures place { place self.new ≡ place self.old }
        ensures near { near self.new ≡ near self.old }
    {
        let lefts = self.lefts;
        let rows = &mut *self.rows;
        show(lefts, self.statuses, rows);
    }

    // What answer 8 leaves: 255 throughout.
    pub fn blank(&mut self)
        ensures blank { remains self.new ≡ replicate (length (remains self.old)) 255 }
        ensures place { place self.new ≡ place self.old }
        ensures near { near self.new ≡ near self.old }
    {
        blank(self.statuses);
    }
}
