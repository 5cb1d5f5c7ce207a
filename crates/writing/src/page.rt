// A page: a lent buffer that is filled from its start.
//
// A clause sees what the page comes to, `sheet` of specs/Sheet.antt: what is written, and what stands behind it. Each method puts one text
// behind what is written, and asks that there be room for it. That is a clause and no field: it is of the page and the text together.
// A `usize` becomes a `u64`, and a digit a byte, by `as`: std has no `From` for these.
ghost use Rattle.std.specs.Prelude.{◌≤◌, length};

use pairs::{Pair, Pairs};

const SPACE: u8 = b' ';

const LINE_FEED: u8 = b'\n';

#[derive(Drop)]
pub(crate) struct Page<'a> {
    out: &'a mut [u8],
    at: usize,
    ghost within: { at ≤ length out.now },
}

#[tactic(auto, using(crate::proofs::Sheets::puts))]
impl<'a> Page<'a> {
    ghost use Rattle.std.specs.Prelude.{◌≡◌, ◌≤◌, [], ◌∷◌, length};
    ghost use Rattle.pairs.specs.Pairs.{pair_count};
    ghost use Rattle.writing.specs.Digits.{digits};
    ghost use Rattle.writing.specs.Listing.{line, outcome_text, refused_text, pair_text, pairs_text};
    ghost use Rattle.writing.specs.Sheet.{blank, put, Fits, sheet};

    // A page on which nothing is written.
    #[tactic(auto, unfolding(crate::specs::Sheet::put, crate::specs::Sheet::sheet))]
    pub(crate) fn new(out: &'a mut [u8]) -> Page<'a>
        ensures blank { sheet result ≡ blank out.entry.ghost_name out.old }
    {
        Page { out, at: 0 }
    }

    // How many bytes are written.
    #[tactic(auto, unfolding(crate::specs::Sheet::put, crate::specs::Sheet::sheet))]
    pub(crate) fn len(&self) -> usize
        ensures counted { result ≡ length (sheet self.now).written }
    {
        self.at
    }

    // ---- pieces

    #[tactic(auto, unfolding(crate::specs::Sheet::put, crate::specs::Sheet::sheet))]
    fn bytes(&mut self, word: &[u8])
        requires { Fits (sheet self.old) word.now }
        ensures put { sheet self.new ≡ put (sheet self.old) word.now }
    {
        let end = self.at + word.len();
        self.out[self.at..end].copy_from_slice(word);
        self.at = end;
    }

    fn byte(&mut self, byte: u8)
        requires { Fits (sheet self.old) (byte ∷ []) }
        ensures put { sheet self.new ≡ put (sheet self.old) (byte ∷ []) }
    {
        self.bytes(&[byte]);
    }

    // The decimal digits of n: those of its tenth come first. Not by `write!`, here and in the lines below: the edits last_digit_twice and
    // ten_as_one_digit are about this way.
    #[tactic(auto, using(crate::proofs::Sheets::puts, crate::proofs::Digits::spelt))]
    fn digits(&mut self, n: u64)
        requires { Fits (sheet self.old) (digits n) }
        ensures put { sheet self.new ≡ put (sheet self.old) (digits n) }
    {
        if n < 10 {
            self.byte(b'0' + n as u8);
        } else {
            self.digits(n / 10);
            self.byte(b'0' + (n % 10) as u8);
        }
    }

    // ---- lines

    // "refused", the number and the detail.
    pub(crate) fn refusal(&mut self, number: u64, detail: u64)
        requires { Fits (sheet self.old) (refused_text number detail) }
        ensures put { sheet self.new ≡ put (sheet self.old) (refused_text number detail) }
    {
        self.bytes(b"refused");
        self.byte(SPACE);
        self.digits(number);
        self.byte(SPACE);
        self.digits(detail);
        self.byte(LINE_FEED);
    }

    // A word and the examinations.
    fn outcome_line(&mut self, word: &[u8], examinations: u64)
        requires { Fits (sheet self.old) (line (word.now ∷ digits examinations ∷ [])) }
        ensures put { sheet self.new ≡ put (sheet self.old) (line (word.now ∷ digits examinations ∷ [])) }
    {
        self.bytes(word);
        self.byte(SPACE);
        self.digits(examinations);
        self.byte(LINE_FEED);
    }

    // The listing's first line.
    pub(crate) fn outcome(&mut self, done: bool, examinations: u64)
        requires { Fits (sheet self.old) (outcome_text done examinations) }
        ensures put { sheet self.new ≡ put (sheet self.old) (outcome_text done examinations) }
    {
        if done {
            self.outcome_line(b"done", examinations);
        } else {
            self.outcome_line(b"paused", examinations);
        }
    }

    // A pair's ends and its status word.
    fn pair_line(&mut self, p: Pair, word: &[u8])
        requires { Fits (sheet self.old) (line (digits p.a ∷ digits p.b ∷ word.now ∷ [])) }
        ensures put { sheet self.new ≡ put (sheet self.old) (line (digits p.a ∷ digits p.b ∷ word.now ∷ [])) }
    {
        self.digits(p.a as u64);
        self.byte(SPACE);
        self.digits(p.b as u64);
        self.byte(SPACE);
        self.bytes(word);
        self.byte(LINE_FEED);
    }

    // The line of a pair with this status byte, one of those that the C interface lends: none unless it is possible or certain.
    fn pair(&mut self, p: Pair, status: u8)
        requires { Fits (sheet self.old) (pair_text p.a p.b status) }
        ensures put { sheet self.new ≡ put (sheet self.old) (pair_text p.a p.b status) }
    {
        match status {
            1 => self.pair_line(p, b"possible"),
            2 => self.pair_line(p, b"certain"),
            _ => {}
        }
    }

    // The lines of all pairs of n marks, in pair order.
    pub(crate) fn pairs(&mut self, st: &[u8], n: usize)
        requires n_bound { n ≤ 128 }
        requires st_len { length st.now ≡ pair_count n }
        requires room { Fits (sheet self.old) (pairs_text st.now n) }
        ensures put { sheet self.new ≡ put (sheet self.old) (pairs_text st.now n) }
    {
        for (p, &status) in Pairs::of(n).zip(st) {
            self.pair(p, status);
        }
    }
}
