//! What pieces add at the places between the centres of a pixel and its right neighbour.

ghost use Rattle.std.specs.Prelude.{◌≡◌, ℕ, ◌+◌, ◌^◌, ◌≤◌, ◌<◌, pos, ◌+ℤ◌, IsTrue, ◌↔◌};
ghost use Rattle.fx_rows.specs.inner.Sums.{is_among, is_named, value_at, Marks};
ghost use Rattle.fx_dropout.specs.Dropout.{IsCount};
ghost use Rattle.fx_dropout.specs.inner.Places.{count_at, mark_at, AreClear, AreCountsWithin, ArePlaces, ArePlacesNamed, IsCoveredIn, IsOfPlaces, IsRunOfPlaces};

use fx_rows::{OnRow, RowPart, Run};

/// How many places are looked at: the pixel's centre, and the 127 between the two centres.
const PLACES: usize = 128;

/// How many of them lie in each half of the segment, without its ends and its middle.
const HALF: usize = 63;

/// What pieces add at each place to the winding number, and whether it is on one of them.
#[derive(Drop)]
pub(crate) struct Places {
    counts: [i32; PLACES],
    marks: [bool; PLACES],
}

impl Places {
    /// Places to which no piece was added.
    #[inline(always)]
    pub(crate) fn new() -> Places
        ensures { AreClear result }
    {
        Places {
            counts: [0; PLACES],
            marks: [false; PLACES],
        }
    }

    /// Adds a run's value to the counts of its places.
    pub(crate) fn add_run(&mut self, run: Option<Run>)
        requires run { IsRunOfPlaces run }
        requires small { AreCountsWithin (2 ^ 20) self.old }
        ensures counts { (n : ℕ) → n < 128 → count_at self.new n ≡ count_at self.old n +ℤ value_at run (pos n) }
        ensures marks { (n : ℕ) → mark_at self.new n ≡ mark_at self.old n }
    {
        if let Some(run) = run {
            // The value was added to those before n.
            'places: for n in run.first as usize..run.last as usize + 1 {
                self.counts[n] += run.value;
            }
        }
    }

    /// Marks the places from the first to the last.
    fn mark(&mut self, first: i32, last: i32)
        requires { ArePlaces first last }
        ensures counts { (n : ℕ) → count_at self.new n ≡ count_at self.old n }
        ensures marks { (n : ℕ) → n < 128 → Marks (is_among first last (pos n)) (mark_at self.old n) (mark_at self.new n) }
    {
        // Those before n are marked.
        'places: for n in first as usize..last as usize + 1 {
            self.marks[n] = true;
        }
    }

    /// Marks the places that are named.
    fn mark_on(&mut self, on: OnRow)
        requires { ArePlacesNamed on }
        ensures counts { (n : ℕ) → count_at self.new n ≡ count_at self.old n }
        ensures marks { (n : ℕ) → n < 128 → Marks (is_named on (pos n)) (mark_at self.old n) (mark_at self.new n) }
    {
        match on {
            OnRow::None => {}
            OnRow::One(n) => self.mark(n, n),
            OnRow::Two(n, m) => {
                self.mark(n, n);
                self.mark(m, m);
            }
            OnRow::Range(first, last) => self.mark(first, last),
        }
    }

    /// Adds what a piece adds to a row whose columns are the places.
    pub(crate) fn add_part(&mut self, part: RowPart)
        requires places { IsOfPlaces part }
        requires small { AreCountsWithin (2 ^ 19) self.old }
        ensures counts { (n : ℕ) → n < 128 →
            count_at self.new n ≡ count_at self.old n +ℤ (value_at part.crossing (pos n) +ℤ value_at part.region (pos n)) }
        ensures marks { (n : ℕ) → n < 128 → Marks (is_named part.on (pos n)) (mark_at self.old n) (mark_at self.new n) }
    {
        self.add_run(part.crossing);
        self.add_run(part.region);
        self.mark_on(part.on);
    }

    /// Whether a place is on a piece, or has a count other than 0.
    #[inline(always)]
    fn is_covered(&self, n: usize) -> bool
        requires place { n < 128 }
        requires small { AreCountsWithin (2 ^ 20) self.now }
        ensures { IsTrue result ↔ IsCoveredIn self.now n }
    {
        self.marks[n] | (self.counts[n] != 0)
    }

    /// How many of the 63 places from `from` on are covered.
    pub(crate) fn count_covered(&self, from: usize) -> u32
        requires from { from ≤ 65 }
        requires small { AreCountsWithin (2 ^ 20) self.now }
        ensures { IsCount (λ n. IsCoveredIn self.now (n + from)) 63 result }
    {
        let mut count = 0;
        // `count` of the first n places are covered.
        'places: for n in 0..HALF {
            count += u32::from(self.is_covered(n + from));
        }
        count
    }
}
