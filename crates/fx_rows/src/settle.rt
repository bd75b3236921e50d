//! The bits of a row from the differences of its counts.

ghost use Rattle.std.specs.Prelude.{◌≡◌, ◌≢◌, ◌⊎◌, ℕ, ◌+◌, ◌*◌, ◌-◌, ◌^◌, ◌<◌, ◌≤◌, pos, ◌+ℤ◌, length, get_or, cond};
ghost use Rattle.std.specs.Int.{bit_at};
ghost use Rattle.fx_fixed.specs.Ranges.{IsWithin};
ghost use Rattle.fx_winding.specs.Bitmaps.{word_bit};
ghost use Rattle.fx_rows.specs.inner.Sums.{before, sum_of, AreEmptiedTo, AreTouched, IsFirstBit, count_bit};

/// The first column whose bit is set, in a word whose lowest bits come first.
pub(crate) fn first_column(word: u32) -> u32
    requires { 0 < word }
    ensures { IsFirstBit word result }
{
    word.trailing_zeros()
}

/// The word without the bit of column 0.
#[tactic(auto, using(crate::proofs::Tails::lowest_gone, crate::proofs::Tails::lowest_rest))]
fn without_lowest(word: u32) -> u32
    ensures first { bit_at result 0 ≡ 0 }
    ensures rest { (i : ℕ) → 0 < i → i < 32 → bit_at result i ≡ bit_at word i }
{
    word & u32::MAX << 1
}

/// The word without the first bit that is set, which is that of some column k.
fn without_first(word: u32) -> u32
    requires { 0 < word }
    ensures before { (k i : ℕ) → IsFirstBit word k → i ≤ k → bit_at result i ≡ 0 }
    ensures rest { (k i : ℕ) → IsFirstBit word k → k < i → bit_at result i ≡ bit_at word i }
    ensures less { result < word }
{
    word & (word - 1)
}

/// The word with the bits from a column on all set, or all 0.
#[tactic(auto, using(crate::proofs::Tails::rests))]
fn with_rest(word: u32, column: u32, set: bool) -> u32
    requires { column < 32 }
    ensures before { (i : ℕ) → i < column → bit_at result (31 - i) ≡ bit_at word (31 - i) }
    ensures rest { (i : ℕ) → column ≤ i → i < 32 → bit_at result (31 - i) ≡ cond set 1 0 }
{
    let rest = u32::MAX >> column;
    let all = word | rest;
    if set { all } else { all ^ rest }
}

/// The number at a place, which becomes 0.
fn taken(diff: &mut [i32], at: usize) -> i32
    requires { at < length diff.old }
    ensures value { result ≡ get_or diff.old at (pos 0) }
    ensures here { get_or diff.new at (pos 0) ≡ pos 0 }
    ensures others { (k : ℕ) → k ≢ at → get_or diff.new k (pos 0) ≡ get_or diff.old k (pos 0) }
{
    let number = diff[at];
    diff[at] = 0;
    number
}

/// The bits of the 32 columns from one on, the first one's the highest: set where the count is not 0. `count`, which is that
/// of the column before, moves on to the last one's, and the differences become 0. The first column needs no bit of `touched`,
/// whose lowest bits come first.
/// The loop over words is to have it in its body.
#[inline(always)]
fn settle_word(diff: &mut [i32], touched: u32, from: usize, count: &mut i32) -> u32
    requires inside { from + 32 ≤ length diff.old }
    requires touched { (i : ℕ) → 0 < i → i < 32 → bit_at touched i ≡ 0 → get_or diff.old (from + i) (pos 0) ≡ pos 0 }
    requires small { (i : ℕ) → i ≤ 32 → IsWithin (2 ^ 20) (count.old +ℤ sum_of diff.old from i) }
    ensures bits { (i : ℕ) → i < 32 → bit_at result (31 - i) ≡ count_bit (count.old +ℤ sum_of diff.old from (i + 1)) 0 }
    ensures count { count.new ≡ count.old +ℤ sum_of diff.old from 32 }
    ensures zeros { (i : ℕ) → i < 32 → get_or diff.new (from + i) (pos 0) ≡ pos 0 }
    ensures others { (k : ℕ) → (k < from) ⊎ (from + 32 ≤ k) → get_or diff.new k (pos 0) ≡ get_or diff.old k (pos 0) }
{
    let mut sum = *count + taken(diff, from);
    let mut bits = with_rest(0, 0, sum != 0);
    let mut left = without_lowest(touched);
    // The touched columns before those left are settled; from the last of them on, all bits are that of the count.
    'columns: while left != 0 {
        let column = first_column(left);
        sum += taken(diff, from + column as usize);
        bits = with_rest(bits, column, sum != 0);
        left = without_first(left);
    }
    *count = sum;
    bits
}

/// Sets the bit of each number whose count is not 0: the sum of the differences up to it. The differences become 0 and lose their
/// bits.
///
/// It stays a function of its own: its loop needs all registers.
#[inline(never)]
pub fn settle(diff: &mut [i32], touched: &mut [u32], line: &mut [u32])
    requires long { 32 * length line.old ≤ length diff.old }
    requires words { length line.old ≤ length touched.old }
    requires touched { AreTouched diff.old touched.old }
    requires small { (k : ℕ) → IsWithin (2 ^ 20) (before k diff.old) }
    ensures bits { (k : ℕ) → k < 32 * length line.old →
        word_bit line.new k ≡ count_bit (before (k + 1) diff.old) (word_bit line.old k) }
    ensures emptied { AreEmptiedTo (32 * length line.old) diff.old diff.new }
    ensures untouched { (w : ℕ) → w < length line.old → get_or touched.new w 0 ≡ 0 }
{
    let mut count = 0;
    // The words before w are settled, and the count is that of the last column of the word before.
    'words: for w in 0..line.len() {
        line[w] |= settle_word(diff, touched[w], 32 * w, &mut count);
        touched[w] = 0;
    }
}
