//! The flags of a glyph's points.

ghost use Rattle.std.specs.Prelude.{◌≡◌, ◌*◌, ◌≤◌, ◌∷◌, [], IsSome, MatchOption, option_map, length};
ghost use Rattle.fx_glyf.specs.Words.{has, list_in};
ghost use Rattle.fx_glyf.specs.inner.Sizes.{AreSizes, Measured, measured_of};
ghost use Rattle.fx_glyf.specs.Points.{next_flag, flags_from, start};

use fx_fixed::after;
use std::marker::Model;

/// The point is on the curve.
pub const ON_CURVE_POINT: u8 = 0x01;

/// The delta of x is one byte.
pub const X_SHORT_VECTOR: u8 = 0x02;

/// The delta of y is one byte.
pub const Y_SHORT_VECTOR: u8 = 0x04;

/// The next byte is the number of further points with this flag.
pub const REPEAT_FLAG: u8 = 0x08;

/// The delta of x is 0, or positive if it is short.
pub const X_IS_SAME_OR_POSITIVE_X_SHORT_VECTOR: u8 = 0x10;

/// The delta of y is 0, or positive if it is short.
pub const Y_IS_SAME_OR_POSITIVE_Y_SHORT_VECTOR: u8 = 0x20;

/// Whether a flag has a bit, by its mask.
pub fn has(flag: u8, mask: u8) -> bool
    ensures { result ≡ has flag mask }
{
    flag & mask != 0
}

/// The run at the front of flags: the number of further points with its flag, that flag, and the bytes after it.
#[tactic(auto, unfolding(crate::specs::Points::next_flag))]
fn run(bytes: &[u8]) -> Option<(u8, u8, &[u8])>
    ensures { option_map (λ s. record { again = s.0; flag = s.1; bytes = s.2.now }) result ≡ next_flag (start bytes.now) }
{
    match bytes {
        [] => None,
        [flag, rest @ ..] => {
            if !has(*flag, REPEAT_FLAG) {
                return Some((0, *flag, rest));
            }
            match rest {
                [] => None,
                [again, rest @ ..] => Some((*again, *flag, rest)),
            }
        }
    }
}

/// The number of further points with the next flag, that flag, and the bytes after it; the bytes hold it.
#[tactic(auto, using(crate::proofs::Held::next_flag_steps))]
fn next_flag(again: u8, flag: u8, bytes: &[u8]) -> (u8, u8, &[u8])
    requires { IsSome (next_flag (record { again = again; flag = flag; bytes = bytes.now })) }
    ensures { Some (record { again = result.0; flag = result.1; bytes = result.2.now })
        ≡ next_flag (record { again = again; flag = flag; bytes = bytes.now }) }
{
    if again > 0 {
        return (again - 1, flag, bytes);
    }
    let flag = bytes[0];
    if has(flag, REPEAT_FLAG) {
        (bytes[1], flag, after(bytes, 2))
    } else {
        (0, flag, after(bytes, 1))
    }
}

/// How many bytes deltas take, those of x and those of y.
#[derive(Clone, Copy)]
struct DeltaSizes {
    xs: usize,
    ys: usize,
}

/// How many bytes the deltas of a point take, by bits 1 to 5 of the flag: 1 if one is short, else 0 if it is the same, else 2.
static SIZES: [DeltaSizes; 32] = [
    DeltaSizes { xs: 2, ys: 2 },
    DeltaSizes { xs: 1, ys: 2 },
    DeltaSizes { xs: 2, ys: 1 },
    DeltaSizes { xs: 1, ys: 1 },
    DeltaSizes { xs: 2, ys: 2 },
    DeltaSizes { xs: 1, ys: 2 },
    DeltaSizes { xs: 2, ys: 1 },
    DeltaSizes { xs: 1, ys: 1 },
    DeltaSizes { xs: 0, ys: 2 },
    DeltaSizes { xs: 1, ys: 2 },
    DeltaSizes { xs: 0, ys: 1 },
    DeltaSizes { xs: 1, ys: 1 },
    DeltaSizes { xs: 0, ys: 2 },
    DeltaSizes { xs: 1, ys: 2 },
    DeltaSizes { xs: 0, ys: 1 },
    DeltaSizes { xs: 1, ys: 1 },
    DeltaSizes { xs: 2, ys: 0 },
    DeltaSizes { xs: 1, ys: 0 },
    DeltaSizes { xs: 2, ys: 1 },
    DeltaSizes { xs: 1, ys: 1 },
    DeltaSizes { xs: 2, ys: 0 },
    DeltaSizes { xs: 1, ys: 0 },
    DeltaSizes { xs: 2, ys: 1 },
    DeltaSizes { xs: 1, ys: 1 },
    DeltaSizes { xs: 0, ys: 0 },
    DeltaSizes { xs: 1, ys: 0 },
    DeltaSizes { xs: 0, ys: 1 },
    DeltaSizes { xs: 1, ys: 1 },
    DeltaSizes { xs: 0, ys: 0 },
    DeltaSizes { xs: 1, ys: 0 },
    DeltaSizes { xs: 0, ys: 1 },
    DeltaSizes { xs: 1, ys: 1 },
];

/// The bytes of the deltas with this flag.
#[inline(always)]
fn sizes_of(flag: u8) -> DeltaSizes
    ensures value { AreSizes flag result.xs result.ys }
    ensures few { (result.xs ≤ 2) × (result.ys ≤ 2) }
{
    SIZES[usize::from(flag >> 1) % 32]
}

/// How many flags at the front are not repeated, of `most` at most, and the bytes of their deltas.
#[inline(always)]
fn alone(bytes: &[u8], most: usize) -> (usize, DeltaSizes)
    ensures most { result.0 ≤ most }
    ensures inside { result.0 ≤ length bytes.now }
    ensures few { (result.1.xs ≤ 2 * result.0) × (result.1.ys ≤ 2 * result.0) }
    ensures measured { Measured bytes.now most result.0 result.1.xs result.1.ys }
{
    let few = most.min(bytes.len());
    let mut xs = 0;
    let mut ys = 0;
    // With the flags from `at` on, what was added up gives the measure of all.
    'flags: for at in 0..few {
        let flag = bytes[at];
        if has(flag, REPEAT_FLAG) {
            return (at, DeltaSizes { xs, ys });
        }
        let size = sizes_of(flag);
        xs += size.xs;
        ys += size.ys;
    }
    (few, DeltaSizes { xs, ys })
}

/// What flags say of the bytes after them: how many the x deltas take, and how many the y deltas.
#[derive(Drop)]
pub struct Measure<'a> {
    pub xs: usize,
    pub ys: usize,
    pub rest: &'a [u8],
}

/// The measure of the flags of `count` points, and the bytes after them. Apart from what calls it, its loop has registers enough.
#[tactic(auto, using(crate::proofs::Sizes::measured_run, crate::proofs::Sizes::measured_stopped, crate::proofs::Sizes::measured_done))]
#[inline(never)]
pub fn measured(count: u32, bytes: &[u8]) -> Option<Measure<'_>>
    ensures { option_map (λ m. record { xs = m.xs; ys = m.ys; rest = m.rest.now }) result ≡ measured_of count bytes.now }
{
    let mut left = count as usize;
    let mut xs = 0;
    let mut ys = 0;
    let mut rest = bytes;
    // With the flags that are left, what was added up gives the measure of all.
    'runs: while left > 0 {
        let (count, added) = alone(rest, left);
        xs += added.xs;
        ys += added.ys;
        left -= count;
        rest = after(rest, count);
        if left > 0 {
            let (again, flag, after_it) = run(rest)?;
            let points = left.min(usize::from(again) + 1);
            let size = sizes_of(flag);
            xs += points * size.xs;
            ys += points * size.ys;
            left -= points;
            rest = after_it;
        }
    }
    Some(Measure { xs, ys, rest })
}

/// The flags of points that are left; their bytes are complete.
#[derive(Drop)]
pub struct Flags<'a> {
    left: u32,
    again: u8,
    flag: u8,
    bytes: &'a [u8],
}

impl<'a> Model for Flags<'a> {
    ghost use Rattle.std.specs.Prelude.{ℕ, List, IsSome};
    ghost use Rattle.fx_glyf.specs.Words.{list_in};
    ghost use Rattle.fx_glyf.specs.Points.{flags_from};

    ghost Value = { List ℕ };

    ghost view = { λ f. list_in (flags_from f.left (record { again = f.again; flag = f.flag; bytes = f.bytes.now })) };

    ghost invariant = { λ f. IsSome (flags_from f.left (record { again = f.again; flag = f.flag; bytes = f.bytes.now })) };
}

impl<'a> Flags<'a> {
    /// The flags of `left` points at the front of the bytes.
    pub fn new(left: u32, bytes: &'a [u8]) -> Flags<'a>
        requires { IsSome (flags_from left (record { again = 0; flag = 0; bytes = bytes.now })) }
        ensures { result ≡ list_in (flags_from left (record { again = 0; flag = 0; bytes = bytes.now })) }
    {
        Flags {
            left,
            again: 0,
            flag: 0,
            bytes,
        }
    }

    /// The next flag.
    #[tactic(auto, using(crate::proofs::Steps::flags_none, crate::proofs::Held::flag_held))]
    pub fn next(&mut self) -> Option<u8>
        ensures { MatchOption result ((self.old ≡ []) × (self.new ≡ [])) (λ f. self.old ≡ f ∷ self.new) }
    {
        if self.left == 0 {
            return None;
        }
        let (again, flag, bytes) = next_flag(self.again, self.flag, self.bytes);
        self.left -= 1;
        self.again = again;
        self.flag = flag;
        self.bytes = bytes;
        Some(flag)
    }
}
