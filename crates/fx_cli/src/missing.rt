//! The characters that a font lacks, as ranges.
ghost use Rattle.std.specs.Prelude.{◌≡◌, ℕ, Bool, List, ◌∷◌, [], ◌++◌};
ghost use Rattle.fx_cli.specs.Missing.{Begun, Names, Puts, lacking, ranges_from, ranges_of};

use fx_cmap::CharMap;
use fx_front::Text;
use std::alloc::Global;

/// How many ranges are named, if not all are.
const FEW: usize = 8;

/// Ranges of missing characters.
#[derive(Drop)]
pub struct Missing {
    /// Those that are named, as `4e00-4e10,5000`.
    pub text: Text,
    /// Whether there are more.
    pub has_more: bool,
    /// Whether one is named.
    is_begun: bool,
    /// Whether all are named, and else how many more are.
    names_all: bool,
    left: usize,
}

impl Missing {
    /// No range.
    pub(crate) fn new(alloc: Global, names_all: bool) -> Missing
        ensures { Begun names_all [] result }
    {
        Missing {
            text: Text::new(alloc),
            has_more: false,
            is_begun: false,
            names_all,
            left: FEW,
        }
    }

    /// Names a range, unless enough are named.
    fn add(&mut self, first: u32, last: u32)
        ensures { (names_all : Bool) (ranges : List (ℕ × ℕ)) → Begun names_all ranges self.old
            → Begun names_all (ranges ++ (first, last) ∷ []) self.new }
    {
        if !self.names_all {
            if self.left == 0 {
                self.has_more = true;
                return;
            }
            self.left -= 1;
        }
        self.put(first, last);
    }

    /// Adds a range to the text.
    fn put(&mut self, first: u32, last: u32)
        ensures { Puts first last self.old self.new }
    {
        if self.is_begun {
            self.text.add(b",");
        }
        self.is_begun = true;
        self.text.add_code(first);
        if first < last {
            self.text.add(b"-");
            self.text.add_code(last);
        }
    }
}

/// Which of these characters a map lacks.
pub(crate) fn missing_of(
    alloc: Global,
    codes: &[u32],
    map: &CharMap<'_>,
    names_all: bool,
) -> Missing
    ensures { Names names_all (ranges_of (lacking map.now codes.now)) result.text result.has_more }
{
    let mut missing = Missing::new(alloc, names_all);
    let mut held = None;
    // The ranges before the open one are named.
    'codes: for code in codes {
        if missing.has_more {
            return missing;
        }
        if map.glyph(*code) != 0 {
            continue;
        }
        held = grown(&mut missing, held, *code);
    }
    match held {
        Some((first, last)) => {
            missing.add(first, last);
            missing
        }
        None => missing,
    }
}

/// The open range with a number more. If the number does not follow it, it is named, and the number opens another.
fn grown(missing: &mut Missing, held: Option<(u32, u32)>, code: u32) -> Option<(u32, u32)>
    ensures { (names_all : Bool) (ranges : List (ℕ × ℕ)) → Begun names_all ranges missing.old
        → (more : List (ℕ × ℕ)) × Begun names_all more missing.new
        × ((codes : List ℕ) → more ++ ranges_from result codes ≡ ranges ++ ranges_from held (code ∷ codes)) }
{
    let Some((first, last)) = held else {
        return Some((code, code));
    };
    if last < code && code - last == 1 {
        return Some((first, code));
    }
    missing.add(first, last);
    Some((code, code))
}
