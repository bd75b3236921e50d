//! Places for simple glyphs that were made.

ghost use Rattle.std.specs.Prelude.{◌≡◌, replicate, length, option_map, true, None, IfSome};
ghost use Rattle.std.specs.List.{All};
ghost use Rattle.fx_hint.specs.Hinting.{Hinting};
ghost use Rattle.fx_hint.specs.Kept.{IsMadeAlone, IsTrueOf, IsSmall};
ghost use Rattle.fx_hint.specs.inner.Kept.{places_of};
ghost use Rattle.fx_hint.specs.Limits.{max_places};

use crate::kept::{GlyphInput, KeptGlyph};
use crate::made::Made;
use fx_machine::Usage;
use std::alloc::Global;
use std::marker::Model;

/// The number of places for glyphs that are kept.
const PLACES: usize = 128;

/// The most points, and the most contours, of a glyph that is kept.
const KEPT_POINTS: usize = 80;

/// The most bytes of a glyph that is kept.
const KEPT_BYTES: usize = 512;

/// Places that keep nothing, or none if memory is refused.
fn empty_places(alloc: Global) -> Option<Vec<KeptGlyph>>
    ensures { places_of (option_map (λ v. v.items) result) ≡ replicate max_places None }
{
    let mut places = Vec::with_capacity(alloc, PLACES).ok()?;
    // The places so far keep nothing, and there is room for those that are left.
    'places: for _number in 0..PLACES {
        places.push_reserved(KeptGlyph::new(alloc));
    }
    Some(places)
}

/// Simple glyphs that were made, so that a component that comes again soon is copied and not made again. A glyph has its place by
/// its number, and what the place kept before is dropped. What is kept decides how soon an outline is made, and nothing else. It
/// is at most `PLACES` glyphs of at most `KEPT_POINTS` points and `KEPT_BYTES` bytes; with what their lists have to spare they take
/// at most 1 MiB. The places are made when the first glyph is kept.
#[derive(Drop)]
pub struct KeptGlyphs {
    alloc: Global,
    has_room: bool,
    places: Option<Vec<KeptGlyph>>,
}

impl Model for KeptGlyphs {
    ghost use Rattle.std.specs.Prelude.{◌≡◌, length, option_map};
    ghost use Rattle.std.specs.List.{All};
    ghost use Rattle.fx_hint.specs.Kept.{KeptView, IsSmall};
    ghost use Rattle.fx_hint.specs.Limits.{max_places};
    ghost use Rattle.fx_hint.specs.inner.Kept.{places_of};

    ghost Value = { KeptView };

    ghost view = { λ k. record { has_room = k.has_room; places = places_of (option_map (λ v. v.items) k.places) } };

    ghost invariant = { λ k. (length (places_of (option_map (λ v. v.items) k.places)) ≡ max_places)
        × All IsSmall (places_of (option_map (λ v. v.items) k.places)) };
}

impl KeptGlyphs {
    /// Nothing is kept yet, and if there is to be no room, nothing ever is.
    pub fn new(alloc: Global, has_room: bool) -> KeptGlyphs
        ensures room { result.has_room ≡ has_room }
        ensures none { result.places ≡ replicate max_places None }
        ensures held { (h : Hinting) → All (IsTrueOf h) result.places }
    {
        KeptGlyphs {
            alloc,
            has_room,
            places: None,
        }
    }

    /// Whether there is to be room.
    pub fn has_room(&self) -> bool
        ensures { result ≡ self.now.has_room }
    {
        self.has_room
    }

    /// Says whether there is to be room from now on.
    pub fn set_room(&mut self, has_room: bool)
        ensures { self.new ≡ record self.old { has_room = has_room } }
    {
        self.has_room = has_room;
    }

    /// Makes the places, if they are not made yet. Out of memory: they are not made, and nothing is kept.
    fn make_places(&mut self)
        ensures { self.new ≡ self.old }
    {
        if self.places.is_none() {
            self.places = empty_places(self.alloc);
        }
    }

    /// Writes to `made` a glyph as it was made before from the same input, if it is kept, and returns what its program used up
    /// then.
    pub(crate) fn recall(&self, input: &GlyphInput<'_>, made: &mut Made) -> Option<Usage>
        ensures value { IfSome result (λ usage. (h : Hinting) → All (IsTrueOf h) self.now.places → IsMadeAlone h
            input.now.scale input.now.g input.now.metrics input.now.bytes.now made.new usage) }
        ensures room { IfSome result (λ _. self.now.has_room ≡ true) }
    {
        if !self.has_room {
            return None;
        }
        match &self.places {
            Some(places) => places[usize::from(input.g) % PLACES].recall(input, made),
            None => None,
        }
    }

    /// Keeps a glyph that was made, if it is small and there is to be room.
    pub(crate) fn keep(&mut self, input: &GlyphInput<'_>, made: &Made, usage: Usage)
        ensures value { (h : Hinting) → All (IsTrueOf h) self.old.places
            → IsMadeAlone h input.now.scale input.now.g input.now.metrics input.now.bytes.now made.now usage
            → All (IsTrueOf h) self.new.places }
        ensures room { self.new.has_room ≡ self.old.has_room }
    {
        let contours = made.zone.ends().len();
        if self.has_room
            && input.bytes.len() <= KEPT_BYTES
            && made.zone.len() <= KEPT_POINTS
            && contours <= KEPT_POINTS
        {
            self.make_places();
            if let Some(places) = &mut self.places {
                // Out of memory: it is not kept, and made again when it is asked for.
                let _kept = places[usize::from(input.g) % PLACES].take(input, made, usage);
            }
        }
    }

    /// The law: what is kept has a bound, whatever was made.
    pub fn law_keeps_little(&self)
        ensures places { length self.now.places ≡ max_places }
        ensures small { All IsSmall self.now.places }
    {
        let _ = &self.places;
    }
}
