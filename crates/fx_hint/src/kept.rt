//! Places that keep simple glyphs.

ghost use Rattle.std.specs.Prelude.{◌≡◌, Some, None, IfSome, OnOk, OnErr, IsTrue};

use crate::made::Made;
use fx_gstate::ScanType;
use fx_machine::Usage;
use fx_scale::{PhantomPoints, Scale};
use fx_sfnt::Metrics;
use fx_zone::ZonePoint;
use std::alloc::{AllocError, Global};
use std::marker::Model;

/// What a simple glyph is made from: its number, its size, its metrics and its bytes.
#[derive(Clone, Copy)]
pub struct GlyphInput<'b> {
    pub g: u16,
    pub scale: Scale,
    pub metrics: Metrics,
    pub bytes: &'b [u8],
}

/// What is kept of a glyph beside its lists.
#[derive(Clone, Copy)]
pub struct KeptFields {
    pub g: u16,
    pub scale: Scale,
    pub metrics: Metrics,
    pub phantoms: PhantomPoints,
    pub usage: Usage,
    pub wish: Option<ScanType>,
}

/// A place for a simple glyph that was made, or for none. Its lists keep their memory when another glyph takes the place.
#[derive(Drop)]
pub struct KeptGlyph {
    fields: Option<KeptFields>,
    bytes: Vec<u8>,
    points: Vec<ZonePoint>,
    ends: Vec<u16>,
}

impl Model for KeptGlyph {
    ghost use Rattle.std.specs.Prelude.{Option, ◌<◌, length};
    ghost use Rattle.std.specs.List.{All};
    ghost use Rattle.fx_hint.specs.Kept.{KeptGlyphView};
    ghost use Rattle.fx_hint.specs.inner.Kept.{kept_of};

    ghost Value = { Option KeptGlyphView };

    ghost view = { λ k. kept_of k.fields k.bytes.items k.points.items k.ends.items };

    ghost invariant = { λ k. All (λ e. e < length k.points.items) k.ends.items };
}

/// Whether two lists have the same bytes. It looks at all of them, so that many are compared at a time.
fn are_same(one: &[u8], other: &[u8]) -> bool
    ensures { IsTrue result → one.now ≡ other.now }
{
    if one.len() != other.len() {
        return false;
    }
    let mut same = true;
    // The bytes so far are the same if `same` is true.
    'bytes: for number in 0..one.len() {
        same = same & (one[number] == other[number]);
    }
    same
}

impl KeptGlyph {
    /// Nothing is kept.
    pub fn new(alloc: Global) -> KeptGlyph
        ensures { result ≡ None }
    {
        KeptGlyph {
            fields: None,
            bytes: Vec::new(alloc),
            points: Vec::new(alloc),
            ends: Vec::new(alloc),
        }
    }

    /// Keeps a glyph in place of what it kept; nothing if memory is refused.
    pub fn take(
        &mut self,
        input: &GlyphInput<'_>,
        made: &Made,
        usage: Usage,
    ) -> Result<(), AllocError>
        ensures done { OnOk result (self.new ≡ Some (record {
          g = input.now.g;
          scale = input.now.scale;
          metrics = input.now.metrics;
          bytes = input.now.bytes.now;
          made = made.now;
          usage = usage;
        })) }
        ensures none { OnErr result (self.new ≡ None) }
    {
        self.fields = None;
        self.ends.clear();
        self.points.clear();
        self.bytes.clear();
        self.bytes.extend_from_slice(input.bytes)?;
        self.points.extend_from_slice(made.zone.points())?;
        self.ends.extend_from_slice(made.zone.ends())?;
        self.fields = Some(KeptFields {
            g: input.g,
            scale: input.scale,
            metrics: input.metrics,
            phantoms: made.phantoms,
            usage,
            wish: made.wish,
        });
        Ok(())
    }

    /// Copies the glyph that is kept to `made`, if it was made from this input, and returns what its program used up. Returns none
    /// if it was not, or if memory is refused; then `made` may hold anything.
    pub fn recall(&self, input: &GlyphInput<'_>, made: &mut Made) -> Option<Usage>
        ensures { IfSome result (λ usage. self.now ≡ Some (record {
          g = input.now.g;
          scale = input.now.scale;
          metrics = input.now.metrics;
          bytes = input.now.bytes.now;
          made = made.new;
          usage = usage;
        })) }
    {
        let Some(fields) = &self.fields else {
            return None;
        };
        if fields.g != input.g || fields.metrics != input.metrics || fields.scale != input.scale {
            return None;
        }
        if !are_same(&self.bytes, input.bytes) {
            return None;
        }
        made.zone.refill(&self.points, &self.ends).ok()?;
        made.phantoms = fields.phantoms;
        made.wish = fields.wish;
        Some(fields.usage)
    }
}
