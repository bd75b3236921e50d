//! What becomes of a character: it is drawn, or it is refused, and drawn without hinting or left out.
ghost use Rattle.std.specs.Prelude.{◌≡◌, Ok};
ghost use Rattle.fx_fixed.specs.Chain.{GivesUnless};
ghost use Rattle.fx_strike.specs.Strike.{glyph_sketch_of, glyph_fate_of, left_out_for, machineless, refused_by, Fails};

use crate::characters::Mapped;
use crate::sketch::Sketch;
use crate::striker::Striker;
use fx_machine::Halt;
use fx_raster::Scan;
use fx_request::{Notice, OnRefused, Refusal};

/// What becomes of a character that the font has.
#[derive(Drop)]
pub(crate) enum Fate {
    /// It is drawn.
    Drawn(Sketch),
    /// Its program halted, and it is drawn without hinting.
    Unhinted(Notice, Sketch),
    /// It is refused, and left out.
    LeftOut(Notice),
}

impl<'a, S: Scan> Striker<'a, S> {
    /// What becomes of a character that the font has; or the first cause that refuses the strike.
    pub(crate) fn fate_of(&mut self, refused: OnRefused, m: Mapped) -> Result<Fate, Refusal>
        ensures kept { self.new ≡ self.old }
        ensures fate { GivesUnless Fails (λ f. f) result (glyph_fate_of self.old refused m.code m.glyph) }
    {
        match self.sketch_at(m.code, m.glyph) {
            Ok(sketch) => Ok(Fate::Drawn(sketch)),
            Err(cause) => self.fate_refused(refused, m, cause),
        }
    }

    /// What becomes of a character that is refused for a cause. Out of memory is none. Few characters are refused, so this code is
    /// kept out of the loops over the others.
    #[inline(never)]
    fn fate_refused(
        &mut self,
        refused: OnRefused,
        m: Mapped,
        cause: Refusal,
    ) -> Result<Fate, Refusal>
        ensures kept { self.new ≡ self.old }
        ensures fate { Fails cause (glyph_sketch_of self.old m.code m.glyph)
            → GivesUnless Fails (λ f. f) result (glyph_fate_of self.old refused m.code m.glyph) }
    {
        match cause {
            Refusal::OutOfMemory => Err(Refusal::OutOfMemory),
            Refusal::Halted(halt) => self.fate_halted(refused, m, halt),
            _ => match refused {
                OnRefused::Stop => Err(cause),
                OnRefused::LeaveOut | OnRefused::Unhinted => Ok(left_out(m.code, cause)),
            }
        }
    }

    /// What becomes of a character whose program halted. If it may be drawn without hinting, it is if it has a sketch then.
    fn fate_halted(&mut self, refused: OnRefused, m: Mapped, halt: Halt) -> Result<Fate, Refusal>
        ensures kept { self.new ≡ self.old }
        ensures fate { GivesUnless Fails (λ f. f) result
            (refused_by refused m.code (glyph_sketch_of (machineless self.old) m.code m.glyph) (Refusal.Halted halt)) }
    {
        match refused {
            OnRefused::Stop => Err(Refusal::Halted(halt)),
            OnRefused::LeaveOut => Ok(left_out(m.code, Refusal::Halted(halt))),
            OnRefused::Unhinted => match self.sketch_unhinted(m.code, m.glyph) {
                Ok(sketch) => {
                    let notice = Notice {
                        code: m.code,
                        cause: Refusal::Halted(halt),
                        unhinted: true,
                    };
                    Ok(Fate::Unhinted(notice, sketch))
                }
                Err(Refusal::OutOfMemory) => Err(Refusal::OutOfMemory),
                Err(cause) => Ok(left_out(m.code, cause)),
            },
        }
    }

    /// Takes the lists of a character's outline, which is done with, for the next one.
    pub(crate) fn give_back(&mut self, fate: Fate)
        ensures { self.new ≡ self.old }
    {
        match fate {
            Fate::Drawn(sketch) | Fate::Unhinted(_, sketch) => {
                self.spare.give_back(sketch.shape.into_outline())
            }
            Fate::LeftOut(_) => {}
        }
    }
}

/// A code point that is left out for a cause.
fn left_out(code: u32, cause: Refusal) -> Fate
    ensures { result ≡ left_out_for code cause }
{
    Fate::LeftOut(Notice {
        code,
        cause,
        unhinted: false,
    })
}
