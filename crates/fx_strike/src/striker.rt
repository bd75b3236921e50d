//! A font at a size, ready to make its characters.
ghost use Rattle.std.specs.Prelude.{◌≡◌, ◌<◌, ◌^◌, [], ◌∷◌, Ok, IfOk, IfErr, IsErrOf, OnOk};
ghost use Rattle.fx_fixed.specs.Chain.{GivesUnless};
ghost use Rattle.fx_fixed.specs.Changes.{change_of};
ghost use Rattle.fx_strike.specs.Title.{titled};
ghost use Rattle.fx_strike.specs.Strike.{setting_after, setting_for, setting_of, opened_at, opened_many_of, checked_chars};
ghost use Rattle.fx_strike.specs.Strike.{checked_text, setting_with, Fails};
ghost use Rattle.fx_strike.specs.Numbered.{IsDrawnOf, numbered_with};
ghost use Rattle.fx_strike.specs.Headline.{IsCause, IsOneOf, Surveyed, Makes, Late, strike_with, nameless_with, character_with};

use crate::hinter::{FontHinter, hinter_at};
use crate::open::{check_chars, check_text, open_many};
use crate::opened::{Basis, Opened};
use crate::over_codes::OverCodes;
use crate::surveyed::Survey;
use fx_bdf::{BitGlyph, Title};
use fx_cmap::CharMap;
use fx_fixed::Sink;
use fx_hint::Spare;
use fx_raster::{RasterScratch, Rows, Scan};
use fx_request::{Deaf, Mode, OnRefused, Refusal, Report};
use fx_sfnt::FontFile;
use std::alloc::Global;
use std::marker::Model;

/// A font at a size, ready to make its characters one by one or as strikes: the font and its character map are open, and with
/// hinting on a machine has run `fpgm` and `prep`. Contracts see it as its setting, which no call changes: what was made before,
/// or refused, has no part in what is made next.
#[derive(Drop)]
pub struct Striker<'a, S: Scan> {
    pub(crate) alloc: Global,
    pub(crate) scan: &'a S,
    pub(crate) basis: Basis<'a>,
    pub(crate) hinter: FontHinter<'a>,
    /// The characters of a call that take too much work; none between calls.
    pub(crate) over: OverCodes,
    /// What scans work with.
    pub(crate) scratch: RasterScratch,
    /// The lists of an outline that is done with, which the next one takes over.
    pub(crate) spare: Spare,
}

impl<'a, S: Scan> Model for Striker<'a, S> {
    ghost use Rattle.fx_strike.specs.Strike.{Setting, setting_over};

    ghost Value = { Setting };

    ghost view = { λ s. setting_over s.basis s.hinter s.over };
}

impl<'a> Striker<'a, Rows> {
    /// Opens a font at a size, with the scan by rows; with hinting on, the font's programs run.
    ///
    /// The first cause is returned, in this order: the size; the font's tables, its character map; with hinting on the halts of
    /// `fpgm`, then of `prep`. `OutOfMemory` may be returned in place of any step after the character map, and of none before it.
    #[tactic(auto, unfolding(crate::specs::Strike::checked_chars, crate::specs::Strike::setting_for, crate::specs::Strike::setting_of))]
    pub fn open(
        alloc: Global,
        font: &FontFile<'a>,
        ppem: u16,
        mode: Mode,
    ) -> Result<Striker<'a, Rows>, Refusal>
        // The striker is in the font's setting.
        ensures setting { IfOk result (λ s. setting_of font.now ppem mode ≡ Ok s) }
        // The first cause was named, or memory ran out.
        ensures cause { IfErr result (λ refusal. Fails refusal (setting_of font.now ppem mode)) }
        // The size is valid, and the font and its character map opened.
        ensures late { IsErrOf result Refusal.OutOfMemory → Late (opened_at font.now ppem) }
    {
        Striker::open_for(alloc, font, ppem, &[], mode)
    }

    /// Opens a font at a size for characters that are made one by one, with the scan by rows; with hinting on, the font's programs
    /// run.
    ///
    /// The first cause is returned, in this order: the size, the characters; then as by `open`.
    pub fn open_for(
        alloc: Global,
        font: &FontFile<'a>,
        ppem: u16,
        chars: &[u32],
        mode: Mode,
    ) -> Result<Striker<'a, Rows>, Refusal>
        // The striker is in the font's setting.
        ensures setting { IfOk result (λ s. setting_for font.now ppem chars.now mode ≡ Ok s) }
        // The characters are within their limits.
        ensures chars { OnOk result (Ok tt ≡ checked_chars chars.now) }
        // The first cause was named, or memory ran out.
        ensures cause { IfErr result (λ refusal. Fails refusal (setting_for font.now ppem chars.now mode)) }
        // The size is valid, the characters are within their limits, and the font and its character map opened.
        ensures late { IsErrOf result Refusal.OutOfMemory → Late (opened_many_of font.now ppem chars.now) }
    {
        Striker::of(alloc, &Rows, open_many(font, ppem, chars), mode)
    }
}

impl<'a, S: Scan> Striker<'a, S> {
    /// Makes a striker of a font that was opened; with hinting on, the font's programs run.
    ///
    /// The first cause is returned: why the font was not opened; then with hinting on the halts of `fpgm`, then of `prep`.
    /// `OutOfMemory` may be returned in place of any step after the opening, and of none in it.
    #[tactic(auto, unfolding(crate::specs::Strike::setting_in, crate::specs::Strike::setting_after))]
    pub fn of(
        alloc: Global,
        scan: &'a S,
        opening: Result<Opened<'a>, Refusal>,
        mode: Mode,
    ) -> Result<Striker<'a, S>, Refusal>
        requires { IfErr opening IsCause }
        ensures setting { GivesUnless Fails (λ s. s) result (setting_after opening.entry mode) }
        ensures late { IsErrOf result Refusal.OutOfMemory → Late opening.entry }
    {
        let opened = opening?;
        let hinter = hinter_at(alloc, &opened, mode)?;
        let basis = Basis::of(opened, mode);
        Ok(Striker::with(alloc, scan, basis, hinter))
    }

    /// A striker with what glyphs depend on.
    pub(crate) fn with(
        alloc: Global,
        scan: &'a S,
        basis: Basis<'a>,
        hinter: FontHinter<'a>,
    ) -> Striker<'a, S>
        ensures { result ≡ setting_with basis.entry hinter.entry }
    {
        Striker {
            alloc,
            scan,
            basis,
            hinter,
            over: OverCodes::none(alloc),
            scratch: RasterScratch::new(alloc),
            spare: Spare::new(alloc),
        }
    }

    /// The character map of its font.
    pub fn map(&self) -> &CharMap<'a>
        ensures { result.now ≡ self.now.map }
    {
        &self.basis.opened.map
    }

    /// Has the striker keep lines and components, or nothing that is only made to save time.
    pub(crate) fn set_room(&mut self, has_room: bool)
        ensures { self.new ≡ self.old }
    {
        self.hinter.set_room(has_room);
    }

    /// The striker with another scan.
    pub fn with_scan<T: Scan>(self, scan: &'a T) -> Striker<'a, T>
        ensures { result ≡ self.entry }
    {
        let mut striker = Striker::with(self.alloc, scan, self.basis, self.hinter);
        striker.over = self.over;
        striker
    }

    /// Makes the glyph of one character: its bits, in their tight box, and its advances. None if the font lacks the character.
    ///
    /// `BadChars` is returned for a code point past U+10FFFF, before memory is taken; then the first cause why the character has
    /// no glyph, or `OutOfMemory`.
    pub fn glyph(&mut self, code: u32) -> Result<Option<BitGlyph>, Refusal>
        // The glyph is that of the character, or the font lacks it.
        ensures glyph { IfOk result (IsOneOf (character_with self.old code)) }
        // The first cause was named, or memory ran out.
        ensures cause { IfErr result (λ refusal. Fails refusal (character_with self.old code)) }
        // The code point is within its limit.
        ensures late { IsErrOf result Refusal.OutOfMemory → Late (checked_chars (code ∷ [])) }
        // Nothing of it has a part in what is made next.
        ensures kept { self.new ≡ self.old }
    {
        check_chars(&[code])?;
        self.one(code)
    }

    /// Makes a glyph by its number: its bits, in their tight box, and its advances. Its code point is 0.
    ///
    /// The first cause why it cannot be made is returned, such as `BadGlyphNumber` if the font does not have it, or `OutOfMemory`.
    pub fn numbered(&mut self, glyph: u16) -> Result<BitGlyph, Refusal>
        // It is the glyph of that number.
        ensures glyph { IfOk result (IsDrawnOf (numbered_with self.old glyph)) }
        // The first cause was named, or memory ran out.
        ensures cause { IfErr result (λ refusal. Fails refusal (numbered_with self.old glyph)) }
        // Nothing of it has a part in what is made next.
        ensures kept { self.new ≡ self.old }
    {
        self.draw_alone(0, glyph)
    }

    /// Surveys the strike of characters, whatever its name and properties: the numbers of its header, and what is counted over it.
    ///
    /// It is refused as the strike is, but for its name and the writer.
    pub fn survey(&mut self, chars: &[u32]) -> Result<Survey, Refusal>
        // The strike exists, and these are its numbers.
        ensures survey { IfOk result (Surveyed (nameless_with self.old chars.now)) }
        // The first cause was named, or memory ran out.
        ensures cause { IfErr result (λ refusal. Fails refusal (nameless_with self.old chars.now)) }
        // The characters are within their limits.
        ensures late { IsErrOf result Refusal.OutOfMemory → Late (checked_chars chars.now) }
        // Nothing of it has a part in what is made next.
        ensures kept { self.new ≡ self.old }
    {
        check_chars(chars)?;
        self.survey_chars(chars, OnRefused::Stop)
    }

    /// Makes the strike of characters and writes its text, in two passes as `make_strike_with` does.
    ///
    /// The first cause is returned, in this order: the characters, the name, the properties; then the characters in rising order.
    /// `OutOfMemory` may be returned in place of any step after the properties, and of none before them. After
    /// `WriteFailed(n)` the writer holds the first n bytes of the text; after any other refusal but `OutOfMemory` nothing was
    /// written.
    pub fn write<W: Sink>(
        &mut self,
        title: &Title<'_>,
        chars: &[u32],
        out: &mut W,
    ) -> Result<Report, Refusal>
        requires { W.fault_count out.old < 2 ^ 63 }
        // Five clauses: `text`, `cause`, `memory`, `late` and `writer`.
        ensures made { Makes (checked_text (titled title.now) chars.now) (strike_with self.old (titled title.now) chars.now)
            (change_of W.held W.fault_count out.old out.new) result }
        // Nothing of it has a part in what is made next.
        ensures kept { self.new ≡ self.old }
    {
        check_text(title, chars)?;
        self.write_strike(title, chars, OnRefused::Stop, out, &mut Deaf)
    }
}
