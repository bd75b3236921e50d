//! What `mkstrike help` and `--version` print. Written by tools/make_pages from docs/mkstrike-*.1: change those.

/// The release, and the kit that proved it.
pub const VERSION: &str = "mkstrike 0.20261128
kit rattle-kit-13f logic dac8208d650f15bf
";

/// What `mkstrike help` prints.
pub const OVERVIEW: &str = "mkstrike makes a bitmap font (BDF 2.1) from a TrueType font.

    mkstrike make --ppem 16 --set ascii --dropout=font font.ttf -o font.bdf
    mkstrike show --ppem 16 --char 41 font.ttf

Commands:

    make       make a strike: the bitmaps of characters at one size
    show       print the picture of one glyph
    outline    print the outline of one glyph
    dump       list one of the font's own programs
    trace      print the run of a font's own programs
    faces      list the fonts of a file with their names
    explain    say what is wrong with a command line, or what a refusal means
    help       print this, or the options of a command: help COMMAND
    --version  print the release

'mkstrike help make' lists the options of make, and likewise for the others;
'mkstrike help sets' lists the sets of characters.

Without FONT the font is read from standard input. Without -o the output goes
to standard output. Without any argument the first line of standard input is
the command line.

The command `strike` (package python3-mkstrike) makes other formats, fixed
cells and several sizes at once.

Documents: 'man mkstrike', and the folder docs/ of a checkout or
share/doc/mkstrike of a package. COOKBOOK.md has recipes for a terminal, X11, a
console, a boot screen and a small display; REFUSALS.md says what each refusal
means and what to do.
";

/// What `mkstrike help COMMAND` prints.
pub(crate) const HELPS: [(&str, &str); 8] = [
    ("make", MAKE),
    ("show", SHOW),
    ("outline", OUTLINE),
    ("dump", DUMP),
    ("trace", TRACE),
    ("faces", FACES),
    ("explain", EXPLAIN),
    ("sets", SETS),
];

/// What `mkstrike help sets` prints: the names of the sets are its second paragraph.
pub const SETS: &str =
    "These are the sets of characters that --set of mkstrike make takes by name, in
letters of either case:

    ascii latin-1 latin-9 wgl4 greek cyrillic box blocks braille cp437 koi8-r
    latin-extended-a greek-block cyrillic-block hebrew arabic thai punctuation
    currency arrows math shapes kana han hangul powerline

    mkstrike make --ppem 16 --set latin-1,box font.ttf -o font.bdf

'man mkstrike-make' says more about them.
";

const MAKE: &str = "mkstrike make writes a strike: the bitmaps of characters at one size.

    mkstrike make --ppem N --chars LIST | --set NAMES | --all [OPTION].. [FONT]
                  [-o FILE]

Characters:

    --chars LIST          hexadecimal numbers and ranges, such as 20-7e,a0,20ac;
                          the letter A is 41
    --set NAMES           sets of characters by name, such as ascii or
                          latin-1,box, in place of --chars or beside it;
                          'mkstrike help sets' lists all
    --all                 all characters of the font's map, at most 65,536, in
                          place of --chars
    --refused WHAT        what to do with a character that can't be drawn: stop
                          (no strike, the default), leave-out (a strike without
                          it), or unhinted (drawn without hinting if its program
                          halts, else left out)
    --missing             name all missing characters on standard error, not
                          only the first eight

Pixels:

    --ppem N              the size in pixels per em, 1 to 1024
    --unhinted            do not run the font's own programs
    --dropout[=WHAT]      keep thin strokes whole, by left pixels (left, the
                          default), by nearer ones (near), or as the font asks
                          (font)
    --careful             refuse a character that takes too much work, for fonts
                          that you don't trust

Font:

    FONT                  the font's file; standard input by default
    --face N              which font of a collection, counted from 0; the first
                          by default
    --hex                 the font is hexadecimal text

Output:

    -o FILE               write to FILE, which appears only when it is complete;
                          - is standard output, the default
    --name NAME           the strike's name; write one that begins with a hyphen
                          as --name=-misc-..
    --property KEY=VALUE  add a property; may be given up to 64 times
    --x11                 add the properties that X11 and fontconfig look for

    mkstrike make --ppem 16 --set ascii --dropout=font font.ttf -o font.bdf
";

const SHOW: &str = "mkstrike show writes the picture of one glyph.

    mkstrike show --ppem N --char HEX | --glyph G [OPTION].. [FONT] [-o FILE]

    --ppem N          the size in pixels per em, 1 to 1024
    --char HEX        the glyph of a character, one hexadecimal number; the
                      letter A is 41
    --glyph G         a glyph by its number in the font, counted from 0, in
                      place of --char
    --unhinted        do not run the font's own programs
    --dropout[=WHAT]  keep thin strokes whole, by left pixels (left, the
                      default), by nearer ones (near), or as the font asks
                      (font)
    --careful         refuse a character that takes too much work, for fonts
                      that you don't trust
    --face N          which font of a collection, counted from 0; the first by
                      default
    --hex             the font is hexadecimal text
    -o FILE           write to FILE, which appears only when it is complete; -
                      is standard output, the default
    FONT              the font's file; standard input by default

    mkstrike show --ppem 16 --char 41 font.ttf
";

const OUTLINE: &str =
    "mkstrike outline writes the outline of one glyph: the points behind its pixels.

    mkstrike outline --ppem N --char HEX | --glyph G [OPTION].. [FONT] [-o FILE]

    --ppem N    the size in pixels per em, 1 to 1024
    --char HEX  the glyph of a character, one hexadecimal number; the letter A
                is 41
    --glyph G   a glyph by its number in the font, counted from 0, in place of
                --char
    --unhinted  do not run the font's own programs
    --careful   refuse a character that takes too much work, for fonts that you
                don't trust
    --face N    which font of a collection, counted from 0; the first by default
    --hex       the font is hexadecimal text
    -o FILE     write to FILE, which appears only when it is complete; - is
                standard output, the default
    FONT        the font's file; standard input by default

    mkstrike outline --ppem 12 --char 41 font.ttf
";

const DUMP: &str = "mkstrike dump lists one of the font's own programs.

    mkstrike dump --of WHAT [--face N] [--hex] [FONT] [-o FILE]

    --of WHAT  the program: fpgm, prep, or the number of a glyph
    --face N   which font of a collection, counted from 0; the first by default
    --hex      the font is hexadecimal text
    -o FILE    write to FILE, which appears only when it is complete; - is
               standard output, the default
    FONT       the font's file; standard input by default

    mkstrike dump --of fpgm font.ttf -o fpgm.txt
";

const TRACE: &str = "mkstrike trace writes one line for each instruction that a font's programs
execute, in order.

    mkstrike trace --ppem N --char HEX | --glyph G | --of WHAT [OPTION].. [FONT]
                   [-o FILE]

    --ppem N    the size in pixels per em, 1 to 1024
    --char HEX  the programs of a character's glyph, one hexadecimal number; the
                letter A is 41
    --glyph G   the programs of a glyph, by its number in the font, counted from
                0
    --of WHAT   the program fpgm or prep, or the number of a glyph
    --careful   refuse programs that do too much work, for fonts that you don't
                trust
    --face N    which font of a collection, counted from 0; the first by default
    --hex       the font is hexadecimal text
    -o FILE     write to FILE, which appears only when it is complete; - is
                standard output, the default
    FONT        the font's file; standard input by default

    mkstrike trace --ppem 12 --char 6c font.ttf -o l.txt
";

const FACES: &str =
    "mkstrike faces lists the fonts of a file: many of a collection (.ttc), else one.

    mkstrike faces [--hex] [FONT] [-o FILE]

    --hex    the font is hexadecimal text
    -o FILE  write to FILE, which appears only when it is complete; - is
             standard output, the default
    FONT     the font's file; standard input by default

    mkstrike faces font.ttf
";

const EXPLAIN: &str =
    "mkstrike explain writes the first mistake in a command line to standard output,
or what a refusal means and what to do.

    mkstrike explain ARGUMENT... | REFUSAL

    mkstrike explain make --ppem 12px --chars 20-7e font.ttf
";

/// What `mkstrike explain` prints of each refusal, by its number and its name, as docs/REFUSALS.md has it.
pub(crate) const REFUSALS: [(&str, &str); 42] = [
    ("10 NotTrueType", REFUSAL_10),
    ("11 TableMissing", REFUSAL_11),
    ("12 TableShort", REFUSAL_12),
    ("13 BadHead", REFUSAL_13),
    ("14 BadMaxp", REFUSAL_14),
    ("15 NoCharMap", REFUSAL_15),
    ("16 BadCharMap", REFUSAL_16),
    ("17 BadLoca", REFUSAL_17),
    ("18 GlyphShort", REFUSAL_18),
    ("19 BadContours", REFUSAL_19),
    ("20 ComponentDepth", REFUSAL_20),
    ("21 TooManyComponents", REFUSAL_21),
    ("22 TooManyPoints", REFUSAL_22),
    ("23 BadPointMatch", REFUSAL_23),
    ("24 BadGlyphNumber", REFUSAL_24),
    ("25 NoFace", REFUSAL_25),
    ("30 StackUnder", REFUSAL_30),
    ("31 StackOver", REFUSAL_31),
    ("32 BadOpcode", REFUSAL_32),
    ("33 CodeEnd", REFUSAL_33),
    ("34 BadJump", REFUSAL_34),
    ("35 NoFunction", REFUSAL_35),
    ("36 CallDepth", REFUSAL_36),
    ("37 StepLimit", REFUSAL_37),
    ("38 DivideByZero", REFUSAL_38),
    ("39 BadArgument", REFUSAL_39),
    ("40 NestedDefinition", REFUSAL_40),
    ("41 StrayEnd", REFUSAL_41),
    ("51 TooFar", REFUSAL_51),
    ("52 GlyphTooLarge", REFUSAL_52),
    ("53 TooMuchWork", REFUSAL_53),
    ("60 BadSize", REFUSAL_60),
    ("61 BadChars", REFUSAL_61),
    ("62 BadName", REFUSAL_62),
    ("63 BadProperty", REFUSAL_63),
    ("64 BadMode", REFUSAL_64),
    ("65 BadBlock", REFUSAL_65),
    ("70 WriteFailed", REFUSAL_70),
    ("71 ReadFailed", REFUSAL_71),
    ("72 BadHex", REFUSAL_72),
    ("73 InputTooLarge", REFUSAL_73),
    ("90 OutOfMemory", REFUSAL_90),
];

const REFUSAL_10: &str = "10 NotTrueType: the directory is truncated, or its version is neither 1.0
nor true; or a collection's header is truncated, or its version is neither
1.0 nor 2.0.
What to do: give a TrueType font; CFF outlines (OTTO) are not read.
";

const REFUSAL_11: &str = "11 TableMissing: a required table is not in the directory.
What to do: the font is damaged, or has no TrueType outlines.
";

const REFUSAL_12: &str = "12 TableShort: a table ends before its fields do.
What to do: the file is truncated.
";

const REFUSAL_13: &str = "13 BadHead: head has another magic number, a size of the em square outside
16 to 16384, or a loca format other than 0 and 1.
What to do: the font is damaged.
";

const REFUSAL_14: &str = "14 BadMaxp: maxp has another version than 1.0, or no glyph.
What to do: the font is damaged.
";

const REFUSAL_15: &str = "15 NoCharMap: no cmap, or no subtable of format 12 for Windows (3,10) or
Unicode (0,0 to 6), nor of format 4 for Windows (3,1), Unicode (0,0 to 3)
or symbols (3,0).
What to do: the font needs a Unicode character map: add a cmap subtable of
format 4 or 12.
";

const REFUSAL_16: &str = "16 BadCharMap: cmap is truncated, or its segments or groups are not in
ascending order.
What to do: the font is damaged.
";

const REFUSAL_17: &str = "17 BadLoca: loca is too short for glyph g, its offsets decrease, or they
begin past the end of glyf.
What to do: leave out the characters that use this glyph.
";

const REFUSAL_18: &str = "18 GlyphShort: the bytes of glyph g end too early.
What to do: leave out the characters that use this glyph.
";

const REFUSAL_19: &str = "19 BadContours: the contour end points of glyph g decrease.
What to do: leave out the characters that use this glyph.
";

const REFUSAL_20: &str = "20 ComponentDepth: component g lies deeper than 8 composites.
What to do: leave out the characters that use this glyph.
";

const REFUSAL_21: &str = "21 TooManyComponents: the character's glyph g has more than 256 component
records in its whole tree.
What to do: leave out the characters that use this glyph.
";

const REFUSAL_22: &str = "22 TooManyPoints: the character's glyph g has more than 16,384 points.
What to do: leave out the characters that use this glyph.
";

const REFUSAL_23: &str = "23 BadPointMatch: composite g matches a point that is not there.
What to do: leave out the characters that use this glyph.
";

const REFUSAL_24: &str = "24 BadGlyphNumber: the map, a composite or a number that was given names a
glyph that the font does not have.
What to do: give a number below the number of glyphs; if you gave none, the font
is damaged.
";

const REFUSAL_25: &str = "25 NoFace: the collection has no face of the number that --face gives, or
the file is no collection and the number is not 0.
What to do: give a number below the number of faces; a file that is not a
collection has only face 0.
";

const REFUSAL_30: &str = "30 StackUnder: an instruction needs more numbers than the stack holds; the
points of a loop and the pairs of a delta count too.
What to do: push enough numbers before this instruction: each program begins
with an empty stack.
";

const REFUSAL_31: &str = "31 StackOver: an instruction leaves more numbers than the stack has room
for, maxStackElements + 32.
What to do: raise maxStackElements in maxp.
";

const REFUSAL_32: &str = "32 BadOpcode: the opcode is not defined, neither by the manual nor by an
IDEF of fpgm or prep.
What to do: remove the instruction, or define its opcode with an IDEF.
";

const REFUSAL_33: &str = "33 CodeEnd: the program ends within an instruction's data, or before the
EIF or ENDF that belongs to an IF, ELSE, FDEF or IDEF.
What to do: complete the program: it is truncated, or an EIF or ENDF is missing.
";

const REFUSAL_34: &str =
    "34 BadJump: a jump leads before the first byte or past the end of the bytes
that it is in.
What to do: fix the jump's offset; a jump to the end of the program is allowed.
";

const REFUSAL_35: &str = "35 NoFunction: a call names a function that no FDEF defined.
What to do: define the function in fpgm or prep, or fix its number.
";

const REFUSAL_36: &str = "36 CallDepth: a 33rd call is open: functions call each other too deep, or
without end.
What to do: end the recursion, or nest fewer calls.
";

const REFUSAL_37: &str = "37 StepLimit: the program executed 250,000 instructions and did not end.
What to do: look for an endless loop around this address.
";

const REFUSAL_38: &str = "38 DivideByZero: DIV by 0.
What to do: test the divisor first.
";

const REFUSAL_39: &str = "39 BadArgument: a number that the instruction does not allow, such as an
index outside the stack or a point of a zone other than 0 and 1.
What to do: fix the number that was pushed for this instruction.
";

const REFUSAL_40: &str = "40 NestedDefinition: an FDEF or IDEF is inside another, before its ENDF.
What to do: end the first definition with ENDF.
";

const REFUSAL_41: &str = "41 StrayEnd: an ENDF outside a call, or the end of the bytes inside one.
What to do: remove the ENDF, or end the function with one.
";

const REFUSAL_51: &str =
    "51 TooFar: a point of the character's glyph g lies past 32,768 pixels; with
drop-out control past 32,766, if it is not the only point of its contour.
What to do: use a smaller size.
";

const REFUSAL_52: &str = "52 GlyphTooLarge: the glyph is wider or higher than 8,192 pixels; without
drop-out control a glyph whose box holds no pixel centre is never too
large.
What to do: use a smaller size.
";

const REFUSAL_53: &str = "53 TooMuchWork: only with --careful: running a character's programs, or
drawing it, takes more work than is allowed for one character, or for all
of them together; or fpgm and prep take more than is allowed for one.
What to do: if you trust the font, leave --careful out.
";

const REFUSAL_60: &str = "60 BadSize: the size is 0 or above 1,024 pixels an em.
What to do: give a size from 1 to 1024.
";

const REFUSAL_61: &str = "61 BadChars: the list of characters is malformed, has more than 65,536
numbers, or one above 10FFFF.
What to do: give hexadecimal numbers and ranges joined by commas, such as
20-7e,a0.
";

const REFUSAL_62: &str = "62 BadName: the name is not 1 to 255 bytes of 20 to 7E (hexadecimal), or
begins or ends with a space.
What to do: give a name of 1 to 255 printable ASCII characters, no space first
or last.
";

const REFUSAL_63: &str =
    "63 BadProperty: property p, counted from 1, is bad. Its name is not 1 to 64
of A to Z, 0 to 9 and _ with a letter first, or is FONT_ASCENT,
FONT_DESCENT, ENDPROPERTIES or COMMENT. Or its text has more than 32,000
bytes, or one outside 20 to 7E (hexadecimal). Or a property before it has
its name, or 64 are before it.
What to do: give another name, another text of printable ASCII characters, or
fewer properties.
";

const REFUSAL_64: &str = "64 BadMode: only in the C library: the mode has a bit that the call does
not know, or two bits of drop-out control.
What to do: give a sum of the modes of mkstrike.h.
";

const REFUSAL_65: &str =
    "65 BadBlock: only in the C library: the words are not a block of this font,
face and size, or were made hinted and the mode is unhinted, or the other
way round.
What to do: make the block by mkstrike_prepare for this font, face, size and
mode.
";

const REFUSAL_70: &str = "70 WriteFailed: the output took n bytes and then failed.
What to do: free disk space, or check the program that reads the output, and try
again.
";

const REFUSAL_71: &str = "71 ReadFailed: the input could not be read to its end.
What to do: check the device or pipe that the input comes from.
";

const REFUSAL_72: &str = "72 BadHex: with --hex: the input is not hexadecimal text.
What to do: give the font without --hex, or as the text that xxd -p prints.
";

const REFUSAL_73: &str = "73 InputTooLarge: the input has more than 67,108,864 bytes.
What to do: use a font file of at most 64 MiB.
";

const REFUSAL_90: &str = "90 OutOfMemory: memory was refused.
What to do: free memory, or ask for fewer characters or a smaller size.
";
