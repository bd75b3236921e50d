//! The faces of a font file, with their names.
ghost use Rattle.std.specs.Prelude.{◌≡◌, ◌+◌, ◌<◌, ◌≤◌, ◌^◌, [], codes, length, take, OnOk, IfErr};
ghost use Rattle.fx_fixed.specs.Changes.{change_of};
ghost use Rattle.fx_fixed.specs.Texts.{Adds, Fails, length_of};
ghost use Rattle.fx_fixed.specs.Wrote.{Wrote};
ghost use Rattle.fx_front.specs.Lines.{shown_text};
ghost use Rattle.fx_sfnt.specs.Collections.{face_in};
ghost use Rattle.fx_sfnt.specs.Tables.{font_of};
ghost use Rattle.fx_cli.specs.Faces.{face_line, face_lines, face_said, longest_lines, longest_name, name_said, names_said};
ghost use Rattle.fx_cli.specs.Runs.{FacesLeave};

use fx_fixed::{Digits, Sink, TextWriter, WriteFailed};
use fx_front::shown;
use fx_names::Name;
use fx_request::Refusal;
use fx_sfnt::{Font, FontFile};

/// How many bytes a name has at most that is shown.
const LONGEST: usize = 1024;

/// Writes a line for each face of a font file: its number, its family and its style, with a tab between two. A face that is refused
/// has `-` for both, but the first face's refusal is the file's, and then nothing is written. No memory is taken.
#[tactic(auto, unfolding(crate::specs::Faces::faces_of))]
pub fn put_faces<O: Sink>(font: &FontFile<'_>, out: &mut O) -> Result<(), Refusal>
    requires { O.fault_count out.old < 2 ^ 63 }
    ensures { FacesLeave font.now (change_of O.held O.fault_count out.old out.new) result }
{
    Font::open(&FontFile::of(font.bytes()))?;
    let count = font.face_count()?;
    put_lines(font.bytes(), count, out)?;
    Ok(())
}

/// Writes the lines of the first faces.
fn put_lines<O: Sink>(bytes: &[u8], count: u32, out: &mut O) -> Result<(), WriteFailed>
    requires { O.fault_count out.old < 2 ^ 63 }
    ensures { Wrote (change_of O.held O.fault_count out.old out.new) (face_lines bytes.now count) result }
{
    let mut text = TextWriter::new(out);
    let result = add_lines(bytes, count, &mut text);
    text.close();
    result
}

/// Adds the lines of the first faces to a text, and ends it.
fn add_lines<O: Sink>(
    bytes: &[u8],
    count: u32,
    text: &mut TextWriter<'_, O>,
) -> Result<(), WriteFailed>
    requires { text.old.faults < 2 ^ 63 }
    ensures text { Adds Fails text.old text.new (face_lines bytes.now count) result }
    ensures ended { OnOk result (text.new.waiting ≡ []) }
    ensures short { IfErr result (λ e. e.0 ≤ length_of text.old + longest_lines) }
{
    add_faces(bytes, count, text)?;
    text.end()
}

/// Adds the lines of the first faces.
fn add_faces<O: Sink>(
    bytes: &[u8],
    count: u32,
    text: &mut TextWriter<'_, O>,
) -> Result<(), WriteFailed>
    requires { text.old.faults < 2 ^ 63 }
    ensures text { Adds Fails text.old text.new (face_lines bytes.now count) result }
    // So the count in a write fault is exact.
    ensures short { length (face_lines bytes.now count) ≤ longest_lines }
{
    // The lines of the faces before this one were added.
    'faces: for face in 0..count {
        add_face(bytes, face, text)?;
    }
    Ok(())
}

/// Adds the line of a face.
#[tactic(auto, unfolding(crate::specs::Faces::face_line))]
fn add_face<O: Sink>(
    bytes: &[u8],
    face: u32,
    text: &mut TextWriter<'_, O>,
) -> Result<(), WriteFailed>
    requires { text.old.faults < 2 ^ 63 }
    ensures { Adds Fails text.old text.new (face_line bytes.now face) result }
{
    text.add(&[Digits::unsigned(u64::from(face)).text(), b"\t"])?;
    add_said(bytes, face, text)?;
    text.add(&[b"\n"])
}

/// Adds the names of a face, or marks for a face that is refused.
fn add_said<O: Sink>(
    bytes: &[u8],
    face: u32,
    text: &mut TextWriter<'_, O>,
) -> Result<(), WriteFailed>
    requires { text.old.faults < 2 ^ 63 }
    ensures { Adds Fails text.old text.new (face_said (font_of (face_in bytes.now face))) result }
{
    match Font::open(&FontFile::new(bytes, face)) {
        Ok(font) => add_names(&font, text),
        Err(_) => text.add(&[b"-\t-"]),
    }
}

/// Adds the family and the style of a face.
fn add_names<O: Sink>(font: &Font<'_>, text: &mut TextWriter<'_, O>) -> Result<(), WriteFailed>
    requires { text.old.faults < 2 ^ 63 }
    ensures { Adds Fails text.old text.new (names_said font.now) result }
{
    add_name(Name::of(font, 16).or(Name::of(font, 1)), b"-", text)?;
    text.add(&[b"\t"])?;
    add_name(Name::of(font, 17).or(Name::of(font, 2)), b"Regular", text)
}

/// Adds a name, or another text if there is none or it is too long.
fn add_name<O: Sink>(
    name: Option<Name<'_>>,
    otherwise: &[u8],
    text: &mut TextWriter<'_, O>,
) -> Result<(), WriteFailed>
    requires { text.old.faults < 2 ^ 63 }
    ensures { Adds Fails text.old text.new (name_said name.entry otherwise.now) result }
{
    let mut buffer = [0; LONGEST];
    match name {
        Some(name) if name.len() <= LONGEST => {
            let count = put_shown_name(&name, &mut buffer);
            text.add(&[&buffer[..count]])
        }
        _ => text.add(&[otherwise]),
    }
}

/// Puts a name as a line shows it at the front of a buffer, and returns in how many bytes.
fn put_shown_name(name: &Name<'_>, buffer: &mut [u8; LONGEST]) -> usize
    requires { length name.now ≤ longest_name }
    ensures within { result ≤ longest_name }
    ensures shown { take result buffer.new ≡ shown_text name.now }
{
    name.put(buffer);
    let count = name.len();
    // The bytes before i are shown.
    'bytes: for i in 0..count {
        buffer[i] = shown(buffer[i]);
    }
    count
}
