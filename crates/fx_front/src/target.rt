//! Where the output of a name goes.
ghost use Rattle.std.specs.Prelude.{◌≡◌, IfOk};
ghost use Rattle.fx_words.specs.Parts.{has, text_in};
ghost use Rattle.fx_front.specs.Places.{standard};
ghost use Rattle.fx_front.specs.Targets.{FinalName, GoesTo, GoesToName, HasFolder, IsFont, IsStill, Unreplaced};
ghost use Rattle.fx_front.specs.Targets.{exists, folder_of, is_same, seen_target};

use crate::disk::{Access, Disk, FileId, Found};
use crate::paths::{folder_of, followed};
use fx_words::has;
use std::alloc::{AllocError, Global};

pub(crate) const NO_FOLDER: &str = "no file can be made in its folder";

pub(crate) const DENIED: &str = "permission denied";

/// The names of standard output.
const STANDARD: [&str; 4] = ["-", "/dev/stdout", "/dev/fd/1", "/proc/self/fd/1"];

/// Where an output goes.
#[derive(Drop)]
pub enum Target {
    /// To standard output.
    Standard,
    /// To the device, the pipe or the other file of its name that is not plain.
    Device,
    /// To a new file of this name, which takes over the access of the one that it replaces, if there is one.
    New(String, Option<Access>),
}

/// Where the output of this name goes, by default standard output; or why it is not written. It never replaces the font.
pub fn target_of<D: Disk>(
    alloc: Global,
    disk: &D,
    name: Option<&str>,
    font: &str,
) -> Result<Result<Target, &'static str>, AllocError>
    ensures { IfOk result (λ target. GoesTo (D.Leads disk.now) (D.Has disk.now) (D.Is disk.now) (D.Guards disk.now)
        (text_in name.entry) font.now (seen_target target)) }
{
    match name {
        Some(name) if !is_standard(name) => named_target(alloc, disk, name, font),
        _ => Ok(Ok(Target::Standard)),
    }
}

/// Whether this is a name of standard output.
fn is_standard(name: &str) -> bool
    ensures { result ≡ has standard name.now }
{
    has(&STANDARD, name)
}

/// The same of a name that is none of standard output.
fn named_target<D: Disk>(
    alloc: Global,
    disk: &D,
    name: &str,
    font: &str,
) -> Result<Result<Target, &'static str>, AllocError>
    ensures { IfOk result (λ target. GoesToName (D.Leads disk.now) (D.Has disk.now) (D.Is disk.now) (D.Guards disk.now)
        name.now font.now (seen_target target)) }
{
    match disk.found(name) {
        Found::Folder => Ok(Err("it is a folder")),
        Found::Plain(older) => match unreplaced(disk, name, font, older) {
            Some(why) => Ok(Err(why)),
            None => new_target(alloc, disk, name, Some(older)),
        },
        Found::Other => Ok(Ok(Target::Device)),
        Found::Nothing => new_target(alloc, disk, name, None),
        Found::Denied => Ok(Err(DENIED)),
        Found::Unknown => Ok(Err(NO_FOLDER)),
    }
}

/// Why a plain file is not replaced.
fn unreplaced<D: Disk>(disk: &D, name: &str, font: &str, older: Access) -> Option<&'static str>
    ensures { Unreplaced (D.Has disk.now) (D.Guards disk.now) name.now font.now older (text_in result) }
{
    if is_font(disk, font, older.id) {
        return Some("it is the font");
    }
    if older.is_read_only {
        return Some("it is read-only");
    }
    // Ask by the name as it is given: the system may guard a link.
    disk.guard(name)
}

/// Whether a file is the font.
fn is_font<D: Disk>(disk: &D, font: &str, file: FileId) -> bool
    ensures { IsFont (D.Has disk.now) font.now file result }
{
    match disk.found(font) {
        Found::Plain(other) => is_same(other.id, file),
        _ => false,
    }
}

/// Whether two files are one.
fn is_same(one: FileId, other: FileId) -> bool
    ensures { result ≡ is_same one other }
{
    one.device == other.device && one.number == other.number
}

/// A new file of this name, or of the name that it is a link to, which takes over this access; or why it can't be made.
fn new_target<D: Disk>(
    alloc: Global,
    disk: &D,
    name: &str,
    older: Option<Access>,
) -> Result<Result<Target, &'static str>, AllocError>
    ensures { IfOk result (λ target. FinalName (D.Leads disk.now) (D.Has disk.now) (D.Is disk.now)
        (D.Guards disk.now) name.now older (seen_target target)) }
{
    let Some(name) = followed(alloc, disk, name)? else {
        return Ok(Err("it is a link that can't be followed"));
    };
    if !has_folder(disk, name.as_str()) {
        return Ok(Err(NO_FOLDER));
    }
    if !is_still(disk, name.as_str(), older) {
        return Ok(Err("another file got its name meanwhile"));
    }
    Ok(Ok(Target::New(name, older)))
}

/// Whether the folder of a name exists.
fn has_folder<D: Disk>(disk: &D, name: &str) -> bool
    ensures { HasFolder (D.Has disk.now) (folder_of name.now) result }
{
    let folder = folder_of(name);
    folder.is_empty() || exists(disk.found(folder))
}

/// Whether something was found.
fn exists(found: Found) -> bool
    ensures { result ≡ exists found }
{
    match found {
        Found::Folder | Found::Plain(_) | Found::Other => true,
        Found::Nothing | Found::Denied | Found::Unknown => false,
    }
}

/// Whether a name is still that of the file that was looked at, if there was one. If a link came meanwhile, the new file would take
/// over the access of one file and replace another.
fn is_still<D: Disk>(disk: &D, name: &str, older: Option<Access>) -> bool
    ensures { IsStill (D.Is disk.now) name.now older result }
{
    let Some(older) = older else {
        return true;
    };
    match disk.file_id(name) {
        Some(id) => is_same(id, older.id),
        None => false,
    }
}
