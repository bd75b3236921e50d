//! What a system says of names of files.

use crate::output::why_closed;
use std::fs::{File, Metadata};
use std::io::ErrorKind;
use std::os::unix::fs::MetadataExt;
use std::{fs, io};

/// Where a name leads.
#[derive(Drop)]
pub enum Link {
    /// It is a link to this name, which counts from the link's folder.
    To(String),
    /// It is no link, or nothing has it.
    Ends,
    /// The system does not say.
    Unread,
}

/// Which file of which device a file is.
#[derive(Clone, Copy)]
pub struct FileId {
    pub device: u64,
    pub number: u64,
}

/// Whose a file is, its mode, and which file it is.
#[derive(Clone, Copy)]
pub struct Access {
    pub owner: u32,
    pub group: u32,
    pub mode: u32,
    pub is_read_only: bool,
    pub id: FileId,
}

/// What has a name. Links are followed.
#[derive(Clone, Copy)]
pub enum Found {
    /// A folder.
    Folder,
    /// A plain file.
    Plain(Access),
    /// A device, a pipe or another file that is not plain.
    Other,
    /// Nothing.
    Nothing,
    /// The system does not let the user look.
    Denied,
    /// The system fails to look.
    Unknown,
}

/// A system, as far as it is asked about names.
pub trait Disk {
    ghost use Rattle.std.specs.Prelude.{ℕ, List, Option};
    ghost use Rattle.fx_words.specs.Parts.{text_in};
    ghost use Rattle.fx_front.specs.declared.disk.FileId.{FileId};
    ghost use Rattle.fx_front.specs.declared.disk.Found.{Found};
    ghost use Rattle.fx_front.specs.declared.disk.Link.{Link};

    // Where a name leads.
    ghost Leads: { Self → List ℕ → Link → Type 0 };

    // What has a name, if links are followed.
    ghost Has: { Self → List ℕ → Found → Type 0 };

    // Which file has a name itself, also if it is a link; none if the system does not say.
    ghost Is: { Self → List ℕ → Option FileId → Type 0 };

    // Why the plain file of a name can't be written; none if it can.
    ghost Guards: { Self → List ℕ → Option (List ℕ) → Type 0 };

    /// Where a name leads.
    fn link(&self, name: &str) -> Link
        ensures { Leads self.now name.now result };

    /// What has a name, if links are followed.
    fn found(&self, name: &str) -> Found
        ensures { Has self.now name.now result };

    /// Which file has a name itself, also if it is a link; none if the system does not say.
    fn file_id(&self, name: &str) -> Option<FileId>
        ensures { Is self.now name.now result };

    /// Why the plain file of a name can't be written; none if it can.
    fn guard(&self, name: &str) -> Option<&'static str>
        ensures { Guards self.now name.now (text_in result) };
}

/// The system itself.
#[derive(Clone, Copy)]
pub(crate) struct SystemDisk<'a> {
    pub rt: &'a HostRuntime,
}

impl<'a> Disk for SystemDisk<'a> {
    ghost use Rattle.std.specs.Prelude.{⊤};

    ghost Leads = { λ _ _ _. ⊤ };

    ghost Has = { λ _ _ _. ⊤ };

    ghost Is = { λ _ _ _. ⊤ };

    ghost Guards = { λ _ _ _. ⊤ };

    fn link(&self, name: &str) -> Link {
        match fs::read_link(self.rt, name) {
            Ok(path) => Link::To(path.into_string()),
            Err(fault) => unread_link(&fault),
        }
    }

    fn found(&self, name: &str) -> Found {
        match fs::metadata(self.rt, name) {
            Ok(found) => kind_of(&found),
            Err(fault) => unfound(&fault),
        }
    }

    fn file_id(&self, name: &str) -> Option<FileId> {
        match fs::symlink_metadata(self.rt, name) {
            Ok(found) => Some(id_of(&found)),
            Err(_) => None,
        }
    }

    fn guard(&self, name: &str) -> Option<&'static str> {
        match File::options().append(true).open(self.rt, name) {
            Ok(_) => None,
            Err(fault) => Some(why_closed(&fault)),
        }
    }
}

/// Where a name leads whose link can't be read: it is no link, or the system does not say.
fn unread_link(fault: &io::Error) -> Link {
    match fault.kind() {
        ErrorKind::InvalidInput | ErrorKind::NotFound => Link::Ends,
        _ => Link::Unread,
    }
}

/// What has a name at which nothing is found.
fn unfound(fault: &io::Error) -> Found {
    match fault.kind() {
        ErrorKind::NotFound => Found::Nothing,
        ErrorKind::PermissionDenied => Found::Denied,
        _ => Found::Unknown,
    }
}

/// What was found.
fn kind_of(found: &Metadata) -> Found {
    if found.is_dir() {
        Found::Folder
    } else if found.is_file() {
        Found::Plain(Access {
            owner: found.uid(),
            group: found.gid(),
            mode: found.mode(),
            is_read_only: found.permissions().readonly(),
            id: id_of(found),
        })
    } else {
        Found::Other
    }
}

/// Which file it is.
fn id_of(found: &Metadata) -> FileId {
    FileId {
        device: found.dev(),
        number: found.ino(),
    }
}
