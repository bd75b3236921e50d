//! The output by its name.
use crate::destination::Destination;
use crate::disk::{Access, SystemDisk};
use crate::new_file::{Names, NewFile, give_name, make_new};
use crate::paths::{beside_streams, in_folder};
use crate::target::{DENIED, Target};
use std::fs::{File, Permissions};
use std::io::{ErrorKind, Stdout, Write};
use std::os::unix::fs::{OpenOptionsExt, PermissionsExt, fchown};
use std::random::RandomSource;
use std::{fs, io};

const NOT_OPENED: &str = "the system can't open it";

/// Where the output goes.
#[derive(Drop)]
pub enum Output {
    /// To standard output.
    Standard,
    /// To a device, a pipe or another file that is not plain.
    Device(File),
    /// To a new file of this name, which takes over the access of the one that it replaces, if there is one.
    New(String, Option<Access>),
}

/// The output of a run, as a place.
#[derive(Drop)]
pub struct Outlet<'a> {
    pub rt: &'a HostRuntime,
    pub output: Output,
}

/// An output that is open.
#[derive(Drop)]
pub enum OpenOutput {
    /// Standard output.
    Standard(Stdout),
    /// A device or a pipe.
    Device(File),
    /// A new file, and its name until all is written.
    New(File, String),
}

/// Why a file was not opened.
pub(crate) fn why_closed(fault: &io::Error) -> &'static str {
    if fault.kind() == ErrorKind::PermissionDenied {
        DENIED
    } else {
        NOT_OPENED
    }
}

/// The output of a name, whose target is this, or why it can't be opened.
pub(crate) fn output_of(
    rt: &HostRuntime,
    name: Option<&str>,
    target: Target,
) -> Result<Output, &'static str> {
    match (target, name) {
        (Target::New(name, older), _) => Ok(Output::New(name, older)),
        (Target::Device, Some(name)) => device_of(rt, name),
        _ => Ok(Output::Standard),
    }
}

/// A device or a pipe, or why it can't be written.
fn device_of(rt: &HostRuntime, name: &str) -> Result<Output, &'static str> {
    match File::options().write(true).open(rt, name) {
        Ok(opened) => match beside_streams(opened) {
            Some(file) => Ok(Output::Device(file)),
            None => Err(NOT_OPENED),
        },
        Err(fault) => Err(why_closed(&fault)),
    }
}

/// Makes a file beside this name, which takes over this access.
fn make_beside(rt: &HostRuntime, name: &str, older: Option<Access>) -> Option<OpenOutput> {
    let made = name_beside(rt, name)?;
    let file = make_new(&mut SystemDisk { rt }, made.as_str(), older)?;
    Some(OpenOutput::New(file, made))
}

/// A random name in the folder of this one, so that no file of another run has it.
fn name_beside(rt: &HostRuntime, name: &str) -> Option<String> {
    let mut bytes = [0; 8];
    rt.fill_bytes(&mut bytes).ok()?;
    let number = u64::from_le_bytes(bytes);
    let label = format!(in rt.alloc(); ".mkstrike-{number:016x}").ok()?;
    in_folder(rt.alloc(), name, label.as_str()).ok()
}

impl NewFile for File {
    ghost use Rattle.std.specs.Prelude.{⊤};

    ghost Gives = { λ _ _ _ _ _. ⊤ };

    ghost Sets = { λ _ _ _ _. ⊤ };

    ghost Stores = { λ _ _. ⊤ };

    fn give(&mut self, owner: Option<u32>, group: u32) -> bool {
        fchown(&*self, owner, Some(group)).is_ok()
    }

    fn set_mode(&mut self, mode: u32) -> bool {
        self.set_permissions(Permissions::from_mode(mode)).is_ok()
    }

    fn store(self) -> bool {
        self.sync_all().is_ok()
    }
}

impl<'a> Names for SystemDisk<'a> {
    ghost use Rattle.std.specs.Prelude.{⊤};

    type File = File;

    ghost Makes = { λ _ _ _ _ _. ⊤ };

    ghost Renames = { λ _ _ _ _ _. ⊤ };

    ghost Removes = { λ _ _ _. ⊤ };

    fn make(&mut self, name: &str, mode: u32) -> Option<File> {
        let opened = File::options()
            .write(true)
            .create_new(true)
            .mode(mode)
            .open(self.rt, name)
            .ok()?;
        let file = beside_streams(opened);
        if file.is_none() {
            self.remove(name);
        }
        file
    }

    fn rename(&mut self, made: &str, name: &str) -> bool {
        fs::rename(self.rt, made, name).is_ok()
    }

    fn remove(&mut self, made: &str) {
        let _ = fs::remove_file(self.rt, made);
    }
}

impl<'a> Destination for Outlet<'a> {
    ghost use Rattle.std.specs.Prelude.{⊤, None};

    type New = OpenOutput;

    ghost fresh = { None };

    ghost Names = { λ _ _ _. ⊤ };

    fn make(&self) -> Option<OpenOutput> {
        match &self.output {
            Output::Standard => Some(OpenOutput::Standard(self.rt.stdout())),
            Output::Device(file) => Some(OpenOutput::Device(file.try_clone().ok()?)),
            Output::New(name, older) => make_beside(self.rt, name.as_str(), *older),
        }
    }

    fn name(&mut self, new: OpenOutput) -> bool {
        let (OpenOutput::New(file, made), Output::New(name, _)) = (new, &self.output) else {
            return true;
        };
        let mut disk = SystemDisk { rt: self.rt };
        give_name(&mut disk, file, made.as_str(), name.as_str())
    }

    fn remove(&self, new: OpenOutput) {
        if let OpenOutput::New(file, made) = new {
            drop(file);
            SystemDisk { rt: self.rt }.remove(made.as_str());
        }
    }
}

impl Write for OpenOutput {
    fn write(&mut self, piece: &[u8]) -> io::Result<usize> {
        match self {
            OpenOutput::Standard(out) => out.write(piece),
            OpenOutput::Device(file) => file.write(piece),
            OpenOutput::New(file, _) => file.write(piece),
        }
    }

    fn flush(&mut self) -> io::Result<()> {
        match self {
            OpenOutput::Standard(out) => out.flush(),
            OpenOutput::Device(file) => file.flush(),
            OpenOutput::New(file, _) => file.flush(),
        }
    }
}
