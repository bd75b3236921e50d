//! A new file, which is made under a name of its own and gets its name when all is written.
ghost use Rattle.std.specs.Prelude.{◌≡◌};
ghost use Rattle.fx_front.specs.NewFiles.{IsMade, IsNamed, TakesOver};
ghost use Rattle.fx_front.specs.Places.{kept_mode, new_mode};

use crate::disk::Access;
use std::io::Write;

/// The mode of a new file, until it takes over that of an older one: only its owner may read and write it.
const PRIVATE: u32 = 0o600;

/// The mode that a new file asks for if it replaces none; the system takes away what the user's mask says.
const SHARED: u32 = 0o666;

/// An open file that has no name for the user yet.
pub trait NewFile: Write {
    ghost use Rattle.std.specs.Prelude.{ℕ, Bool, Option};

    // It was given an owner, if one is named, and a group; or the system refused that.
    ghost Gives: { Self → Option ℕ → ℕ → Bool → Self → Type 0 };

    // It was given a mode; or the system refused that.
    ghost Sets: { Self → ℕ → Bool → Self → Type 0 };

    // It was closed, and the system stored all of it; or it failed to.
    ghost Stores: { Self → Bool → Type 0 };

    /// Gives it an owner, if one is named, and a group. Returns whether the system did so.
    fn give(&mut self, owner: Option<u32>, group: u32) -> bool
        ensures { Gives self.old owner group result self.new };

    /// Gives it a mode. Returns whether the system did so.
    fn set_mode(&mut self, mode: u32) -> bool
        ensures { Sets self.old mode result self.new };

    /// Closes it. Returns whether the system stored all of it.
    fn store(self) -> bool
        ensures { Stores self result };
}

/// The names of files, as far as a new file is made, named or removed.
pub trait Names {
    ghost use Rattle.std.specs.Prelude.{ℕ, Bool, List, Option, Some, IfSome, IfNone};

    type File: NewFile + Drop;

    // A file was made under a name that nothing had, with a mode; or none was.
    ghost Makes: { Self → List ℕ → ℕ → Option Self.File → Self → Type 0 };

    // The file of a name got another, and what had that has it no more; or the system refused that.
    ghost Renames: { Self → List ℕ → List ℕ → Bool → Self → Type 0 };

    // The file of a name was removed, if the system let it.
    ghost Removes: { Self → List ℕ → Self → Type 0 };

    /// Makes a file of a name that nothing has, with this mode.
    fn make(&mut self, name: &str, mode: u32) -> Option<Self::File>
        ensures { Makes self.old name.now mode result self.new };

    /// Gives the file of a name another, which it takes from what has it. Returns whether the system did so.
    fn rename(&mut self, made: &str, name: &str) -> bool
        ensures { Renames self.old made.now name.now result self.new };

    /// Removes the file of a name, if the system lets it.
    fn remove(&mut self, made: &str)
        ensures { Removes self.old made.now self.new };
}

/// Makes a file of this name, which takes over this access.
pub fn make_new<N: Names>(names: &mut N, made: &str, older: Option<Access>) -> Option<N::File>
    ensures { IsMade N.File.Gives N.File.Sets N.Makes made.now older names.old result names.new }
{
    let mut file = names.make(made, new_mode(older))?;
    if let Some(older) = older {
        take_over(&mut file, older);
    }
    Some(file)
}

/// Gives a new file an older one's owner, group and mode, as far as the system allows.
fn take_over<F: NewFile>(file: &mut F, older: Access)
    ensures { TakesOver F.Gives F.Sets older file.old file.new }
{
    if !file.give(Some(older.owner), older.group) {
        file.give(None, older.group);
    }
    file.set_mode(kept_mode(older.mode));
}

/// Gives a new file its name, once all of it is stored. If either fails the file is removed. Returns whether it got its name.
pub fn give_name<N: Names>(names: &mut N, file: N::File, made: &str, name: &str) -> bool
    ensures { IsNamed N.File.Stores N.Renames N.Removes file made.now name.now names.old result names.new }
{
    if file.store() && names.rename(made, name) {
        return true;
    }
    names.remove(made);
    false
}

/// The mode that a new file is made with.
fn new_mode(older: Option<Access>) -> u32
    ensures { result ≡ new_mode older }
{
    if older.is_some() { PRIVATE } else { SHARED }
}

/// What a new file keeps of an older one's mode: who may read, write and run it. No program ever runs by it as its owner or group.
fn kept_mode(mode: u32) -> u32
    ensures { result ≡ kept_mode mode }
{
    mode % 0o1000
}
