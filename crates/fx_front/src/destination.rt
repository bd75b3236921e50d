//! Where a new file is made.

use std::io::Write;

/// A place where a new file is made, and gets its name when all is done.
pub trait Destination {
    ghost use Rattle.std.specs.Prelude.{◌≡◌, ℕ, Bool, List, Option, IfSome, is_some, true, false};

    type New: Write + Drop;

    // What a new file holds, if that is known.
    ghost fresh: { Option (List ℕ) };

    // A file with these bytes got the name.
    ghost Names: { Self → Option (List ℕ) → Self → Type 0 };

    // Files are made there, and get their names, for certain.
    ghost works: { Self → Bool } = { λ _. false };

    /// Makes the file, if it can be made. It has no name yet.
    fn make(&self) -> Option<Self::New>
        ensures fresh { IfSome result (λ new. Self.New.contents new ≡ fresh) }
        ensures made { works self.now ≡ true → is_some result ≡ true };

    /// Gives the file its name. If that fails the file is removed, and what has the name stays as it is.
    fn name(&mut self, new: Self::New) -> bool
        ensures named { result ≡ true → Names self.old (Self.New.contents new) self.new }
        ensures sure { works self.old ≡ true → result ≡ true }
        ensures spared { result ≡ false → self.new ≡ self.old };

    /// Removes the file. What has the name stays as it is.
    fn remove(&self, new: Self::New);
}
