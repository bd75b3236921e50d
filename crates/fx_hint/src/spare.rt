//! Lists that one outline leaves to the next.

ghost use Rattle.std.specs.Prelude.{◌≡◌, []};

use crate::made::Made;
use fx_outline::Outline;
use std::alloc::Global;
use std::marker::Model;

/// The lists of an outline that is done with, which the next one fills anew, so that it asks for no memory. What they hold has no
/// part in the next outline. Contracts see the points and the contours of the outline that was given back.
#[derive(Drop)]
pub struct Spare {
    /// The root before its points were moved.
    pub(crate) root: Made,
    pub(crate) component: Made,
    pub(crate) outline: Outline,
}

impl Model for Spare {
    ghost use Rattle.std.specs.Prelude.{ℕ, List};
    ghost use Rattle.fx_outline.specs.declared.points.OutlinePoint.{OutlinePoint};

    ghost Value = { List OutlinePoint × List ℕ };

    ghost view = { λ s. (s.outline.points.items, s.outline.ends.items) };
}

/// An outline without lists.
pub(crate) fn no_outline(alloc: Global) -> Outline
    ensures points { result.points.items ≡ [] }
    ensures ends { result.ends.items ≡ [] }
{
    Outline {
        points: Vec::new(alloc),
        ends: Vec::new(alloc),
    }
}

impl Spare {
    /// Lists without memory.
    pub fn new(alloc: Global) -> Spare
        ensures { result ≡ ([], []) }
    {
        Spare {
            root: Made::empty(alloc),
            component: Made::empty(alloc),
            outline: no_outline(alloc),
        }
    }

    /// Takes the lists of an outline that is done with.
    #[inline(always)]
    pub fn give_back(&mut self, outline: Outline)
        ensures { self.new ≡ (outline.points.items, outline.ends.items) }
    {
        self.outline = outline;
    }
}
