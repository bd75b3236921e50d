//! Open composites.

ghost use Rattle.std.specs.Prelude.{◌≡◌, ◌-◌, ◌≤◌, ◌++◌, [], ◌∷◌, length, MatchOption, OnOk};
ghost use Rattle.fx_hint.specs.Limits.{max_depth};
ghost use Rattle.fx_hint.specs.inner.Places.{present};
ghost use Rattle.fx_hint.specs.inner.Steps.{opened};

use crate::component::Node;
use crate::limits::MAX_DEPTH;
use crate::made::Made;
use fx_glyf::{Component, Components, Composite};
use smallvec::SmallVec;
use std::alloc::{AllocError, Global};
use std::marker::Model;

/// A composite that is open: the components that are left, and its points so far with its phantom points.
#[derive(Drop)]
pub struct OpenComposite<'a> {
    pub node: Node,
    /// How many of its components come before those that are left.
    pub before: usize,
    pub glyph: Composite<'a>,
    pub left: Components<'a>,
    pub base: Made,
}

impl<'a> OpenComposite<'a> {
    /// A composite that is opened, before its first component. `base` has its phantom points.
    #[inline(always)]
    pub fn new(node: Node, glyph: Composite<'a>, base: Made) -> OpenComposite<'a>
        ensures { result ≡ opened node glyph.entry base }
    {
        let left = glyph.components();
        OpenComposite {
            node,
            before: 0,
            glyph,
            left,
            base,
        }
    }
}

/// An open composite that waits for one of its components.
#[derive(Drop)]
pub struct Waiting<'a> {
    pub component: Component,
    pub composite: OpenComposite<'a>,
}

/// How many composites can wait without memory. Few fonts have composites in composites in composites.
const INLINE: usize = 2;

/// The composites that wait, the root first. With the innermost open composite, which does not wait, there are at most nine.
#[derive(Drop)]
pub struct Below<'a> {
    places: SmallVec<Option<Waiting<'a>>, INLINE>,
}

impl<'a> Model for Below<'a> {
    ghost use Rattle.std.specs.Prelude.{List, IsSome};
    ghost use Rattle.std.specs.List.{All};
    ghost use Rattle.fx_hint.specs.declared.below.Waiting.{Waiting};
    ghost use Rattle.fx_hint.specs.inner.Places.{present};

    ghost Value = { List Waiting };

    ghost view = { λ b. present b.places.items };

    ghost invariant = { λ b. All IsSome b.places.items };
}

impl<'a> Below<'a> {
    /// No composite waits.
    pub fn new(alloc: Global) -> Below<'a>
        ensures { result ≡ [] }
    {
        Below {
            places: SmallVec::new(alloc),
        }
    }

    /// The number of levels that are allowed below the composites that wait.
    #[tactic(auto, using(crate::proofs::Places::present_length))]
    pub fn levels(&self) -> u8
        requires { length self.now ≤ max_depth }
        ensures { result ≡ max_depth - length self.now }
    {
        MAX_DEPTH - self.places.len() as u8
    }

    /// One more composite waits.
    pub fn push(&mut self, waiting: Waiting<'a>) -> Result<(), AllocError>
        ensures { OnOk result (self.new ≡ self.old ++ waiting.entry ∷ []) }
    {
        self.places.push(Some(waiting))?;
        Ok(())
    }

    /// The innermost composite that waits, if there is one; it waits no more.
    pub fn pop(&mut self) -> Option<Waiting<'a>>
        ensures { MatchOption result (self.old ≡ []) (λ w. self.old ≡ self.new ++ w ∷ []) }
    {
        match self.places.pop() {
            Some(place) => place,
            None => None,
        }
    }
}
