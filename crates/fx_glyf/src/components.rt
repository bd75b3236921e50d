//! The components of a composite glyph.

ghost use Rattle.std.specs.Prelude.{◌≡◌, IsSome, true};
ghost use Rattle.fx_glyf.specs.Words.{list_in};
ghost use Rattle.fx_glyf.specs.Components.{components_in};

use crate::component::{Component, is_followed};
use crate::records::{component_size, next_component};
use fx_fixed::after;
use std::marker::Model;

/// The components that are left; their bytes are complete.
#[derive(Drop)]
pub struct Components<'a> {
    more: bool,
    bytes: &'a [u8],
}

impl<'a> Model for Components<'a> {
    ghost use Rattle.std.specs.Prelude.{List, IsSome};
    ghost use Rattle.fx_glyf.specs.Words.{list_in};
    ghost use Rattle.fx_glyf.specs.Components.{components_in};
    ghost use Rattle.fx_glyf.specs.declared.component.Component.{Component};

    ghost Value = { List Component };

    ghost view = { λ c. list_in (components_in c.more c.bytes.now) };

    ghost invariant = { λ c. IsSome (components_in c.more c.bytes.now) };
}

impl<'a> Components<'a> {
    /// The components at the front of the bytes, up to the last.
    pub(crate) fn new(bytes: &'a [u8]) -> Components<'a>
        requires { IsSome (components_in true bytes.now) }
        ensures { result ≡ list_in (components_in true bytes.now) }
    {
        Components { more: true, bytes }
    }
}

impl<'a> Iterator for Components<'a> {
    type Item = Component;

    ghost use Rattle.std.specs.Iterator.{YieldsFirst, item_count};

    ghost next_gives = { YieldsFirst (λ ps. ps) };

    ghost remaining = { item_count (λ ps. ps) };

    #[tactic(auto, using(crate::proofs::ComponentRecords::next_steps))]
    fn next(&mut self) -> Option<Component> {
        if !self.more {
            return None;
        }
        match next_component(self.bytes) {
            None => None,
            Some(component) => {
                let flags = component.flags;
                self.more = is_followed(flags);
                self.bytes = after(self.bytes, component_size(flags));
                Some(component)
            }
        }
    }
}
