//! Texts cut at a separator.
ghost use Rattle.std.specs.Prelude.{◌≡◌, ◌∷◌, ◌<◌, length, option_map, IfSome};
ghost use Rattle.fx_arguments.specs.Parts.{left_parts, parts_of};

/// The first part of a text, and what is left after its separator.
#[tactic(auto, using(crate::proofs::Items::parts_cut, crate::proofs::Items::parts_whole))]
pub fn first_part(text: &str, separator: char) -> (&str, Option<&str>)
    requires { separator < 128 }
    ensures parts { parts_of separator text.entry.now
        ≡ result.0.now ∷ left_parts separator (option_map (λ more. more.now) result.1) }
    ensures shorter { IfSome result.1 (λ more. length more.now < length text.entry.now) }
{
    match text.split_once(separator) {
        Some((part, more)) => (part, Some(more)),
        None => (text, None),
    }
}
