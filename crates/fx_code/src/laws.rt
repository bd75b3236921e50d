//! What the definitions imply.

ghost use Rattle.fx_code.specs.Chain.{SkipIsOne, DefinitionSkipIsOne};
ghost use Rattle.fx_code.specs.Past.{PastOfIsPast, PastDefinitionOfIsPast};
ghost use Rattle.fx_code.specs.Listing.{AddressesAreOne, AddressesOfAreAddresses};

/// A skip has one result.
#[tactic(auto, using(crate::proofs::Unique::leads_one))]
pub fn skip_is_one()
    ensures { SkipIsOne }
{}

/// A skip has a result, and `past_of` gives it.
#[tactic(auto, using(crate::proofs::Exists::past_is))]
pub fn skip_exists()
    ensures { PastOfIsPast }
{}

/// A skip past a definition has one result.
#[tactic(auto, using(crate::proofs::Unique::leads_definition_one))]
pub fn definition_skip_is_one()
    ensures { DefinitionSkipIsOne }
{}

/// A skip past a definition has a result, and `past_definition_of` gives it.
#[tactic(auto, using(crate::proofs::Exists::past_definition_is))]
pub fn definition_skip_exists()
    ensures { PastDefinitionOfIsPast }
{}

/// A program has one list of addresses.
pub fn addresses_are_one()
    ensures { AddressesAreOne }
{}

/// The addresses of a listing are that list.
pub fn addresses_of_are_addresses()
    ensures { AddressesOfAreAddresses }
{}
