//! Laws of the IDs, each the contract of a function that does nothing.

ghost use Rattle.saml_ids.specs.Laws.{EveryIdIsUsable, NumbersGiveTheirIds, KeyGivesAnIdOnce};

/// An ID is `_` and 56 lower hex digits, and so a Name without a colon (Namespaces in XML 1.0, 3, NCName), and a text that
/// a document may hold.
pub fn every_id_is_a_name()
    ensures { EveryIdIsUsable }
{}

/// Two numbers below 2^64 give two IDs, whatever the keys and the kinds.
pub fn numbers_give_their_ids()
    ensures { NumbersGiveTheirIds }
{}

/// Two IDs of one key are equal only where their numbers are.
pub fn key_gives_an_id_once()
    ensures { KeyGivesAnIdOnce }
{}
