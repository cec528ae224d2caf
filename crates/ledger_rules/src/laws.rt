//! Laws of the definitions that contracts cite. Each function does nothing: what it ensures is the law.
ghost use Rattle.std.specs.Prelude.{ℕ, List, ◌↔◌, IsTrue};
ghost use Rattle.xml_spec.specs.Characters.{IsText};
ghost use Rattle.ledger_rules.specs.Numbers.{is_xml_text};

/// The test of a record's text agrees with XML 1.0, 2.2: the UTF-8 of characters that a document may hold.
pub fn an_allowed_text_may_stand()
    ensures { (text : List ℕ) → IsTrue (is_xml_text text) ↔ IsText text }
{}
