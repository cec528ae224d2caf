//! Laws of the definitions that the contracts cite. Each function does nothing: what it ensures is the law.
ghost use Rattle.std.specs.Prelude.{ℕ, List, ◌↔◌, IsTrue};
ghost use Rattle.xml_spec.specs.Characters.{IsText};
ghost use Rattle.text_lines.specs.Lines.{is_text};

/// The test of a text agrees with XML 1.0, 2.2: the UTF-8 of characters that a document may hold.
pub fn a_text_is_one_of_xml()
    ensures { (bytes : List ℕ) → IsTrue (is_text bytes) ↔ IsText bytes }
{}
