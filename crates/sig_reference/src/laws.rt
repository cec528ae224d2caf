//! Laws of the definitions that the contracts cite. Each function does nothing: what it ensures is the law.
ghost use Rattle.std.specs.Prelude.{◌≡◌, ℕ, ◌≤◌, List, [], length, codes, Some, None, IsTrue};
ghost use Rattle.xml_spec.specs.declared.TheConstants.{MAX_DOCUMENT_LENGTH};
ghost use Rattle.xml_spec.specs.Tree.{Nodes};
ghost use Rattle.xml_spec.specs.Document.{Spells};
ghost use Rattle.xml_spec.specs.Identifiers.{IsSingle};
ghost use Rattle.xml_spec.specs.Content.{content};
ghost use Rattle.saml_names.specs.Names.{ds};
ghost use Rattle.tree_read.specs.Children.{children};
ghost use Rattle.element_make.specs.Made.{Made, IsMade, tree_of, written};
ghost use Rattle.sig_reference.specs.Form.{Parts, HasForm, HasFirstForm};
ghost use Rattle.sig_reference.specs.Placing.{Around, filled, place_in};
ghost use Rattle.sig_reference.specs.Signature.{Vouches};
ghost use Rattle.sig_reference.specs.Signing.{CanBeSigned, CanBeChecked, signed, has_no_signature};

/// An element has one signature at most, whether it is asked for behind the Issuer or as the first child: no two readings
/// of its form differ in any part.
pub fn a_signature_is_one()
    ensures behind_issuer { (tree : Nodes) (e : ℕ) (p q : Parts) → HasForm tree e p → HasForm tree e q → p ≡ q }
    ensures in_front { (tree : Nodes) (e : ℕ) (p q : Parts) → HasFirstForm tree e p → HasFirstForm tree e q → p ≡ q }
{}

/// What is signed has a signature of the form that is asked for, wherever its written form is read, also where it was
/// put into another element, as deep as it may be; and without the Signature it says what was signed: the canonical
/// form of an element is the same wherever it stands, since it has those declarations alone that its own names use
/// (Exclusive XML Canonicalization 1.0, 1.1 and 3). So it is, however long it is.
pub fn what_is_signed_says_the_same()
    ensures alone { (key : List ℕ) (made : Made) (tree : Nodes) → IsMade made → CanBeSigned made →
        Spells (written (signed key made)) tree →
        (parts : Parts) × HasForm tree 0 parts
        × (content tree 0 (Some parts.signature) ≡ content (tree_of made) 0 None) }
    ensures inside { (key : List ℕ) (around : Around) (outer made : Made) (tree : Nodes) →
        outer.kids ≡ filled around (signed key made) → IsMade outer → CanBeSigned made → Spells (written outer) tree →
        (parts : Parts) × HasForm tree (place_in outer around) parts
        × (content tree (place_in outer around) (Some parts.signature) ≡ content (tree_of made) 0 None) }
{
    element_make::a_made_element_spells_its_tree();
    canon_laws::equal_forms_have_equal_contents();
}

/// The two forms that a signature is checked over, that of the element and that of SignedInfo, are not too long where
/// the written form of the signed element, or of the element around it, has no more bytes than a document that is read:
/// each is at most eight times as long.
pub fn what_a_document_holds_can_be_checked()
    ensures alone { (key : List ℕ) (made : Made) → IsMade made →
        length (written (signed key made)) ≤ MAX_DOCUMENT_LENGTH → CanBeChecked made }
    ensures inside { (key : List ℕ) (around : Around) (outer made : Made) →
        outer.kids ≡ filled around (signed key made) → IsMade outer →
        length (written outer) ≤ MAX_DOCUMENT_LENGTH → CanBeChecked made }
{}

/// What is signed is vouched for with the same key, wherever its written form is read, where the forms that its
/// signature is checked over are not too long; and without the Signature it says what was signed.
pub fn what_is_signed_is_vouched_for()
    ensures { (key : List ℕ) (made : Made) (tree : Nodes) → IsMade made → CanBeSigned made → CanBeChecked made →
        Spells (written (signed key made)) tree → IsSingle tree →
        (parts : Parts) × Vouches key tree 0 parts
        × (content tree 0 (Some parts.signature) ≡ content (tree_of made) 0 None) }
{
    element_make::a_made_element_spells_its_tree();
    canon_laws::equal_forms_have_equal_contents();
}

/// The same of what is signed and then put into another element, wherever the written form of that element is read.
pub fn what_is_signed_inside_is_vouched_for()
    ensures { (key : List ℕ) (around : Around) (outer made : Made) (tree : Nodes) →
        outer.kids ≡ filled around (signed key made) → IsMade outer → CanBeSigned made → CanBeChecked made →
        Spells (written outer) tree → IsSingle tree →
        (parts : Parts) × Vouches key tree (place_in outer around) parts
        × (content tree (place_in outer around) (Some parts.signature) ≡ content (tree_of made) 0 None) }
{
    element_make::a_made_element_spells_its_tree();
    canon_laws::equal_forms_have_equal_contents();
}

/// What is put into another element says the same there, wherever the written form of that element is read; and it has no
/// Signature there where it was put in without one.
pub fn what_is_put_inside_says_the_same()
    ensures content { (around : Around) (outer made : Made) (tree : Nodes) → outer.kids ≡ filled around made → IsMade outer → Spells (written outer) tree →
        content tree (place_in outer around) None ≡ content (tree_of made) 0 None }
    ensures unsigned { (around : Around) (outer made : Made) (tree : Nodes) → outer.kids ≡ filled around made → IsMade outer → Spells (written outer) tree →
        IsTrue (has_no_signature made.kids) → children tree (place_in outer around) (ds (codes "Signature")) ≡ [] }
{
    element_make::a_made_element_spells_its_tree();
    canon_laws::equal_forms_have_equal_contents();
}
