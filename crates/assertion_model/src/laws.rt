//! Laws of the definitions. Each function does nothing: what it ensures is the law.
ghost use Rattle.std.specs.Prelude.{◌≡◌, ℕ, List, map, Some, None, IfSome};
ghost use Rattle.std.specs.List.{AllByRecursion};
ghost use Rattle.std.specs.Option.{option_map};
ghost use Rattle.saml_time.specs.Instant.{Tells};
ghost use Rattle.xml_spec.specs.Tree.{Nodes};
ghost use Rattle.xml_spec.specs.Document.{Spells};
ghost use Rattle.xml_spec.specs.Identifiers.{IsSingle};
ghost use Rattle.xml_spec.specs.Content.{content};
ghost use Rattle.canon_laws.specs.Writable.{IsWritable};
ghost use Rattle.element_make.specs.Made.{Made, IsMade, tree_of, written};
ghost use Rattle.sig_reference.specs.Form.{Parts, HasForm};
ghost use Rattle.sig_reference.specs.Signature.{Vouches, VouchesFirst};
ghost use Rattle.sig_reference.specs.Signing.{signed};
ghost use Rattle.sig_reference.specs.Vouching.{VouchedView, IsVouched, IsIn};
ghost use Rattle.saml_names.specs.Names.{saml};
ghost use Rattle.tree_read.specs.Children.{children};
ghost use Rattle.tree_read.specs.Texts.{text_of};
ghost use Rattle.assertion_model.specs.declared.login.Login.{Login};
ghost use Rattle.assertion_model.specs.Assertion.{IsAssertionOf, CanBeRead};
ghost use Rattle.assertion_model.specs.Instants.{moment_of};
ghost use Rattle.assertion_model.specs.Login.{login};
ghost use Rattle.assertion_model.specs.LoginTexts.{HoldsTexts};
ghost use Rattle.assertion_model.specs.Parts.{own_signature, login_at};
ghost use Rattle.assertion_model.specs.Places.{name_place, value_places, values_of, IsPlace, AreApart, IsPartOf};

/// A text of which a moment is computed tells that moment (SAML Core, 1.3.3).
pub fn a_computed_moment_is_told()
    ensures { (bytes : List ℕ) (ms : ℕ) → moment_of bytes ≡ Some ms → Tells bytes ms }
{}

/// A moment that a text tells is computed of it (SAML Core, 1.3.3).
pub fn a_told_moment_is_computed()
    ensures { (bytes : List ℕ) (ms : ℕ) → Tells bytes ms → moment_of bytes ≡ Some ms }
{}

/// The Signature that is left out of an element that is vouched for is the one that vouches for it (SAML Core, 5.4).
pub fn the_signature_left_out_vouches()
    ensures { (key : List ℕ) (tree : Nodes) (e : ℕ) (parts : Parts) → Vouches key tree e parts → own_signature tree e ≡ Some parts.signature }
{}

/// The Signature that is left out of an element is the one of the form that is asked for, where it has one.
pub fn the_signature_of_the_form_is_left_out()
    ensures { (tree : Nodes) (e : ℕ) (parts : Parts) → HasForm tree e parts →
        own_signature tree e ≡ Some parts.signature }
{}

/// The same of one that vouches, where the Signature stands in front (SAML Metadata, 3.1).
pub fn the_first_signature_left_out_vouches()
    ensures { (key : List ℕ) (tree : Nodes) (e : ℕ) (parts : Parts) → VouchesFirst key tree e parts → own_signature tree e ≡ Some parts.signature }
{}

/// A login is read at its places: its name is the text of the NameID, and the values of its attributes are, in order, the
/// texts of the AttributeValues (SAML Core, 2.4.1 and 2.7.3).
pub fn a_login_is_read_at_its_places()
    ensures name { (tree : Nodes) (e : ℕ) (login : Login) → login_at tree e ≡ Some login → option_map (text_of tree) (name_place tree e) ≡ Some login.name }
    ensures values { (tree : Nodes) (e : ℕ) (login : Login) → login_at tree e ≡ Some login → map (text_of tree) (value_places tree e) ≡ values_of login.attributes }
{}

/// The texts of a login that is read of a tree that can be written are texts that a document may hold (XML 1.0, 2.2).
pub fn the_texts_of_a_login_are_texts()
    ensures { (tree : Nodes) (e : ℕ) (login : Login) → IsWritable tree → login_at tree e ≡ Some login → HoldsTexts login }
{}

/// The places of a login are elements that lie in its element, and not in the own Signature of that.
pub fn places_lie_in_the_element()
    ensures name { (tree : Nodes) (e : ℕ) → IfSome (name_place tree e) (IsPlace tree e) }
    ensures values { (tree : Nodes) (e : ℕ) → AllByRecursion (IsPlace tree e) (value_places tree e) }
{}

/// The own Signature of an element lies in it.
pub fn a_signature_lies_in_its_element()
    ensures { (tree : Nodes) (e signature : ℕ) → own_signature tree e ≡ Some signature → IsIn tree e signature }
{}

/// The children of assertions that an element has lie in it, with all that lies in them, apart from its own Signature.
pub fn children_are_apart_from_the_signature()
    ensures { (tree : Nodes) (e : ℕ) (local : List ℕ) → AllByRecursion (IsPartOf tree e) (children tree e (saml local)) }
{}

/// The places of a login are apart from the Signature that vouches for its element, also where that is the Signature of an
/// element around it, and from the own Signature of its element: neither lies in the other.
pub fn places_are_apart_from_the_signature()
    ensures name { (v : VouchedView) → IsVouched v → IfSome (name_place v.document.tree v.node) (AreApart v.document.tree v.signature) }
    ensures values { (v : VouchedView) → IsVouched v → AllByRecursion (AreApart v.document.tree v.signature) (value_places v.document.tree v.node) }
    ensures own_name { (tree : Nodes) (e signature : ℕ) → own_signature tree e ≡ Some signature → IfSome (name_place tree e) (AreApart tree signature) }
    ensures own_values { (tree : Nodes) (e signature : ℕ) → own_signature tree e ≡ Some signature → AllByRecursion (AreApart tree signature) (value_places tree e) }
{}

/// The login of a made assertion is the one that it was made of: by its content, written and read again, and signed with any
/// key, written and read again.
pub fn a_made_assertion_is_read()
    ensures content { (l : Login) (made : Made) → IsAssertionOf l made → CanBeRead l → login (content (tree_of made) 0 None) ≡ Some l }
    ensures written { (l : Login) (made : Made) (tree : Nodes) → IsAssertionOf l made → CanBeRead l → IsMade made → Spells (written made) tree →
        login_at tree 0 ≡ Some l }
    ensures signed { (key : List ℕ) (l : Login) (made : Made) (tree : Nodes) → IsAssertionOf l made → CanBeRead l → IsMade made →
        Spells (written (signed key made)) tree → IsSingle tree → login_at tree 0 ≡ Some l }
{
    xml_spec::no_bytes_spell_two_trees();
    element_make::a_made_element_spells_its_tree();
    sig_reference::laws::what_is_signed_says_the_same();
}
