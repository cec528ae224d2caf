//! Laws about canonical forms.
ghost use Rattle.std.specs.Prelude.{◌≡◌, ℕ, ◌<◌, List, Option, IsTrue, IfSome};
ghost use Rattle.xml_spec.specs.Tree.{Nodes};
ghost use Rattle.xml_spec.specs.Numbering.{from_node};
ghost use Rattle.xml_spec.specs.Names.{HasNames};
ghost use Rattle.xml_spec.specs.Document.{Spells};
ghost use Rattle.xml_spec.specs.Canonical.{canonical};
ghost use Rattle.xml_spec.specs.Content.{content};
ghost use Rattle.canon_laws.specs.Trees.{begins_with_element};

/// Where two elements of documents have equal canonical forms, their contents are equal.
pub fn equal_forms_have_equal_contents()
    ensures { (bytes others : List ℕ) (one other : Nodes) (k l : ℕ) (skip leave : Option ℕ) (listed wanted : List (List ℕ)) →
        Spells bytes one → HasNames one → Spells others other → HasNames other →
        IsTrue (begins_with_element (from_node one k)) → IsTrue (begins_with_element (from_node other l)) →
        IfSome skip (λ s. k < s) → IfSome leave (λ s. l < s) →
        canonical one k skip listed ≡ canonical other l leave wanted → content one k skip ≡ content other l leave }
{
    canon_laws::equal_forms_have_equal_contents();
}
