//! Laws about elements that are made.
ghost use Rattle.xml_spec.specs.Document.{Spells};
ghost use Rattle.xml_spec.specs.Names.{HasNames};
ghost use Rattle.element_make.specs.Made.{Made, IsMade, tree_of, written};

/// What is written of a made element spells its tree, whose names are as Namespaces in XML 1.0 wants them.
pub fn a_made_element_spells_its_tree()
    ensures spells { (made : Made) → IsMade made → Spells (written made) (tree_of made) }
    ensures names { (made : Made) → IsMade made → HasNames (tree_of made) }
{
    canon_laws::a_canonical_form_spells_its_tree();
}
