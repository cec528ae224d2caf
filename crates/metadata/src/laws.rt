//! Laws of the definitions that the contracts cite. Each function does nothing: what it ensures is the law.
ghost use Rattle.std.specs.Prelude.{◌≡◌, ◌≢◌, ℕ, List, [], ◌++◌, codes, Ok, Err, Some, None};
ghost use Rattle.xml_spec.specs.Tree.{Nodes};
ghost use Rattle.xml_spec.specs.Document.{Spells};
ghost use Rattle.element_make.specs.Made.{IsMade, written};
ghost use Rattle.metadata.specs.declared.peer.Role.{Role};
ghost use Rattle.metadata.specs.declared.fault.MetaFault.{MetaFault};
ghost use Rattle.metadata.specs.Metadata.{peer_of};
ghost use Rattle.metadata.specs.Making.{metadata, plain, service_path};

/// Metadata that is written for a provider with a name and read again describes it in its role, with its addresses. What
/// `put_metadata` writes describes nobody in the other role.
pub fn written_metadata_is_read()
    ensures same { (role : Role) (entity base : List ℕ) (tree : Nodes) → entity ≢ [] → IsMade (metadata role entity base) →
        Spells (written (metadata role entity base)) tree →
        peer_of tree 0 role ≡ Ok (record { entity = entity; service = base ++ service_path role; logout = Some (base ++ codes "/slo") }) }
    ensures other { (role asked : Role) (entity base : List ℕ) (tree : Nodes) → role ≢ asked → IsMade (metadata role entity base) →
        Spells (written (metadata role entity base)) tree → peer_of tree 0 asked ≡ Err MetaFault.WrongShape }
    ensures plain { (role : Role) (entity base : List ℕ) (tree : Nodes) → entity ≢ [] → IsMade (plain role entity base) →
        Spells (written (plain role entity base)) tree →
        peer_of tree 0 role ≡ Ok (record { entity = entity; service = base ++ service_path role; logout = None }) }
{
    element_make::a_made_element_spells_its_tree();
    xml_spec::no_bytes_spell_two_trees();
}
