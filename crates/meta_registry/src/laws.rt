//! Laws of the definitions that the contracts cite. Each function does nothing: what it ensures is the law.
ghost use Rattle.std.specs.Prelude.{◌≡◌, ◌≢◌, ℕ, List, Ok, Some};
ghost use Rattle.xml_spec.specs.Tree.{Nodes};
ghost use Rattle.xml_spec.specs.Canonical.{canonical};
ghost use Rattle.metadata.specs.declared.peer.Role.{Role};
ghost use Rattle.metadata.specs.declared.peer.Peer.{Peer};
ghost use Rattle.metadata.specs.Metadata.{peer_of};
ghost use Rattle.meta_registry.specs.declared.fault.RegistryFault.{RegistryFault};
ghost use Rattle.meta_registry.specs.Aggregate.{RegistryView, peer_in};
ghost use Rattle.meta_registry.specs.Faults.{IsRegistryOf, IsRead, IsRefused};
ghost use Rattle.meta_registry.specs.Listed.{listed, answer_at, IsListed};

/// What a registry says of a provider is what the descriptors of that name say that the root of the document lists: the one,
/// or else how many there are.
pub fn a_registry_says_what_is_listed()
    ensures { (key : List ℕ) (tree : Nodes) (registry : RegistryView) (entity : List ℕ) (role : Role) → IsRegistryOf key tree 0 registry →
        peer_in registry entity role ≡ answer_at tree role (listed tree 0 entity) }
{}

/// A provider that a registry gives is read from the one descriptor of that name that its root lists, inside the element that
/// the signature covers.
pub fn a_peer_is_read_from_a_listed_descriptor()
    ensures { (key : List ℕ) (tree : Nodes) (registry : RegistryView) (entity : List ℕ) (role : Role) (peer : Peer) → IsRegistryOf key tree 0 registry →
        peer_in registry entity role ≡ Ok peer → (d : ℕ) × IsListed key tree entity d × (peer_of tree d role ≡ Ok peer) }
{}

/// A text gives one registry, under whatever keys it is read; none that is read under a key is refused under it, and one that is
/// refused under a key is refused for one fault, want of memory aside.
pub fn a_text_has_one_outcome()
    ensures registry { (text key other : List ℕ) (one second : RegistryView) → IsRead text key one → IsRead text other second → one ≡ second }
    ensures never_both { (text key : List ℕ) (registry : RegistryView) (fault : RegistryFault) → IsRead text key registry → IsRefused text key fault →
        fault ≡ RegistryFault.NoMemory }
    ensures refused { (text key : List ℕ) (one other : RegistryFault) → IsRefused text key one → IsRefused text key other →
        one ≢ RegistryFault.NoMemory → other ≢ RegistryFault.NoMemory → one ≡ other }
{
    xml_spec::no_bytes_spell_two_trees();
}

/// Two texts whose roots have equal canonical forms without their Signature give one registry, under whatever keys and prefix
/// lists, and so the same answer for each provider and role.
pub fn equal_forms_give_one_registry()
    ensures registry { (text key others other_key : List ℕ) (one second : RegistryView) (prefixes wanted : List (List ℕ))
        (is : IsRead text key one) (is_too : IsRead others other_key second) →
        canonical is.tree 0 (Some is.root.parts.signature) prefixes ≡ canonical is_too.tree 0 (Some is_too.root.parts.signature) wanted → one ≡ second }
    ensures peer { (text key others other_key : List ℕ) (one second : RegistryView) (prefixes wanted : List (List ℕ))
        (is : IsRead text key one) (is_too : IsRead others other_key second) →
        canonical is.tree 0 (Some is.root.parts.signature) prefixes ≡ canonical is_too.tree 0 (Some is_too.root.parts.signature) wanted →
        (entity : List ℕ) (role : Role) → peer_in one entity role ≡ peer_in second entity role }
{
    canon_laws::equal_forms_have_equal_contents();
}
