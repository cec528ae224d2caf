//! Laws of the definitions that the contracts cite. Each function does nothing: what it ensures is the law.
ghost use Rattle.std.specs.Prelude.{◌≡◌, ℕ, ◌≤◌, List, [], ◌∷◌, length, true, false, Bool, if◌then◌else◌, Some, None};
ghost use Rattle.xml_spec.specs.Tree.{Attribute, Nodes};
ghost use Rattle.xml_spec.specs.Document.{Spells};
ghost use Rattle.saml_names.specs.Uris.{partial_logout};
ghost use Rattle.element_make.specs.Made.{Made, MadeNodes, IsMade, written};
ghost use Rattle.tree_read.specs.Texts.{trimmed};
ghost use Rattle.protocol_messages.specs.declared.authn.AuthnRequest.{AuthnRequest};
ghost use Rattle.protocol_messages.specs.declared.response.ResponseHead.{ResponseHead};
ghost use Rattle.protocol_messages.specs.declared.logout.LogoutRequest.{LogoutRequest};
ghost use Rattle.protocol_messages.specs.declared.logout.LogoutResponse.{LogoutResponse};
ghost use Rattle.protocol_messages.specs.declared.logout.Outcome.{Outcome};
ghost use Rattle.protocol_messages.specs.Messages.{IsMessage, IsAuthnRequest, IsResponse, IsLogoutRequest, IsLogoutResponse};
ghost use Rattle.protocol_messages.specs.Making.{IsMadeAt, IsMadeFrom, authn_request, response, assertion_made, logout_request, request_end, logged_out, succeeded, failed};

/// An element is one message at most: no two readings of it have different names, so it is of one kind; and of each kind no
/// two readings differ in any field.
pub fn an_element_is_one_message()
    ensures kind { (tree : Nodes) (k : ℕ) (one other id another : List ℕ) (issued moment : ℕ) → IsMessage tree k one id issued →
        IsMessage tree k other another moment → one ≡ other }
    ensures authn { (tree : Nodes) (k : ℕ) (m n : AuthnRequest) → IsAuthnRequest tree k m → IsAuthnRequest tree k n → m ≡ n }
    ensures response { (tree : Nodes) (k : ℕ) (m n : ResponseHead) → IsResponse tree k m → IsResponse tree k n → m ≡ n }
    ensures request { (tree : Nodes) (k : ℕ) (m n : LogoutRequest) → IsLogoutRequest tree k m → IsLogoutRequest tree k n → m ≡ n }
    ensures logged_out { (tree : Nodes) (k : ℕ) (m n : LogoutResponse) → IsLogoutResponse tree k m → IsLogoutResponse tree k n → m ≡ n }
{}

/// The AuthnRequest that is made with an ID of 1 to 256 bytes, written and read again, is the one that was made. White space
/// around the name of the provider is lost.
pub fn a_made_authn_request_is_read()
    ensures { (id issuer destination consumer : List ℕ) (issued : ℕ) (made : Made) (tree : Nodes) → 1 ≤ length id → length id ≤ 256 →
        IsMadeAt issued (authn_request id issuer destination consumer) made → IsMade made → Spells (written made) tree →
        IsAuthnRequest tree 0 (record {
          id = id;
          issuer = trimmed issuer;
          destination = Some destination;
          consumer = Some consumer;
          other_binding = false;
          force = false;
          passive = false;
          issued = issued;
        }) }
{
    element_make::a_made_element_spells_its_tree();
    xml_spec::no_bytes_spell_two_trees();
}

/// The Response that is made with an ID of 1 to 256 bytes, written and read again, is the one that was made: with an
/// Assertion it is a success with this one Assertion, without one it is none. White space around the name of the provider is
/// lost.
pub fn a_made_response_is_read()
    ensures answered { (id issuer destination request : List ℕ) (attributes : List Attribute) (kids : MadeNodes) (issued : ℕ) (made : Made) (tree : Nodes) →
        1 ≤ length id → length id ≤ 256 →
        IsMadeAt issued (response id issuer destination request (Some (assertion_made attributes kids))) made → IsMade made → Spells (written made) tree →
        (n : ℕ) × IsResponse tree 0 (record {
          id = id;
          issuer = Some (trimmed issuer);
          destination = Some destination;
          request = Some request;
          success = true;
          has_signature = false;
          assertions = n ∷ [];
        }) }
    ensures refused { (id issuer destination request : List ℕ) (issued : ℕ) (made : Made) (tree : Nodes) → 1 ≤ length id → length id ≤ 256 →
        IsMadeAt issued (response id issuer destination request None) made → IsMade made → Spells (written made) tree →
        IsResponse tree 0 (record {
          id = id;
          issuer = Some (trimmed issuer);
          destination = Some destination;
          request = Some request;
          success = false;
          has_signature = false;
          assertions = [];
        }) }
{
    element_make::a_made_element_spells_its_tree();
    xml_spec::no_bytes_spell_two_trees();
}

/// The LogoutRequest that is made with an ID of 1 to 256 bytes, written and read again, is the one that was made, with each
/// SessionIndex. White space around the name of the provider is lost.
pub fn a_made_logout_request_is_read()
    ensures { (id issuer destination name : List ℕ) (indexes : List (List ℕ)) (issued : ℕ) (made : Made) (tree : Nodes) → 1 ≤ length id → length id ≤ 256 →
        IsMadeFrom issued (request_end issued) (logout_request id issuer destination name indexes) made → IsMade made → Spells (written made) tree →
        IsLogoutRequest tree 0 (record {
          id = id;
          issuer = trimmed issuer;
          destination = Some destination;
          until = Some (request_end issued);
          name = name;
          indexes = indexes;
        }) }
{
    element_make::a_made_element_spells_its_tree();
    xml_spec::no_bytes_spell_two_trees();
}

/// The LogoutResponse that is made with an ID of 1 to 256 bytes, written and read again, is the one that was made. White
/// space around the name of the provider is lost.
pub fn a_made_logout_response_is_read()
    ensures { (id issuer destination request : List ℕ) (partial : Bool) (issued : ℕ) (made : Made) (tree : Nodes) → 1 ≤ length id → length id ≤ 256 →
        IsMadeAt issued (logged_out id issuer destination request (if partial then failed partial_logout else succeeded)) made → IsMade made →
        Spells (written made) tree →
        IsLogoutResponse tree 0 (record {
          id = id;
          issuer = trimmed issuer;
          destination = Some destination;
          request = request;
          outcome = if partial then Outcome.Partial else Outcome.Success;
        }) }
{
    element_make::a_made_element_spells_its_tree();
    xml_spec::no_bytes_spell_two_trees();
}
