//! Laws of the definitions. Each function does nothing: what it ensures is the law.
ghost use Rattle.std.specs.Prelude.{◌≡◌, ◌≢◌, ◌⊎◌, ℕ, ◌≤◌, Bool, List, [], ◌∷◌, length, Option, Some, None};
ghost use Rattle.xml_spec.specs.declared.TheConstants.{MAX_DOCUMENT_LENGTH};
ghost use Rattle.xml_spec.specs.Characters.{IsText};
ghost use Rattle.xml_spec.specs.Tree.{Nodes};
ghost use Rattle.xml_spec.specs.Document.{Spells};
ghost use Rattle.xml_spec.specs.Identifiers.{IsSingle};
ghost use Rattle.xml_spec.specs.Content.{content};
ghost use Rattle.element_make.specs.Made.{tree_of};
ghost use Rattle.sig_reference.specs.Form.{Parts};
ghost use Rattle.sig_reference.specs.Signature.{Vouches};
ghost use Rattle.peer_keys.specs.declared.peers.LogoutPeer.{LogoutPeer};
ghost use Rattle.verdict_codes.specs.declared.codes.Verdict.{Verdict};
ghost use Rattle.protocol_messages.specs.declared.logout.LogoutRequest.{LogoutRequest};
ghost use Rattle.protocol_messages.specs.declared.logout.LogoutResponse.{LogoutResponse};
ghost use Rattle.logout_profile.specs.declared.logout.Logout.{Logout};
ghost use Rattle.logout_profile.specs.declared.logout.Logout.TheVariants.{Ask, Reply};
ghost use Rattle.logout_profile.specs.Laws.{EachLogoutFormIsJudged};
ghost use Rattle.logout_profile.specs.Verdict.{IsRefused, IsAccepted};
ghost use Rattle.logout_profile.specs.Making.{IsRequest, IsResponse};

/// A form that is obeyed is refused for nothing, and asks or replies one thing alone; a form that is refused is refused with one
/// verdict.
pub fn a_logout_form_has_one_verdict()
    ensures obeyed { (peers : List LogoutPeer) (second : Option (List ℕ)) (address : List ℕ) (skew now : ℕ) (body : List ℕ) (logout : Logout) (verdict : Verdict) →
        IsAccepted peers second address skew now body logout → ¬ (IsRefused peers second address skew now body verdict) }
    ensures once { (peers : List LogoutPeer) (second : Option (List ℕ)) (address : List ℕ) (skew now : ℕ) (body : List ℕ) (one other : Logout) →
        IsAccepted peers second address skew now body one → IsAccepted peers second address skew now body other → one ≡ other }
    ensures refused { (peers : List LogoutPeer) (second : Option (List ℕ)) (address : List ℕ) (skew now : ℕ) (body : List ℕ) (one other : Verdict) →
        IsRefused peers second address skew now body one → IsRefused peers second address skew now body other → one ≡ other }
{}

/// What is obeyed is vouched for by a signature of its own, under the peer's key or the second one.
pub fn what_is_obeyed_is_vouched_for()
    ensures { (peers : List LogoutPeer) (second : Option (List ℕ)) (address : List ℕ) (skew now : ℕ) (body : List ℕ) (logout : Logout) →
        (is : IsAccepted peers second address skew now body logout) →
        ((is.key ≡ is.peer.key_in) ⊎ (second ≡ Some is.key)) × ((parts : Parts) × Vouches is.key is.carried.tree 0 parts) }
{}

/// What is made for a peer, and has no more bytes than a document that is read, is vouched for with the key that is
/// shared with it, wherever it is read, and without the signature it says what was made.
pub fn what_is_made_is_vouched_for()
    ensures request { (peer : LogoutPeer) (id issuer : List ℕ) (issued : ℕ) (name : List ℕ) (indexes : List (List ℕ)) (bytes : List ℕ) (tree : Nodes) →
        id ≢ [] → (is : IsRequest peer id issuer issued name indexes bytes) → length bytes ≤ MAX_DOCUMENT_LENGTH →
        Spells bytes tree → IsSingle tree →
        (parts : Parts) × Vouches peer.key_out tree 0 parts × (content tree 0 (Some parts.signature) ≡ content (tree_of is.unsigned) 0 None) }
    ensures response { (peer : LogoutPeer) (id issuer : List ℕ) (issued : ℕ) (request : List ℕ) (partial : Bool) (bytes : List ℕ) (tree : Nodes) →
        id ≢ [] → (is : IsResponse peer id issuer issued request partial bytes) → length bytes ≤ MAX_DOCUMENT_LENGTH →
        Spells bytes tree → IsSingle tree →
        (parts : Parts) × Vouches peer.key_out tree 0 parts × (content tree 0 (Some parts.signature) ≡ content (tree_of is.unsigned) 0 None) }
{
    sig_reference::laws::what_is_signed_is_vouched_for();
    sig_reference::laws::what_a_document_holds_can_be_checked();
}

/// Of a form that is obeyed: the ID of a request holds characters that a document may hold, and its place is that of the peer
/// whose key vouches for it; where there is one peer this is 0.
pub fn what_an_obeyed_form_says()
    ensures id { (peers : List LogoutPeer) (second : Option (List ℕ)) (address : List ℕ) (skew now : ℕ)
        (body : List ℕ) (request : LogoutRequest) (place : ℕ) (relay : Option (List ℕ)) →
        IsAccepted peers second address skew now body (Ask request place relay) → IsText request.id }
    ensures at { (peers : List LogoutPeer) (second : Option (List ℕ)) (address : List ℕ) (skew now : ℕ)
        (body : List ℕ) (request : LogoutRequest) (place : ℕ) (relay : Option (List ℕ)) →
        (is : IsAccepted peers second address skew now body (Ask request place relay)) → place ≡ is.place }
    ensures asks { (peer : LogoutPeer) (second : Option (List ℕ)) (address : List ℕ) (skew now : ℕ) (body : List ℕ)
        (request : LogoutRequest) (place : ℕ) (relay : Option (List ℕ)) →
        IsAccepted (peer ∷ []) second address skew now body (Ask request place relay) → place ≡ 0 }
    ensures replies { (peer : LogoutPeer) (second : Option (List ℕ)) (address : List ℕ) (skew now : ℕ) (body : List ℕ) (response : LogoutResponse) (place : ℕ) →
        IsAccepted (peer ∷ []) second address skew now body (Reply response place) → place ≡ 0 }
{
    canon_laws::a_spelled_tree_is_writable();
}

/// Each form asks or replies something of a logout, or it is refused with a verdict: it can't be that neither holds.
pub fn each_logout_form_is_judged()
    ensures { EachLogoutFormIsJudged }
{}
