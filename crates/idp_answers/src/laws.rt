//! Laws of the definitions that the contracts cite. Each function does nothing: what it ensures is the law.
ghost use Rattle.std.specs.Prelude.{◌≡◌, ◌≢◌, ℕ, ◌≤◌, true, List, [], ◌∷◌, length, codes, IsTrue, IsFalse, Some, None};
ghost use Rattle.xml_spec.specs.declared.TheConstants.{MAX_DOCUMENT_LENGTH};
ghost use Rattle.xml_spec.specs.Tree.{Nodes};
ghost use Rattle.xml_spec.specs.Document.{Spells};
ghost use Rattle.xml_spec.specs.Identifiers.{IsSingle};
ghost use Rattle.xml_spec.specs.Content.{content};
ghost use Rattle.saml_names.specs.Names.{saml, ds};
ghost use Rattle.tree_read.specs.Children.{children};
ghost use Rattle.tree_read.specs.Texts.{trimmed};
ghost use Rattle.element_make.specs.Made.{Made, IsMade, tree_of, written};
ghost use Rattle.sig_reference.specs.Form.{Parts};
ghost use Rattle.sig_reference.specs.Signature.{Vouches};
ghost use Rattle.assertion_model.specs.declared.login.Login.{Login};
ghost use Rattle.assertion_model.specs.Assertion.{CanBeRead};
ghost use Rattle.assertion_model.specs.Parts.{login_at};
ghost use Rattle.protocol_messages.specs.Messages.{IsResponse};
ghost use Rattle.provider_config.specs.declared.idp_config.SignMode.{SignMode};
ghost use Rattle.idp_answers.specs.Answers.{IsIssued, signs_assertion, signs_response};
ghost use Rattle.idp_answers.specs.SignedElements.{AResponseIsSignedByItsMode};
ghost use Rattle.idp_answers.specs.Stating.{AllowedAttributesMayStand, AllowedTextsMayStand, EachAssertionIsTold, EachLoginHasAnAnswer, EachMomentIsTold, EachRefusalHasAnAnswer};

/// Where the mode signs the Response, the Response that is sent, of no more bytes than a document that is read, is
/// vouched for with the same key, wherever its written form is read, by a Signature of its own; and without that
/// Signature it says what was answered, with the Assertion of the login.
pub fn a_signed_response_is_vouched_for()
    ensures { (mode : SignMode) (key : List ℕ) (login : Login) (message consumer : List ℕ) (now : ℕ) (sent : Made) (tree : Nodes) →
        IsTrue (signs_response mode) → message ≢ [] → (issued : IsIssued mode key login message consumer now sent) → IsMade sent →
        length (written sent) ≤ MAX_DOCUMENT_LENGTH → Spells (written sent) tree → IsSingle tree →
        (parts : Parts) × Vouches key tree 0 parts × (content tree 0 (Some parts.signature) ≡ content (tree_of issued.unsigned) 0 None) }
{
    sig_reference::laws::what_is_signed_is_vouched_for();
    sig_reference::laws::what_a_document_holds_can_be_checked();
}

/// Where the mode signs the Assertion, it is the one Assertion of the Response that is sent, wherever the written form
/// of that is read, and is vouched for there with the same key, where the Response has no more bytes than a document
/// that is read; and without its Signature it says what the Assertion of the login says.
pub fn a_signed_assertion_is_vouched_for()
    ensures { (mode : SignMode) (key : List ℕ) (login : Login) (message consumer : List ℕ) (now : ℕ) (sent : Made) (tree : Nodes) →
        IsTrue (signs_assertion mode) → login.id ≢ [] → (issued : IsIssued mode key login message consumer now sent) → IsMade sent →
        length (written sent) ≤ MAX_DOCUMENT_LENGTH → Spells (written sent) tree → IsSingle tree →
        (p : ℕ) × (children tree 0 (saml (codes "Assertion")) ≡ p ∷ [])
        × (parts : Parts) × Vouches key tree p parts × (content tree p (Some parts.signature) ≡ content (tree_of issued.assertion) 0 None) }
{
    xml_spec::no_bytes_spell_two_trees();
    element_make::a_made_element_spells_its_tree();
    sig_reference::laws::what_is_signed_inside_is_vouched_for();
    sig_reference::laws::what_a_document_holds_can_be_checked();
}

/// In each mode the Response that is sent, wherever its written form is read, is read as it was made: a success with just one
/// Assertion, which names the issuer of the login, without white space around it, and answers its request at the consumer
/// (SAML Core, 3.2.2; SAML Profiles, 4.1.4.2).
pub fn a_sent_response_is_read()
    ensures { (mode : SignMode) (key : List ℕ) (login : Login) (message consumer : List ℕ) (now : ℕ) (sent : Made) (tree : Nodes) →
        1 ≤ length message → length message ≤ 256 → IsIssued mode key login message consumer now sent → IsMade sent → Spells (written sent) tree →
        (p : ℕ) × IsResponse tree 0 (record {
          id = message;
          issuer = Some (trimmed login.issuer);
          destination = Some consumer;
          request = Some login.request;
          success = true;
          has_signature = signs_response mode;
          assertions = p ∷ [];
        }) }
{
    xml_spec::no_bytes_spell_two_trees();
    element_make::a_made_element_spells_its_tree();
}

/// In each mode, what is read of the one Assertion of the Response that is sent, wherever the written form of that is read, is the
/// login that was issued (SAML Profiles, 4.1.4.2 and 4.1.4.3).
pub fn an_issued_login_is_read()
    ensures { (mode : SignMode) (key : List ℕ) (login : Login) (message consumer : List ℕ) (now : ℕ) (sent : Made) (tree : Nodes) →
        CanBeRead login → IsIssued mode key login message consumer now sent → IsMade sent → Spells (written sent) tree → IsSingle tree →
        (p : ℕ) × (children tree 0 (saml (codes "Assertion")) ≡ p ∷ []) × (login_at tree p ≡ Some login) }
{
    xml_spec::no_bytes_spell_two_trees();
    element_make::a_made_element_spells_its_tree();
    sig_reference::laws::what_is_signed_says_the_same();
    sig_reference::laws::what_is_put_inside_says_the_same();
    assertion_model::laws::the_signature_of_the_form_is_left_out();
    assertion_model::laws::a_made_assertion_is_read();
}

/// What the mode does not sign has no Signature, wherever the written form of the Response that is sent is read: so each
/// Signature that the Response or its Assertion has there is one that vouches.
pub fn what_is_not_signed_has_no_signature()
    ensures response { (mode : SignMode) (key : List ℕ) (login : Login) (message consumer : List ℕ) (now : ℕ) (sent : Made) (tree : Nodes) →
        IsFalse (signs_response mode) → IsIssued mode key login message consumer now sent → IsMade sent → Spells (written sent) tree →
        children tree 0 (ds (codes "Signature")) ≡ [] }
    ensures assertion { (mode : SignMode) (key : List ℕ) (login : Login) (message consumer : List ℕ) (now : ℕ) (sent : Made) (tree : Nodes) (p : ℕ) →
        IsFalse (signs_assertion mode) → IsIssued mode key login message consumer now sent → IsMade sent → Spells (written sent) tree →
        children tree 0 (saml (codes "Assertion")) ≡ p ∷ [] → children tree p (ds (codes "Signature")) ≡ [] }
{
    xml_spec::no_bytes_spell_two_trees();
    element_make::a_made_element_spells_its_tree();
    sig_reference::laws::what_is_put_inside_says_the_same();
}

/// There is an answer with the Assertion of each login that may be stated, in each mode, and one without where the user may not be
/// asked.
pub fn each_login_has_an_answer()
    ensures issued { EachLoginHasAnAnswer }
    ensures refused { EachRefusalHasAnAnswer }
{}

/// Of the Response that is sent for a login the Assertion is signed, the Response, or both, as the mode says, and nothing else.
pub fn a_response_is_signed_by_its_mode()
    ensures { AResponseIsSignedByItsMode }
{}

/// The texts and the attributes of a record, which passed its test, may stand in a document.
pub fn what_is_recorded_may_stand()
    ensures texts { AllowedTextsMayStand }
    ensures attributes { AllowedAttributesMayStand }
{
    ledger_rules::laws::an_allowed_text_may_stand();
}

/// Each moment up to the last one has a written form, which may stand in a document; so have those of each Assertion.
pub fn each_moment_is_told()
    ensures one { EachMomentIsTold }
    ensures assertion { EachAssertionIsTold }
{
    saml_time::each_moment_is_told();
}
