//! What the identity provider signs is what `login_origin` asks of signed elements. The elements that its records stand
//! for, each as a document of its own, are a list of signed elements as `login_origin` speaks of it, and a login of
//! that list is the login of an issued record. So where only the identity provider makes HMACs that match and no hash
//! collides, each login that opens a session is one that it recorded (SAML Core, 5.4; SAML Profiles, 4.1.4.2 and
//! 4.1.4.5).
//!
//! Each function does nothing: what it ensures is a law of the definitions in `specs/`. The laws hold of each list of
//! what was signed for the records. Where it is not all that was sent, `Unforged` may fail of an honest form. Which key
//! made a SignatureValue is not said.
//!
//! # What is proved
//!
//! Laws on what an identity provider signed for its records, each element as a document of its own: it is a signed
//! element as login_origin asks (`what_is_signed_for_a_record_is_a_signed_document`); each login of such a list is read
//! of an Assertion of an issued record (`a_login_that_was_signed_was_recorded`) and is what the record says, but for
//! white space at the ends of issuer and audience (`what_is_read_is_what_the_record_says`); and, if no HMAC is forged
//! and no hash collides, a session that is opened has the request, assertion, user, index and attributes of an issued
//! record for this provider, to its address and in its time (`a_session_that_is_opened_was_recorded`). That a recorded
//! Assertion was ever sent is not said.
#![tactic(auto)]

ghost use Rattle.std.specs.Prelude.{◌≡◌, ◌≢◌, ℕ, List, [], ◌∷◌, None, Some, Contains, IsTrue};
ghost use Rattle.std.specs.List.{AllByRecursion};
ghost use Rattle.xml_spec.specs.Content.{content};
ghost use Rattle.element_make.specs.Made.{Made, IsMade, alone, tree_of};
ghost use Rattle.assertion_model.specs.declared.login.Login.{Login};
ghost use Rattle.assertion_model.specs.Assertion.{IsAssertionOf, CanBeRead};
ghost use Rattle.assertion_model.specs.Login.{login};
ghost use Rattle.ledger_records.specs.declared.idp_record.Issued.{Issued};
ghost use Rattle.ledger_records.specs.declared.idp_record.IdpRecord.{IdpRecord};
ghost use Rattle.ledger_records.specs.declared.idp_record.IdpRecord.TheVariants as kinds;
ghost use Rattle.idp_ledger.specs.Ledger.{Held};
ghost use Rattle.idp_rules.specs.declared.config.IdpConfig.{IdpConfig};
ghost use Rattle.idp_server.specs.Logins.{login_of};
ghost use Rattle.idp_server.specs.Signed.{IsSignedOf, signed_elements};
ghost use Rattle.protocol_messages.specs.declared.response.ResponseHead.{ResponseHead};
ghost use Rattle.request_rows.specs.declared.row.NewSession.{NewSession};
ghost use Rattle.request_rows.specs.Rows.{RowsView};
ghost use Rattle.sp_rules.specs.declared.accepted.Accepted.{Accepted};
ghost use Rattle.sp_rules.specs.declared.config.SpConfig.{SpConfig};
ghost use Rattle.sp_rules.specs.Opening.{Brought, Brings};
ghost use Rattle.sp_rules.specs.Keys.{Key, usable};
ghost use Rattle.sp_rules.specs.Meant.{is_meant};
ghost use Rattle.sp_rules.specs.Shown.{IsOpening, session_of};
ghost use Rattle.login_origin.specs.Signed.{Signed, IsSigned};
ghost use Rattle.login_origin.specs.Premises.{Unforged, NoCollision};
ghost use Rattle.login_origin.specs.Origin.{IsLoginOf};
ghost use Rattle.recorded_logins.specs.Documents.{IsDocumentOf, AreDocumentsOf};
ghost use Rattle.recorded_logins.specs.Recorded.{Added, AreOf};
ghost use Rattle.recorded_logins.specs.Logins.{read_of, IsRecordedLogin, IsRecordedSession};

/// Each element that a record stands for as a signed one has one document, and that is of a signed element: its bytes
/// spell a tree with names in order, its Signature has the form that is asked for, and its DigestValue is the hash of
/// the canonical form of the element without that (XML Signature, 3.1.1), however long it is. So it may stand in a list
/// of what was signed for records.
pub fn what_is_signed_for_a_record_is_a_signed_document()
    ensures some { (setup : IdpConfig) (held : Held) (r : IdpRecord) (element : Made) →
        IsSignedOf setup held r element → IsMade element → (s : Signed) × IsDocumentOf element s }
    ensures one { (element : Made) (s t : Signed) →
        IsMade element → IsDocumentOf element s → IsDocumentOf element t → s ≡ t }
    ensures signed { (setup : IdpConfig) (held : Held) (r : IdpRecord) (element : Made) (s : Signed) →
        IsSignedOf setup held r element → IsMade element → IsDocumentOf element s → IsSigned s }
    ensures each { (setup : IdpConfig) (added : List Added) (issued : List Signed) →
        AreOf setup added issued → AllByRecursion IsSigned issued }
    ensures listed { (setup : IdpConfig) (added : List Added) (issued : List Signed) (one : Added) (element : Made) →
        AreOf setup added issued → Contains added one → IsSignedOf setup one.held one.r element → IsMade element →
        (s : Signed) × IsDocumentOf element s × AreOf setup added (s ∷ issued) }
{}

/// The documents of all that an answer carries, where that is signed for one record, are of the record.
pub fn what_an_answer_carries_is_of_its_record()
    ensures { (setup : IdpConfig) (held : Held) (r : IdpRecord) (sent : Made) →
        IsMade sent → AllByRecursion (IsSignedOf setup held r) (signed_elements (alone sent)) →
        (issued : List Signed) × AreDocumentsOf (signed_elements (alone sent)) issued
        × AreOf setup (record { held = held; r = r } ∷ []) issued }
{}

/// What was signed for some records was signed for all that these are among; and what they stand for, all stand for.
pub fn more_records_stand_for_no_less()
    ensures signed { (setup : IdpConfig) (added more : List Added) (issued : List Signed) →
        ((one : Added) → Contains added one → Contains more one) → AreOf setup added issued → AreOf setup more issued }
    ensures login { (setup : IdpConfig) (added more : List Added) (said : Login) →
        ((one : Added) → Contains added one → Contains more one) →
        IsRecordedLogin setup added said → IsRecordedLogin setup more said }
    ensures session { (setup : IdpConfig) (added more : List Added) (config : SpConfig) (now : ℕ)
        (session : NewSession) →
        ((one : Added) → Contains added one → Contains more one) →
        IsRecordedSession setup added config now session → IsRecordedSession setup more config now session }
{}

/// A login of what was signed for records is read of an Assertion of an issued record among them: where the Assertion
/// is signed, where the Response that carries it is, and where both are. What was signed for a logout says no login.
pub fn a_login_that_was_signed_was_recorded()
    ensures { (setup : IdpConfig) (added : List Added) (issued : List Signed) (said : Login) →
        AreOf setup added issued → IsLoginOf issued said → IsRecordedLogin setup added said }
{
    sig_reference::laws::what_is_put_inside_says_the_same();
}

/// And the login that an issued record stands for is a login of each element that was signed for it, where its texts
/// are read as they were written.
pub fn a_login_that_was_recorded_was_signed()
    ensures { (setup : IdpConfig) (held : Held) (r : Issued) (element : Made) (s : Signed) →
        IsSignedOf setup held (kinds.Issued r) element → IsMade element → IsDocumentOf element s →
        CanBeRead (login_of setup.entity r) → IsLoginOf (s ∷ []) (login_of setup.entity r) }
{
    sig_reference::laws::what_is_put_inside_says_the_same();
}

/// What is read of an Assertion of an issued record is what the record says, in each field, but for white space at the
/// ends of the issuer and of the audience; where these have none, it is all that the record stands for. An Assertion
/// that has no ID, or answers no request, says no login.
pub fn what_is_read_is_what_the_record_says()
    ensures login { (issuer : List ℕ) (r : Issued) (made : Made) (said : Login) →
        IsAssertionOf (login_of issuer r) made → login (content (tree_of made) 0 None) ≡ Some said →
        said ≡ read_of issuer r }
    ensures ids { (issuer : List ℕ) (r : Issued) (made : Made) (said : Login) →
        IsAssertionOf (login_of issuer r) made → login (content (tree_of made) 0 None) ≡ Some said →
        (r.assertion ≢ []) × (r.request ≢ []) }
    ensures untrimmed { (issuer : List ℕ) (r : Issued) →
        CanBeRead (login_of issuer r) → read_of issuer r ≡ login_of issuer r }
{}

/// Where a recorded login is meant for a provider now, its session, of a key that counts, is that of an issued record
/// for this provider, to its address and in its time.
pub fn a_recorded_login_has_a_recorded_session()
    ensures { (setup : IdpConfig) (added : List Added) (config : SpConfig) (now : ℕ) (head : ResponseHead) (key : Key)
        (said : Login) →
        IsRecordedLogin setup added said → IsTrue (is_meant config now head said) → Contains (usable config now) key →
        IsRecordedSession setup added config now (session_of config now key.number said) }
{}

/// A login that a form brings was recorded, where the identity provider alone makes HMACs that match: what it signed is
/// of these records, nothing is forged, and no hash collides. A session that is opened is the session of an issued
/// record among them, which is for this provider.
pub fn a_session_that_is_opened_was_recorded()
    ensures login { (setup : IdpConfig) (added : List Added) (issued : List Signed) (config : SpConfig) (now : ℕ)
        (body : List ℕ) (b : Brought) →
        AreOf setup added issued → Unforged issued config now body → NoCollision issued body →
        Brings config now body b → IsRecordedLogin setup added b.login }
    ensures session { (setup : IdpConfig) (added : List Added) (issued : List Signed) (config : SpConfig)
        (rows : RowsView) (horizon now : ℕ) (body : List ℕ) (accepted : Accepted) →
        AreOf setup added issued → Unforged issued config now body → NoCollision issued body →
        IsOpening config rows horizon now body accepted → IsRecordedSession setup added config now accepted.session }
{
    login_origin::a_login_was_signed();
    sig_reference::laws::what_is_put_inside_says_the_same();
}
