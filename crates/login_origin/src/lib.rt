//! Where a login comes from. If only the identity provider makes HMACs that match, and no other text has the hash of one that
//! it signed, each login that opens a session is one that the identity provider signed (SAML Core, 5.4; SAML Profiles,
//! 4.1.4.5). What lies outside the signed elements changes nothing but the key, of one config, at one moment and over the same
//! rows.
//!
//! The premises are `Unforged` and `NoCollision` of `Premises.antt`. They speak of the signed elements of one posted form, and
//! of a list of all elements that the identity provider signed. That HMAC and SHA-256 are strong is not said.
//!
//! # What is proved
//!
//! Of each list of signed elements, under the premises that no HMAC is forged and no hash collides: a login that a form
//! brings is that of a signed Assertion, or of the one Assertion of a signed Response, and a session is that of such a
//! login for this provider (`a_login_was_signed`). Two forms that one config accepts at one moment over the same rows,
//! and whose covered elements have equal canonical bytes without their Signatures, open equal sessions, but for the
//! key, with equal targets (`equal_covered_texts_give_equal_sessions`). A form with one signature can meet the premises
//! (`a_form_with_one_signature_meets_the_premises`).
#![tactic(auto)]

ghost use Rattle.std.specs.Prelude.{◌≡◌, ℕ, List, [], ◌∷◌};
ghost use Rattle.std.specs.List.{AllByRecursion};
ghost use Rattle.request_rows.specs.Rows.{RowsView};
ghost use Rattle.sp_rules.specs.declared.accepted.Accepted.{Accepted};
ghost use Rattle.sp_rules.specs.declared.config.SpConfig.{SpConfig};
ghost use Rattle.sp_rules.specs.Covering.{signed_of};
ghost use Rattle.sp_rules.specs.Opening.{Brought, Brings};
ghost use Rattle.sp_rules.specs.Shown.{IsOpening};
ghost use Rattle.login_origin.specs.Signed.{Signed, IsSigned};
ghost use Rattle.login_origin.specs.Premises.{Unforged, NoCollision};
ghost use Rattle.login_origin.specs.Origin.{IsLoginOf, IsSessionOf, covered_text};

/// A login that a form brings is the login of an Assertion that the identity provider signed, or of the one Assertion of a
/// Response that it signed. A session that is opened is the session of such a login, which is for this provider.
pub fn a_login_was_signed()
    ensures login { (issued : List Signed) (config : SpConfig) (now : ℕ) (body : List ℕ) (b : Brought) → AllByRecursion IsSigned issued →
        Unforged issued config now body → NoCollision issued body → Brings config now body b → IsLoginOf issued b.login }
    ensures session { (issued : List Signed) (config : SpConfig) (rows : RowsView) (horizon now : ℕ) (body : List ℕ) (accepted : Accepted) →
        AllByRecursion IsSigned issued → Unforged issued config now body → NoCollision issued body → IsOpening config rows horizon now body accepted →
        IsSessionOf issued config now accepted.session }
{}

/// Two forms that open a session at one moment, with the same rows, open equal sessions with equal targets, where the first
/// signed elements that they bring have one canonical form without their Signatures. The sessions may differ in the key alone.
/// So nothing outside that element is shown.
pub fn equal_covered_texts_give_equal_sessions()
    ensures target { (config : SpConfig) (rows : RowsView) (horizon now : ℕ) (body other : List ℕ) (prefixes others : List (List ℕ)) (one two : Accepted)
        (o : IsOpening config rows horizon now body one) (t : IsOpening config rows horizon now other two) →
        covered_text o.brought prefixes ≡ covered_text t.brought others → one.target ≡ two.target }
    ensures session { (config : SpConfig) (rows : RowsView) (horizon now : ℕ) (body other : List ℕ) (prefixes others : List (List ℕ)) (one two : Accepted)
        (o : IsOpening config rows horizon now body one) (t : IsOpening config rows horizon now other two) →
        covered_text o.brought prefixes ≡ covered_text t.brought others → one.session ≡ record two.session { key = one.session.key } }
{}

/// The premises can be met: they hold of a form that brings a login by one signature, where what the identity provider signed is
/// just the element with that.
pub fn a_form_with_one_signature_meets_the_premises()
    ensures { (config : SpConfig) (now : ℕ) (body : List ℕ) (b : Brought) → Brings config now body b → signed_of b.carried.tree b.p ≡ b.e ∷ [] →
        (issued : List Signed) × AllByRecursion IsSigned issued × Unforged issued config now body × NoCollision issued body }
{}
