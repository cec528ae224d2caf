//! Laws of the definitions that the contracts cite. Each function does nothing: what it ensures is the law.
ghost use Rattle.std.specs.Prelude.{◌≡◌, ◌<◌, ℕ, List, Some};
ghost use Rattle.std.specs.List.{All};
ghost use Rattle.ledger_records.specs.declared.sp_record.SpRecord.{SpRecord};
ghost use Rattle.ledger_records.specs.declared.idp_record.IdpRecord.{IdpRecord};
ghost use Rattle.ledger_records.specs.declared.hub_record.HubRecord.{HubRecord};
ghost use Rattle.ledger_records.specs.Found.{sp_record, idp_record};
ghost use Rattle.ledger_records.specs.HubFound.{hub_record};
ghost use Rattle.ledger_records.specs.SpRecord.{IsSpPayload};
ghost use Rattle.ledger_records.specs.IdpRecord.{IsIdpPayload};
ghost use Rattle.ledger_records.specs.HubRecord.{IsHubPayload};

/// A payload is one record of a service provider at most: the bytes of two records are equal only where the records are.
pub fn a_payload_is_one_sp_record()
    ensures { (version : ℕ) (payload : List ℕ) (one other : SpRecord) → IsSpPayload version payload one → IsSpPayload version payload other → one ≡ other }
{}

/// A payload is one record of an identity provider at most.
pub fn a_payload_is_one_idp_record()
    ensures { (payload : List ℕ) (one other : IdpRecord) → IsIdpPayload payload one → IsIdpPayload payload other → one ≡ other }
{}

/// A payload is one record of a hub at most.
pub fn a_payload_is_one_hub_record()
    ensures { (payload : List ℕ) (one other : HubRecord) → IsHubPayload payload one → IsHubPayload payload other → one ≡ other }
{}

/// The record that a payload is is found as a function of its bytes.
pub fn a_record_is_found_in_its_payload()
    ensures sp { (version : ℕ) (payload : List ℕ) (r : SpRecord) → IsSpPayload version payload r → sp_record version payload ≡ Some r }
    ensures idp { (payload : List ℕ) (r : IdpRecord) → IsIdpPayload payload r → idp_record payload ≡ Some r }
    ensures hub { (payload : List ℕ) (r : HubRecord) → IsHubPayload payload r → hub_record payload ≡ Some r }
{}

/// What is found in bytes is the record whose payload they are. So with the law above the functions that find records are
/// fixed by the bytes of each record.
pub fn a_found_record_has_that_payload()
    ensures sp { (version : ℕ) (payload : List ℕ) (r : SpRecord) → All (λ b. b < 256) payload → sp_record version payload ≡ Some r → IsSpPayload version payload r }
    ensures idp { (payload : List ℕ) (r : IdpRecord) → All (λ b. b < 256) payload → idp_record payload ≡ Some r → IsIdpPayload payload r }
    ensures hub { (payload : List ℕ) (r : HubRecord) → All (λ b. b < 256) payload → hub_record payload ≡ Some r → IsHubPayload payload r }
{}
