//! Laws of the definitions. Each function does nothing: what it ensures is the law.
ghost use Rattle.std.specs.Prelude.{◌≡◌, ℕ, List};
ghost use Rattle.std.specs.List.{AllByRecursion};
ghost use Rattle.xml_spec.specs.Characters.{IsText};
ghost use Rattle.peer_keys.specs.declared.peers.LogoutPeer.{LogoutPeer};
ghost use Rattle.verdict_codes.specs.declared.codes.Verdict.{Verdict};
ghost use Rattle.idp_rules.specs.declared.asked.Asked.{Asked};
ghost use Rattle.idp_rules.specs.Asking.{IsAsked};
ghost use Rattle.idp_rules.specs.Config.{IsTextPeer};
ghost use Rattle.idp_rules.specs.Laws.{EachRequestIsJudged};
ghost use Rattle.idp_rules.specs.Verdict.{IsRefused};

/// A form that asks for a login asks for one alone, and is refused for nothing; a form that is refused is refused with one
/// verdict.
pub fn a_request_has_one_verdict()
    ensures asked { (peers : List LogoutPeer) (address body : List ℕ) (one other : Asked) →
        IsAsked peers address body one → IsAsked peers address body other → one ≡ other }
    ensures accepted { (peers : List LogoutPeer) (address body : List ℕ) (asked : Asked) (verdict : Verdict) →
        IsAsked peers address body asked → ¬ (IsRefused peers address body verdict) }
    ensures refused { (peers : List LogoutPeer) (address body : List ℕ) (one other : Verdict) →
        IsRefused peers address body one → IsRefused peers address body other → one ≡ other }
{}

/// The ID of a request that is asked, and the address that its Response goes to, are texts that a document may hold (XML 1.0,
/// 2.2), where those of the peers are.
pub fn the_texts_of_a_request_are_texts()
    ensures { (peers : List LogoutPeer) (address body : List ℕ) (asked : Asked) → AllByRecursion IsTextPeer peers →
        IsAsked peers address body asked → IsText asked.request × IsText asked.consumer }
{
    canon_laws::a_spelled_tree_is_writable();
}

/// Each form asks for a login, or it is refused with a verdict: it can't be that neither holds.
pub fn each_request_is_judged()
    ensures { EachRequestIsJudged }
{}
