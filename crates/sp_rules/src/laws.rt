//! Laws of the definitions. Each function does nothing: what it ensures is the law.
ghost use Rattle.std.specs.Prelude.{◌≡◌, ℕ, List};
ghost use Rattle.request_rows.specs.Rows.{RowsView};
ghost use Rattle.request_rows.specs.declared.row.AskedRow.{AskedRow};
ghost use Rattle.verdict_codes.specs.declared.codes.Verdict.{Verdict};
ghost use Rattle.sp_rules.specs.declared.config.SpConfig.{SpConfig};
ghost use Rattle.sp_rules.specs.declared.accepted.Accepted.{Accepted};
ghost use Rattle.sp_rules.specs.Laws.{WhatOpensIsAccepted, EachFormIsJudged};
ghost use Rattle.sp_rules.specs.Opening.{Brought, Opens};
ghost use Rattle.sp_rules.specs.Shown.{IsOpening};
ghost use Rattle.sp_rules.specs.Verdict.{IsRefused};

/// A form that opens a session is refused for nothing, and opens one session alone: it brings one login, for one outstanding
/// request, and one thing is accepted of it. A form that is refused is refused with one verdict.
pub fn a_form_has_one_verdict()
    ensures opened { (config : SpConfig) (rows : RowsView) (horizon now : ℕ) (body : List ℕ) (b : Brought) (asked : AskedRow) (verdict : Verdict) →
        Opens config rows horizon now body b asked → ¬ (IsRefused config rows horizon now body verdict) }
    ensures refused { (config : SpConfig) (rows : RowsView) (horizon now : ℕ) (body : List ℕ) (one other : Verdict) →
        IsRefused config rows horizon now body one → IsRefused config rows horizon now body other → one ≡ other }
    ensures one_login { (config : SpConfig) (rows : RowsView) (horizon now : ℕ) (body : List ℕ) (b other : Brought) (row for_other : AskedRow) →
        Opens config rows horizon now body b row → Opens config rows horizon now body other for_other → b ≡ other }
    ensures one_row { (config : SpConfig) (rows : RowsView) (horizon now : ℕ) (body : List ℕ) (b other : Brought) (row for_other : AskedRow) →
        Opens config rows horizon now body b row → Opens config rows horizon now body other for_other → row ≡ for_other }
    ensures one_session { (config : SpConfig) (rows : RowsView) (horizon now : ℕ) (body : List ℕ) (one other : Accepted) →
        IsOpening config rows horizon now body one → IsOpening config rows horizon now body other → one ≡ other }
{}

/// Each form opens a session, or it is refused with a verdict: it can't be that neither holds. Something is accepted of each form
/// that opens a session.
pub fn each_form_is_judged()
    ensures judged { EachFormIsJudged }
    ensures accepted { WhatOpensIsAccepted }
{}
