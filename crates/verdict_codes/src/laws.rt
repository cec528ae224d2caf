//! Laws of the table of verdicts. Each function does nothing: what it ensures is the law.
ghost use Rattle.std.specs.Prelude.{◌≡◌};
ghost use Rattle.verdict_codes.specs.Codes.{number_of, name_of};
ghost use Rattle.verdict_codes.specs.declared.codes.Verdict.{Verdict};

/// No two verdicts have one number, and no two have one name.
pub fn no_two_verdicts_are_alike()
    ensures numbers { (a b : Verdict) → number_of a ≡ number_of b → a ≡ b }
    ensures names { (a b : Verdict) → name_of a ≡ name_of b → a ≡ b }
{}
