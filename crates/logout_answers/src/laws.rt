//! Laws of the answers. A function changes nothing: what it ensures is the law.
ghost use Rattle.std.specs.Prelude.{ℕ, ◌≤◌};
ghost use Rattle.saml_time.specs.declared.TheConstants.{LAST};
ghost use Rattle.logout_answers.specs.Laws.{EachUserIsAnswered, EachPeerIsAnswered};

/// At each moment that has a written form there is an answer to each user who leaves, and to each peer that asks to end sessions.
pub fn each_logout_has_an_answer()
    ensures leaving { (now : ℕ) → now ≤ LAST → EachUserIsAnswered now }
    ensures ending { (now : ℕ) → now ≤ LAST → EachPeerIsAnswered now }
{
    saml_time::each_moment_is_told();
}
