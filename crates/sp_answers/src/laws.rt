//! Laws of the definitions. Each function does nothing: what it ensures is the law.
ghost use Rattle.sp_answers.specs.Judging.{LikeRowsAcceptAlike, LikeRowsOpenAlike, LikeRowsRefuseAlike, WhatIsAcceptedCanBeRecorded};

/// What a form opens, what is accepted of it and with which verdict it is refused depends on no more of the rows than
/// which request was asked, whether it is spent, and whether an assertion was seen.
pub fn like_rows_are_judged_alike()
    ensures opens { LikeRowsOpenAlike }
    ensures accepts { LikeRowsAcceptAlike }
    ensures refuses { LikeRowsRefuseAlike }
{}

/// The session of each form that is accepted can be recorded.
pub fn what_is_accepted_can_be_recorded()
    ensures { WhatIsAcceptedCanBeRecorded }
{
    canon_laws::a_spelled_tree_is_writable();
    assertion_model::laws::the_texts_of_a_login_are_texts();
}
