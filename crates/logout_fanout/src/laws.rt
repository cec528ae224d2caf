//! Laws of a round. Each function does nothing: what it ensures is the law.
ghost use Rattle.logout_fanout.specs.Round.{AsksInOrder, SucceedsWhereEachConfirms};

/// A round whose providers have all answered says Success exactly where each confirmed and none was skipped.
pub fn a_round_succeeds_where_each_confirms()
    ensures { SucceedsWhereEachConfirms }
{}

/// Until then the provider at the place of the next answer is asked: each once, in order.
pub fn a_round_asks_in_order()
    ensures { AsksInOrder }
{}
