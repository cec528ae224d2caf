//! Laws of the definitions that the contracts cite. Each function does nothing: what it ensures is the law.
ghost use Rattle.std.specs.Prelude.{◌≡◌, ℕ, List};
ghost use Rattle.ledger_rules.specs.Order.{KeyTexts, IsOrder};

/// Keys have one order: whatever list of places an index shows, its rows determine it.
pub fn keys_have_one_order()
    ensures { (keys : List KeyTexts) (one other : List ℕ) → IsOrder keys one → IsOrder keys other → one ≡ other }
{}
