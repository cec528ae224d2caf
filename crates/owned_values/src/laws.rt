//! Laws of the definitions that the contracts cite. Each function does nothing: what it ensures is the law.
ghost use Rattle.std.specs.Prelude.{◌≡◌, Option, Some, Result};
ghost use Rattle.owned_values.specs.Gives.{Gives};

/// What a call may return is fixed by what the definition gives, but for want of memory: it returns one value or one
/// fault.
pub fn what_is_given_is_one_answer<X, Y, E, F>()
    ensures values { (view : X → Y) (fault_of : E → Option F) (expected : Result Y F) (a b : X) →
        Gives view fault_of (Ok a) expected → Gives view fault_of (Ok b) expected → view a ≡ view b }
    ensures faults { (view : X → Y) (fault_of : E → Option F) (expected : Result Y F) (e : E) (fault : F) →
        fault_of e ≡ Some fault → Gives view fault_of (Err e) expected → expected ≡ Err fault }
    ensures refuses { (view : X → Y) (fault_of : E → Option F) (expected : Result Y F) (a : X) (e : E) →
        Gives view fault_of (Ok a) expected → Gives view fault_of (Err e) expected → fault_of e ≡ None }
{}
