// Why an element is not read.

use owned_values::NoMemory;

/// An element, or what stands in it, has another shape than the one that is asked for. Calls that take no memory answer
/// it.
#[derive(Clone, Copy, Debug, PartialEq, Eq)]
pub struct OtherShape;

/// Why an element was not read.
#[derive(Clone, Copy, Debug, PartialEq, Eq)]
pub enum ShapeFault {
    /// It has another shape than the one that is asked for.
    WrongShape,
    /// Memory ran out.
    NoMemory,
}

impl From<OtherShape> for ShapeFault {
    ghost use Rattle.std.specs.Prelude.{◌≡◌};
    ghost use Rattle.tree_read.specs.declared.fault.ShapeFault.TheVariants.{WrongShape};

    ghost from_gives = { λ _ e. e ≡ WrongShape };

    fn from(_: OtherShape) -> ShapeFault {
        ShapeFault::WrongShape
    }
}

impl From<NoMemory> for ShapeFault {
    ghost use Rattle.std.specs.Prelude.{◌≡◌};
    ghost use Rattle.tree_read.specs.declared.fault.ShapeFault.TheVariants.{NoMemory};

    ghost from_gives = { λ _ e. e ≡ NoMemory };

    fn from(_: NoMemory) -> ShapeFault {
        ShapeFault::NoMemory
    }
}
