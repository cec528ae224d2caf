// Why an element is not read as a login.

use owned_values::NoMemory;
use tree_read::ShapeFault;

/// Why an assertion was not read.
#[derive(Clone, Copy, Debug, PartialEq, Eq)]
pub enum LoginFault {
    /// It is not one that logs a user in (SAML Profiles, 4.1.4.2).
    BadAssertion,
    /// Memory ran out.
    NoMemory,
}

impl From<ShapeFault> for LoginFault {
    ghost use Rattle.std.specs.Prelude.{◌≡◌};
    ghost use Rattle.assertion_model.specs.Faults.{of_shape};

    ghost from_gives = { λ fault e. e ≡ of_shape fault };

    fn from(fault: ShapeFault) -> LoginFault {
        match fault {
            ShapeFault::WrongShape => LoginFault::BadAssertion,
            ShapeFault::NoMemory => LoginFault::NoMemory,
        }
    }
}

impl From<NoMemory> for LoginFault {
    ghost use Rattle.std.specs.Prelude.{◌≡◌};
    ghost use Rattle.assertion_model.specs.declared.fault.LoginFault.TheVariants.{NoMemory};

    ghost from_gives = { λ _ e. e ≡ NoMemory };

    fn from(_: NoMemory) -> LoginFault {
        LoginFault::NoMemory
    }
}
