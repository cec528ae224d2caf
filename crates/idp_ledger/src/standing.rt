//! What the records of an identity provider stand for.
use idp_rows::KeptRows;
use std::marker::Model;

/// The rows of records, and the least number above all that were drawn.
#[derive(Debug, Drop)]
pub struct IdpStanding {
    pub(crate) kept: KeptRows,
}

impl Model for IdpStanding {
    ghost use Rattle.idp_rows.specs.Kept.{StandingView};

    ghost Value = { StandingView };

    ghost view = { λ s. s.kept };
}
