//! Runs of a machine, computed.
ghost use Rattle.std.specs.Prelude.{◌≡◌};
ghost use Rattle.simulations.specs.Rows.{stands, wanted_stands};

/// How a machine stands that counts down, after some steps.
pub fn runs_are_as_wanted()
    ensures { stands ≡ wanted_stands }
{}
