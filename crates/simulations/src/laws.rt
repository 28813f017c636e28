//! The theorem about whole runs.
ghost use Rattle.std.specs.Prelude.{◌≡◌, ℕ, Bool, true};
ghost use Rattle.simulations.specs.Machines.{Step};
ghost use Rattle.simulations.specs.Simulations.{Simulates, WholeRuns};

/// Where each step of a machine is met by some steps of another one, or by none while a measure falls, their whole runs
/// agree, in both directions. A relation is here what a test says; the lemma of `proofs/` has it for any relation.
pub fn simulated_runs_agree<Out, First, Second, FirstEnd, SecondEnd>()
    ensures { (step : First → Step Out First FirstEnd) (other : Second → Step Out Second SecondEnd) (related : First → Second → Bool) (fits : FirstEnd → SecondEnd → Bool) (measure : First → ℕ) → Simulates step other (λ s t. related s t ≡ true) (λ r q. fits r q ≡ true) measure → WholeRuns step other (λ s t. related s t ≡ true) (λ r q. fits r q ≡ true) measure }
{}
