//! That a source has one answer, that its program is well typed, and that a fault of typing is at a token of it.
ghost use Rattle.std.specs.Prelude.{◌≡◌, List, ℕ};
ghost use Rattle.typed_tree.specs.declared.program.Program.{Program};
ghost use Rattle.mo_front.specs.declared.fault.FrontFault.{FrontFault as fault};
ghost use Rattle.mo_front.specs.declared.fault.FrontFault.TheVariants.{Memory as no_memory};
ghost use Rattle.mo_front.specs.Fronts.{Accepted, AcceptedAreWellTyped, Alike, FaultsOfTypingStartTokens, RefusedBy};

/// What a source is judged to be is one program; its types may be numbered in several orders. It is accepted, or refused by one fault,
/// and not both. Where no tree spells its tokens, reading may stop at several places.
pub fn a_source_has_one_answer()
    ensures one_program { (source : List ℕ) → (p q : Program) (h : Accepted source p) (k : Accepted source q) → h.typed.judged ≡ k.typed.judged }
    ensures either { (source : List ℕ) → (p : Program) → (f : fault) → Accepted source p → RefusedBy source f → f ≡ no_memory }
    ensures one_fault { (source : List ℕ) → (f g : fault) → RefusedBy source f → RefusedBy source g → (f ≡ no_memory → ⊥) → (g ≡ no_memory → ⊥) → Alike f g }
{}

/// The program that an accepted source is written out to is well typed.
pub fn accepted_programs_are_well_typed()
    ensures { AcceptedAreWellTyped }
{}

/// A source that is refused by a rule of typing is so at the start of one of its tokens, and never at 0 for want of one.
pub fn faults_of_typing_start_tokens()
    ensures { FaultsOfTypingStartTokens }
{}
