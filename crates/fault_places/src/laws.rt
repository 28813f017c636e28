//! Faults of typing are at tokens of the program.
ghost use Rattle.std.specs.Prelude.{Some};
ghost use Rattle.typing_rules.specs.declared.condition.Condition.TheVariants.{Mismatch};
ghost use Rattle.typing_rules.specs.Answers.{fault as false_at};
ghost use Rattle.typing_rules.specs.Rows.{IsAnswer};
ghost use Rattle.fault_places.specs.Numbers.{ProgramBelow};
ghost use Rattle.fault_places.specs.Rows.{mismatched};
ghost use Rattle.fault_places.specs.Laws.{FaultsAreAtTokens, FaultsAreInPrograms, FaultsStartInTexts, NumbersAreTokens};

/// A program is refused at a number that stands in it, or at that of its first token.
pub fn faults_are_in_programs()
    ensures { FaultsAreInPrograms }
{}

/// The numbers in the abstract syntax of a tree are those of tokens of which the tree is made.
pub fn numbers_are_tokens()
    ensures { NumbersAreTokens }
{}

/// A tree that is refused is so at one of its tokens.
pub fn faults_are_at_tokens()
    ensures { FaultsAreAtTokens }
{}

/// The token at which a tree is refused starts in the text of which the tokens are.
pub fn faults_start_in_texts()
    ensures { FaultsStartInTexts }
{}

/// `actor { let x : Nat = true }` is refused at `true`, its last number.
pub fn the_last_token_may_be_at_fault()
    ensures refused { IsAnswer mismatched (Some (false_at Mismatch 7)) }
    ensures below { ProgramBelow 8 mismatched }
    ensures last { ProgramBelow 7 mismatched → ⊥ }
{}
