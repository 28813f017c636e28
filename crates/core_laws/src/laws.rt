//! Passes keep what programs do.
ghost use Rattle.core_laws.specs.Laws.{ConversionCarries, ConversionFollows, ConversionForms, FormedOrder, FormedQualify, PassesCarry, PassesFollow, ProgramsSettle, SplittingCarries, SplittingFollows, SplittingForms};

/// The actor of a converted program follows that of the program: after each number of turns of an execution it has printed and
/// weighs what the other one has after some, and where it has ended, the other one has ended alike.
pub fn conversion_carries_actors<Kept>()
    ensures { ConversionFollows Kept }
{}

/// A converted program does what the program does, at its weight and depth: in an execution, and in each one behind it.
pub fn conversion_carries_executions()
    ensures { ConversionCarries }
{}

/// Of a formed split program conversion makes a formed one, whose groups pay for what they see.
pub fn conversion_keeps_form()
    ensures { ConversionForms }
{}

/// What the laws ask of programs, formed programs have: methods, the save and the start nest no more than they have nodes, and groups make
/// groups before them alone.
pub fn formed_programs_qualify()
    ensures { FormedQualify }
{}

/// The actor of a program that was split and converted follows that of the program.
pub fn passes_carry_actors<Kept>()
    ensures { PassesFollow Kept }
{}

/// What conversion asks of split programs, formed ones have: groups make groups before them alone, and the bodies that are entered
/// use nothing that a group sees.
pub fn formed_split_programs_qualify()
    ensures { FormedOrder }
{}

/// A program that was split and converted does what the program does, at no more than twice the weight and no greater depth. Of the
/// program nothing is asked but that its methods, its save and its start nest no more than they have nodes, and that groups make groups
/// before them alone.
pub fn passes_carry_executions()
    ensures { PassesCarry }
{}

/// Executions of actors that have ended stay as they are, by any machine of these languages.
pub fn programs_settle<State, Waiting, Kept, Body>()
    ensures { ProgramsSettle State Waiting Kept Body }
{}

/// The actor of a split program follows that of the program, at no more than twice the weight and no greater depth.
pub fn splitting_carries_actors<Kept>()
    ensures { SplittingFollows Kept }
{}

/// A split program does what the program does, at no more than twice the weight and no greater depth: in an execution, and in
/// each one behind it.
pub fn splitting_carries_executions()
    ensures { SplittingCarries }
{}

/// Of a formed program splitting makes a formed one.
pub fn splitting_keeps_form()
    ensures { SplittingForms }
{}
