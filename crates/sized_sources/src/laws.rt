//! Laws of programs.
ghost use Rattle.sized_sources.specs.Laws.{WrittenOutProgramsAreSized};

/// What a judged program is written out to opens no more at once in any body than the body has nodes.
pub fn written_out_programs_are_sized()
    ensures { WrittenOutProgramsAreSized }
{}
