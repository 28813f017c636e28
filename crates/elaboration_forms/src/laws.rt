//! Laws of the relation.
ghost use Rattle.elaboration_forms.specs.Meets.{ExpressionsElaborate, FunctionsElaborate};

/// What the function makes is code of the expression, where the groups that it makes stand in the table, and names, awaits, errors and calls
/// stand where they may.
pub fn elaboration_gives_code()
    ensures expressions { ExpressionsElaborate }
    ensures functions { FunctionsElaborate }
{}
