//! Names of types that come into scope.
ghost use Rattle.scope_laws.specs.Laws.{ParametersStayFine, ListsStayFine, BoundsStayIn, ClassesAreObjects, PublicFieldsArePlain};

/// Names of types stay fine with the type parameters of a function.
pub fn parameters_stay_fine()
    ensures { ParametersStayFine }
{}

/// Names of types stay fine with those that a list defines, where its definitions are as they have to be.
pub fn lists_stay_fine()
    ensures { ListsStayFine }
{}

/// The bounds of a function's type parameters mention only those in scope.
pub fn bounds_stay_in()
    ensures { BoundsStayIn }
{}

/// The type of a class is one of objects with its public fields.
pub fn classes_are_objects()
    ensures { ClassesAreObjects }
{}

/// Public fields that are as they have to be have no type parameters.
pub fn public_fields_are_plain()
    ensures { PublicFieldsArePlain }
{}
