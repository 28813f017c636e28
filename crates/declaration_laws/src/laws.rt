//! Declarations of lists are written out to typed ones.
ghost use Rattle.declaration_laws.specs.Classes.{ClassesAreTyped};
ghost use Rattle.declaration_laws.specs.Objects.{BlocksAreTyped, ObjectsAreTyped, NamedObjectsAreTyped};
ghost use Rattle.declaration_laws.specs.Laws.{SignaturesAreKnown, DeclaredFunctionsAreTyped, LetsAreTyped, VariablesAreTyped, StableVariablesAreTyped, ValuesAreTyped, StepsAreFacts, StableStepsAreFacts, ValuesAreFacts, FunctionsAreFacts};

/// The signature of a function, or of a class, gives its type by what is written.
pub fn signatures_are_known()
    ensures { SignaturesAreKnown }
{}

/// A function of a list, whose body becomes a typed tree wherever it stands, becomes one of its signature.
pub fn declared_functions_are_typed()
    ensures { DeclaredFunctionsAreTyped }
{}

/// A `let` becomes a step that binds the names of its pattern.
pub fn lets_are_typed()
    ensures { LetsAreTyped }
{}

/// So does a `var` that is not stable.
pub fn variables_are_typed()
    ensures { VariablesAreTyped }
{}

/// A stable `var` does where what was kept of it stands.
pub fn stable_variables_are_typed()
    ensures { StableVariablesAreTyped }
{}

/// An expression becomes a value of the type that it gives.
pub fn values_are_typed()
    ensures { ValuesAreTyped }
{}

/// A step that is made so is a fact of its list, where each name that it uses stands.
pub fn steps_are_facts()
    ensures { StepsAreFacts }
{}

/// So is a step that binds a stable variable, where what was kept of it stands around the list.
pub fn stable_steps_are_facts()
    ensures { StableStepsAreFacts }
{}

/// So is an expression.
pub fn values_are_facts()
    ensures { ValuesAreFacts }
{}

/// So is a function.
pub fn functions_are_facts()
    ensures { FunctionsAreFacts }
{}

/// An object with a name, whose fields become an object wherever they stand, becomes a step that binds its name.
pub fn named_objects_are_typed()
    ensures { NamedObjectsAreTyped }
{}

/// An object with declarations, whose fields become an object wherever they stand, becomes a typed tree.
pub fn objects_are_typed()
    ensures { ObjectsAreTyped }
{}

/// A block, whose list becomes one wherever it stands, becomes a typed tree.
pub fn blocks_are_typed()
    ensures { BlocksAreTyped }
{}

/// A class of a list, whose fields become an object wherever they stand, becomes a function of its signature.
pub fn classes_are_typed()
    ensures { ClassesAreTyped }
{}
