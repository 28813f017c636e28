//! Public and system functions are written out to typed functions behind the declarations.
ghost use Rattle.method_laws.specs.Methods.{MethodsAreTyped, SystemsAreTyped};

/// A public function whose body becomes a typed tree wherever it stands becomes one of the type that its name has.
pub fn methods_are_typed()
    ensures { MethodsAreTyped }
{}

/// A system function whose body does becomes one that gives `()`.
pub fn systems_are_typed()
    ensures { SystemsAreTyped }
{}
