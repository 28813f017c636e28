//! Each function here does nothing, and its contract is a law.
ghost use Rattle.module_laws.specs.Laws.{HostFunctionsHaveNumbers, PrintsOnlyGrow, StoresAreRead};

/// A module that imports the whole interface of the host, in its order, calls each function by its place in it.
pub fn host_functions_have_numbers()
    ensures { HostFunctionsHaveNumbers }
{}

/// What was printed stays, whatever a module calls the host for.
pub fn prints_only_grow()
    ensures { PrintsOnlyGrow }
{}

/// What was stored in the memory is read from there, and what lies before and behind it is as it was.
pub fn stores_are_read()
    ensures { StoresAreRead }
{}
