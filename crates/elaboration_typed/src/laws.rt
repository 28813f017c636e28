//! Laws of well-typed programs.
ghost use Rattle.elaboration_typed.specs.Names.{CodeIsNamed, MethodsAreNamed};
ghost use Rattle.elaboration_typed.specs.Standing.{ActorsStand};

/// A well-typed program, in which `next` of an iterator is not written, and whose functions behind the declarations are typed where what an upgrade kept stands
/// for nothing, and whose declarations have no more names than nodes, is one of declarations that end in its methods, its hooks and its cells, and each of its
/// names has a place where it is elaborated.
pub fn typed_actors_stand()
    ensures { ActorsStand }
{}

/// Where a well-typed program is elaborated, its methods have different names, by which they may be called, and `__resume` is one of them; where it is one of
/// declarations, the names, labels, groups and names of the actor that code names are there, and each action has its operands.
pub fn typed_programs_are_named()
    ensures methods { MethodsAreNamed }
    ensures code { CodeIsNamed }
{}
