//! The order of the list of an actor as it is written and as it is made.
ghost use Rattle.actor_order.specs.Laws.{ActorsAreInOrder};

/// The list of an actor, whose names differ and in which nothing is used before it is defined, is judged to be one in which each function has a place behind all
/// that it uses, and nothing is used before its place, where the actor's own name and its public functions stand around it.
pub fn actors_are_in_order()
    ensures { ActorsAreInOrder }
{}
