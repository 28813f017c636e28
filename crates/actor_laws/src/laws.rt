//! What the declarations of an actor are written out to.
ghost use Rattle.actor_laws.specs.Actors.{ActorsAreMade};
ghost use Rattle.actor_laws.specs.Order.{ActorsAreWalked};

/// Each declaration of an actor becomes a typed one where it stands, and each public and system function a typed one behind them.
pub fn actors_are_made()
    ensures { ActorsAreMade }
{}

/// They are typed in the order of evaluation, where the actor's own name, its public functions and what was kept of its stable variables stand around them.
pub fn actors_are_walked()
    ensures { ActorsAreWalked }
{}
