//! Laws of what is known.
ghost use Rattle.met_types.specs.States.{Goes, State};
ghost use Rattle.shareable_types.specs.declared.sharing.Sharing.{Sharing};
ghost use Rattle.shareable_types.specs.Answers.{Stands};

/// What is known of types stays while terms are added and types are met.
pub fn sharing_stays()
    ensures { (old new : State) (a : Sharing) → Goes old new → Stands old a → Stands new a }
{}
