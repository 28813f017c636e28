//! Laws of actors of well-typed programs.
ghost use Rattle.elaboration_sound.specs.Events.{ActorsServe};
ghost use Rattle.elaboration_sound.specs.Starts.{SavesHold, StartsStayInside};

/// In each committed state that is typed, a call of a method by a principal and an answer to an open call begin executions in which each state is as
/// elaboration asks, and which never break; what any event leaves is typed again. Starts leave typed states, too.
pub fn typed_actors_serve()
    ensures { ActorsServe }
{}

/// The start of a well-typed program, also over what an upgrade kept, calls and awaits nothing, throws no error, and jumps nowhere behind the
/// declarations; nor does the hook before an upgrade. Where that has ended, the cells of the stable variables hold values of their types.
pub fn typed_starts_stay_inside()
    ensures starts { StartsStayInside }
    ensures saves { SavesHold }
{}
