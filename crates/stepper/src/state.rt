//! What a stepper is, and what its events come to.
use arena_actors::Actor;
use mo_num::Principal;
use play_script::Items;
use typed_tree::Program;

/// An actor with its program.
#[derive(Drop)]
pub struct Running<'a> {
    pub program: &'a Program,
    pub actor: Actor<'a>,
}

/// The state between events.
#[derive(Drop)]
pub enum State<'a> {
    /// No actor, and so many incoming calls so far.
    NoActor(u64),
    Running(Running<'a>),
}

/// Programs by their numbers, the actor's own principal, and its state.
#[derive(Drop)]
pub struct Stepper<'a> {
    pub programs: &'a [Program],
    pub own: &'a Principal,
    pub state: State<'a>,
}

/// What an event comes to.
#[derive(Drop)]
pub enum Stepped {
    Items(Items),
    /// One of its executions needs more turns.
    Still,
    /// Nothing is said of an installation over an actor.
    NoCourse,
}

/// The items of an event, and the state behind it.
#[derive(Drop)]
pub struct Behind<'a> {
    pub items: Items,
    pub state: State<'a>,
}

/// What an event comes to from a state, which itself stays as it is.
#[derive(Drop)]
pub enum Next<'a> {
    /// One of its executions needs more turns.
    Still,
    /// Nothing is said of it.
    NoCourse,
    /// It means nothing.
    Ignored,
    Behind(Behind<'a>),
}
