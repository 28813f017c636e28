//! What executions and events come to.
use arena_actors::{Activation, Actor, Body, Made};
use arena_executions::{Execution, Outgoing};
use arena_states::GroupOf;
use mo_num::{Bytes, Sequence};
use play_script::Items;
use value_arena::ValueId;

/// How a completed execution leaves its activation: Motoko language manual, sections "Await" and "Return".
#[derive(Drop)]
pub enum Ending<'a> {
    /// The incoming call is answered with these bytes.
    Replies(Bytes),
    /// It is rejected with this message, and the code 4.
    Rejects(Bytes),
    /// It waits on the call of this number.
    Waits(u64, Body<'a>),
    /// It waits on no call.
    Sleeps,
    /// As it was.
    Unchanged,
}

/// A completed execution: the actor with the store that it leaves, the calls that it made, and what it printed.
#[derive(Drop)]
pub struct Done<'a> {
    pub actor: Actor<'a>,
    pub calls: Sequence<Outgoing>,
    pub prints: Sequence<Bytes>,
    pub ending: Ending<'a>,
}

/// What an execution over so many turns comes to, with the groups of functions that it knows.
#[derive(Drop)]
pub enum Ran<'a> {
    /// It needs more turns.
    Still(Vec<GroupOf<'a>>),
    /// It traps with this text, behind these prints.
    Traps(Vec<GroupOf<'a>>, Sequence<Bytes>, Bytes),
    Completes(Done<'a>),
}

/// What an actor has beside the machine.
#[derive(Drop)]
pub struct Rest<'a> {
    pub exports: ValueId,
    pub first: u64,
    pub made: Sequence<Made>,
    pub came: Sequence<Activation<'a>>,
}

/// An execution where it begins, and what is laid aside.
#[derive(Drop)]
pub struct Begun<'a> {
    pub rest: Rest<'a>,
    pub execution: Execution<'a>,
}

/// The items of an event, and the actor behind it.
#[derive(Drop)]
pub struct Over<'a> {
    pub items: Items,
    pub actor: Actor<'a>,
}

/// What an event comes to.
#[derive(Drop)]
pub enum Lived<'a> {
    /// Its execution needs more turns, with these groups of functions.
    Still(Vec<GroupOf<'a>>),
    /// It means nothing.
    Ignored,
    Over(Over<'a>),
}
