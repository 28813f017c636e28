//! What an upgrade comes to.
use arena_outcomes::Over;
use arena_states::GroupOf;

/// What an upgrade comes to over so many turns for each of its executions.
#[derive(Drop)]
pub enum Upgrade<'a> {
    /// An execution needs more turns, with these groups of functions.
    Still(Vec<GroupOf<'a>>),
    /// A trap leaves the old program with its actor.
    Stays(Over<'a>),
    /// The new program has begun.
    Upgrades(Over<'a>),
}
