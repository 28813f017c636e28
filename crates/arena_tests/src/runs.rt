//! What small programs come to. The numbers are counted by hand.
ghost use Rattle.arena_equality.specs.Own.{AreOwnLabels};

use crate::programs::{
    catching, endless, going_through, leaving, looping, recursing, throwing, trapping,
};
use arena_machine::{Halt, Machine, Ran, run};
use arena_states::{Code, Focus};
use mo_num::{Kind, Memory, Sequence};
use mo_types::TypeGraph;
use std::alloc::Global;
use std::test::Fail;
use typed_tree::TypedExpression;
use value_arena::{Arena, EnvironmentId};

// No types.
#[tactic(auto, using(crate::proofs::NoTypes::no_labels))]
fn no_types(alloc: Global) -> TypeGraph
    ensures { AreOwnLabels result }
{
    TypeGraph::new(alloc)
}

/// What a program comes to.
#[derive(Drop)]
enum Outcome {
    Number(Option<i128>),
    Error(Option<bool>),
    Traps(bool),
    Still,
    Other,
}

// A program for so many turns, and how many texts it prints.
fn ran(alloc: Global, tree: &TypedExpression, turns: u64) -> Result<(Outcome, usize), Memory> {
    let types = no_types(alloc);
    let mut machine = Machine {
        arena: Arena::new(alloc),
        table: Vec::new(alloc),
        store: Vec::new(alloc),
        frames: Vec::new(alloc),
        prints: Sequence::new(alloc),
    };
    let focus = Focus::Eval(Code::Tree(tree), EnvironmentId::Empty);
    let outcome = match run(alloc, &mut machine, &types, focus, turns)? {
        Ran::Still(_) => Outcome::Still,
        Ran::Halted(halt, _) => match halt {
            Halt::Ends(value) => Outcome::Number(machine.arena.number_of(Kind::Nat, value)),
            Halt::Throws(error) => {
                let message = machine.arena.message_in(error);
                Outcome::Error(message.map(|text| text == b"no".as_slice()))
            }
            Halt::Traps(text) => Outcome::Traps(
                text.as_slice() == b"index out of bounds".as_slice(),
            ),
            Halt::Asks(..) => Outcome::Other,
            Halt::Awaits(..) => Outcome::Other,
            Halt::Breaks => Outcome::Other,
        },
    };
    Ok((outcome, machine.prints.len()))
}

#[test]
fn loops_and_calls_give_their_sums(rt: HostRuntime) -> Result<(), Fail> {
    let alloc = rt.alloc();
    let (sum, _) = ran(alloc, &looping(alloc)?, 1000)?;
    assert!(rt; matches!(sum, Outcome::Number(Some(45))));
    let (sum, _) = ran(alloc, &recursing(alloc)?, 1000)?;
    assert!(rt; matches!(sum, Outcome::Number(Some(55))));
    let (sum, _) = ran(alloc, &going_through(alloc)?, 1000)?;
    assert!(rt; matches!(sum, Outcome::Number(Some(6))));
    Ok(())
}

#[test]
fn turns_are_limited(rt: HostRuntime) -> Result<(), Fail> {
    let alloc = rt.alloc();
    let (outcome, _) = ran(alloc, &endless(alloc)?, 5000)?;
    assert!(rt; matches!(outcome, Outcome::Still));
    let (outcome, _) = ran(alloc, &looping(alloc)?, 20)?;
    assert!(rt; matches!(outcome, Outcome::Still));
    Ok(())
}

#[test]
fn jumps_errors_and_traps_go_outward(rt: HostRuntime) -> Result<(), Fail> {
    let alloc = rt.alloc();
    let (value, _) = ran(alloc, &leaving(alloc)?, 100)?;
    assert!(rt; matches!(value, Outcome::Number(Some(7))));
    let (error, prints) = ran(alloc, &throwing(alloc)?, 100)?;
    assert!(rt; matches!(error, Outcome::Error(Some(true))));
    assert_eq!(rt; prints, 1);
    let (caught, prints) = ran(alloc, &catching(alloc, throwing(alloc)?)?, 100)?;
    assert!(rt; matches!(caught, Outcome::Number(Some(5))));
    assert_eq!(rt; prints, 1);
    let (trap, _) = ran(alloc, &trapping(alloc)?, 100)?;
    assert!(rt; matches!(trap, Outcome::Traps(true)));
    Ok(())
}
