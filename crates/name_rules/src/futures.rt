//! Where calls that give a future stand, and names of such calls.
ghost use Rattle.std.specs.Prelude.{◌≡◌, ◌||◌, ◌&&◌, List, is_some, not, IfOk, IfSome, OnOk};
ghost use Rattle.mo_types.specs.Heads.{async_of};
ghost use Rattle.typing_rules.specs.Terms.{Term};
ghost use Rattle.typing_rules.specs.AsyncPlaces.{FuturePlaced, calls};
ghost use Rattle.type_definitions.specs.Meanings.{term};
ghost use Rattle.type_definitions.specs.Tables.{Within};
ghost use Rattle.met_types.specs.States.{Goes, Kept, Stands};
ghost use Rattle.value_scopes.specs.Places.{body_in};
ghost use Rattle.value_scopes.specs.declared.scopes.Scopes.{Scopes};
ghost use Rattle.judging.specs.Answers.{Answers};
ghost use Rattle.judging.specs.Parts.{Sound};
ghost use Rattle.judging.specs.Views.{definitions, nothing, no_more};
ghost use Rattle.name_rules.specs.Futures.{IsFuture};

use judging::Checker;
use met_types::Types;
use mo_num::Memory;
use mo_types::Node;
use type_judgements::{Refusal, tests};
use type_terms::TermId;
use typing_rules::Condition;
use value_scopes::Body;

fn is_async<T>(node: &Node<T>) -> bool
    ensures { result ≡ is_some (async_of node.now) }
{
    match node {
        Node::Async(_) => true,
        _ => false,
    }
}

/// Whether a type is that of a future, where it was met.
fn met_future(types: &Types, kind: TermId) -> Option<bool>
    requires { Kept types.now }
    ensures { IfSome result (IsFuture types.now kind) }
{
    match types.node(kind) {
        Some(node) => Some(is_async(node)),
        None => None,
    }
}

/// Whether a type is that of a future, by its head.
fn future_by_head(types: &mut Types, kind: TermId) -> Result<bool, Memory>
    requires kept { Kept types.old }
    requires within { Within types.old.forms kind }
    ensures kept { OnOk result (Kept types.new) }
    ensures goes { OnOk result (Goes types.old types.new) }
    ensures stands { OnOk result ((met : List Term) → Stands met types.old → Stands met types.new) }
    ensures is { IfOk result (IsFuture types.new kind) }
{
    let node = types.head(kind)?;
    Ok(is_async(&node))
}

/// Whether a type is that of a future.
fn is_future(types: &mut Types, kind: TermId) -> Result<bool, Memory>
    requires kept { Kept types.old }
    requires within { Within types.old.forms kind }
    ensures kept { OnOk result (Kept types.new) }
    ensures goes { OnOk result (Goes types.old types.new) }
    ensures stands { OnOk result ((met : List Term) → Stands met types.old → Stands met types.new) }
    ensures is { IfOk result (IsFuture types.new kind) }
{
    match met_future(types, kind) {
        Some(is) => Ok(is),
        None => future_by_head(types, kind),
    }
}

fn may_stand(is_future: bool, body: Body, takes: bool) -> bool
    ensures { result ≡ (not is_future || (calls (body_in body) && takes)) }
{
    !is_future || (body.calls() && takes)
}

/// The condition that a call or a name of this type stands where it may: one that gives a future stands in a body that calls shared functions, where one is
/// taken. Motoko language manual, sections "Async" and "Await".
pub fn future_placed(
    checker: &mut Checker,
    body: Body,
    takes: bool,
    at: u32,
    kind: TermId,
) -> Result<(), Refusal>
    requires kept { Kept checker.old.types }
    requires within { Within checker.old.types.forms kind }
    ensures kept { OnOk result (Kept checker.new.types) }
    ensures goes { OnOk result (Goes checker.old.types checker.new.types) }
    ensures answer { (c : Scopes) → Sound checker.old c → Answers nothing no_more (λ v. FuturePlaced (definitions v) (body_in body) takes at (term v.later kind)) c checker.old c checker.new result }
{
    let future = is_future(&mut checker.types, kind)?;
    let holds = may_stand(future, body, takes);
    tests(Condition::AsyncPlace, at, holds)
}
