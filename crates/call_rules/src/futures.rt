//! The rule of `await` (Motoko language manual, section "Await").
ghost use Rattle.std.specs.Prelude.{◌≡◌, IfSome, None, option_map};
ghost use Rattle.mo_types.specs.Heads as node_heads;
ghost use Rattle.typing_rules.specs.AbstractSyntax as syntax;
ghost use Rattle.typing_rules.specs.declared.condition.Condition.TheVariants as condition;
ghost use Rattle.typing_rules.specs.Ends.{Has};
ghost use Rattle.typing_rules.specs.Heads.{head};
ghost use Rattle.typing_rules.specs.Judgements.{Given, Part as InTurn};
ghost use Rattle.typing_rules.specs.TypedTrees.{type_of};
ghost use Rattle.type_definitions.specs.Meanings.{term};
ghost use Rattle.met_types.specs.States.{IsReached, Kept};
ghost use Rattle.abstract_tree.specs.TreeView.{plain};
ghost use Rattle.value_scopes.specs.declared.place.Around.TheVariants as arounds;
ghost use Rattle.judging.specs.Answers.{Answers, Judges};
ghost use Rattle.judging.specs.Heads.{HeadHas, part_in};
ghost use Rattle.judging.specs.Parts.{Ready};
ghost use Rattle.judging.specs.Views.{definitions, judge, kind_reached, rule, typed_in, wanted_in};

use abstract_tree::{Expression, ExpressionForm};
use judging::{Checker, Judged, Layer, Part};
use met_types::Types;
use mo_types::{Node, TypeId};
use type_judgements::Refusal;
use type_terms::TermId;
use typing_rules::Condition;
use value_scopes::{Around, Scopes};

fn future_at(node: &Node) -> Option<TypeId>
    ensures { result ≡ node_heads.async_of node.now }
{
    match node {
        Node::Async(part) => Some(*part),
        _ => None,
    }
}

/// The term of a type of the graph.
fn part_in(types: &Types, part: Option<TypeId>) -> Option<TermId>
    ensures { result ≡ part_in types.now part }
{
    match part {
        Some(part) => types.term_at(part),
        None => None,
    }
}

/// The type A of `async A`.
fn future_part(types: &Types, id: TermId) -> Option<TermId>
    requires kept { Kept types.now }
    requires reached { IsReached types.now id }
    ensures is { HeadHas node_heads.async_of types.now id (λ later. option_map (term later) result) }
    ensures reached { IfSome result (IsReached types.now) }
{
    match types.node(id) {
        Some(node) => part_in(types, future_at(node)),
        None => None,
    }
}

/// `await a`, in a body that calls shared functions.
fn awaited<F: Fn(&mut Checker, &mut Scopes, Part<'_>) -> Judged>(
    layer: &Layer<F>,
    checker: &mut Checker,
    scopes: &mut Scopes,
    a: &Expression<u32>,
) -> Judged
    requires judges { Judges layer.now.depth (F.pre layer.now.judge) (F.post layer.now.judge) }
    requires ready { Ready checker.old scopes.old layer.now.site }
    ensures { Answers typed_in kind_reached (λ v. InTurn (judge (record layer.now.site.place { around = arounds.Awaited }) (plain a.now) None v) (λ b. Given condition.AsyncPlace layer.now.site.at (node_heads.async_of (head (definitions v) (type_of b))) (λ u. Has layer.now.site.at (wanted_in v layer.now.site.wanted) u (syntax.Await b)))) scopes.old checker.old scopes.new checker.new result }
{
    let place = layer.site.place.directly(Around::Awaited);
    let of = layer.part_at(checker, scopes, place, a, None)?;
    match future_part(&checker.types, of.note.kind) {
        Some(kind) => layer.site.has(checker, kind, ExpressionForm::Await(of)),
        None => Err(Refusal::False(layer.site.at, Condition::AsyncPlace)),
    }
}

/// `await a`: Motoko language manual, section "Await". It stands in a body that calls shared functions, and gives T for `async T`. `False`
/// names the first condition that is false.
pub fn awaiting<F: Fn(&mut Checker, &mut Scopes, Part<'_>) -> Judged>(
    layer: &Layer<F>,
    checker: &mut Checker,
    scopes: &mut Scopes,
    a: &Expression<u32>,
) -> Judged
    requires judges { Judges layer.now.depth (F.pre layer.now.judge) (F.post layer.now.judge) }
    requires ready { Ready checker.old scopes.old layer.now.site }
    ensures { Answers typed_in kind_reached (rule layer.now.site (syntax.Await (plain a.now))) scopes.old checker.old scopes.new checker.new result }
{
    if layer.site.place.body.calls() {
        awaited(layer, checker, scopes, a)
    } else {
        Err(Refusal::False(layer.site.at, Condition::AsyncPlace))
    }
}
