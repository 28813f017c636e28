//! The rule of an expression, by its form.
ghost use Rattle.abstract_tree.specs.TreeView.{plain_form};
ghost use Rattle.judging.specs.Answers.{Answers, Judges};
ghost use Rattle.judging.specs.Parts.{Ready};
ghost use Rattle.judging.specs.Views.{kind_reached, rule, typed_in};
ghost use Rattle.list_judging.specs.Judging.{JudgesLists};

use crate::arrays::any_array;
use abstract_tree::ExpressionForm;
use annotation_rules::{actor_reference, annotated};
use application_rules::calling;
use block_rules::{block, object_block};
use call_rules::awaiting;
use control_rules::{
    assertion, breaking, breaking_with, conditional, continuing, debugging, endless_loop, grouping,
    ignoring, loop_while, negation, returning, returning_with, throwing, when, while_loop,
};
use data_rules::{bang, do_option, option_of, tag, tagged, tuple};
use function_rules::function;
use iteration_rules::iterating;
use judging::{Checker, Judged, Part};
use list_judging::{JudgedList, ListPart, Lists};
use literal_rules::constant;
use member_rules::{given_member, index, member, projection};
use name_rules::name as name_rule;
use object_rules::object;
use operator_rules::{binary, negative};
use pattern_rules::{labelled, switching, trying};
use place_rules::assign;
use update_rules::assign_by;
use value_scopes::Scopes;

/// An expression of this form, with the judging of its parts and of its lists of declarations: Motoko language manual, section
/// "Expressions".
pub fn by_form<
    F: Fn(&mut Checker, &mut Scopes, Part<'_>) -> Judged,
    G: Fn(&mut Checker, &mut Scopes, ListPart<'_>) -> JudgedList,
>(
    lists: &Lists<F, G>,
    checker: &mut Checker,
    scopes: &mut Scopes,
    form: &ExpressionForm<u32>,
) -> Judged
    requires judges { Judges lists.now.layer.depth (F.pre lists.now.layer.judge) (F.post lists.now.layer.judge) }
    requires lists { JudgesLists lists.now.layer.depth (G.pre lists.now.judge_list) (G.post lists.now.judge_list) }
    requires ready { Ready checker.old scopes.old lists.now.layer.site }
    ensures { Answers typed_in kind_reached (rule lists.now.layer.site (plain_form form.now)) scopes.old checker.old scopes.new checker.new result }
{
    let layer = &lists.layer;
    match form {
        ExpressionForm::Constant(literal) => constant(&layer.site, checker, literal),
        ExpressionForm::Name(name) => name_rule(&layer.site, checker, scopes, name.as_slice()),
        ExpressionForm::Tuple(items) => tuple(layer, checker, scopes, items.as_slice()),
        ExpressionForm::Optional(a) => option_of(layer, checker, scopes, a),
        ExpressionForm::Tag(name) => tag(&layer.site, checker, scopes, name.as_slice()),
        ExpressionForm::Tagged(name, a) => tagged(layer, checker, scopes, name.as_slice(), a),
        ExpressionForm::Array(mutable, items) => any_array(
            layer,
            checker,
            scopes,
            *mutable,
            items.as_slice(),
        ),
        ExpressionForm::Object(fields) => object(layer, checker, scopes, fields.as_slice()),
        ExpressionForm::Member(a, name) => member(layer, checker, scopes, a, name.as_slice()),
        ExpressionForm::Projection(a, number) => projection(layer, checker, scopes, a, *number),
        ExpressionForm::Index(a, i) => index(layer, checker, scopes, a, i),
        ExpressionForm::Annotated(a, written) => annotated(layer, checker, scopes, a, written),
        ExpressionForm::Negative(a) => negative(layer, checker, scopes, a),
        ExpressionForm::Binary(operator, a, b) => binary(layer, checker, scopes, *operator, a, b),
        ExpressionForm::Not(a) => negation(layer, checker, scopes, a),
        ExpressionForm::Assign(to, a) => assign(layer, checker, scopes, to, a),
        ExpressionForm::AssignBy(operator, to, a) => assign_by(
            layer, checker, scopes, *operator, to, a,
        ),
        ExpressionForm::Call(f, types, arguments) => calling(
            layer,
            checker,
            scopes,
            f,
            types,
            arguments.as_slice(),
        ),
        ExpressionForm::When(condition, a) => when(layer, checker, scopes, condition, a),
        ExpressionForm::If(condition, a, b) => conditional(layer, checker, scopes, condition, a, b),
        ExpressionForm::Switch(a, cases) => switching(layer, checker, scopes, a, cases.as_slice()),
        ExpressionForm::Try(a, pattern, b) => trying(layer, checker, scopes, a, pattern, b),
        ExpressionForm::While(condition, a) => while_loop(layer, checker, scopes, condition, a),
        ExpressionForm::Loop(a) => endless_loop(layer, checker, scopes, a),
        ExpressionForm::LoopWhile(a, condition) => loop_while(layer, checker, scopes, a, condition),
        ExpressionForm::For(pattern, a, b) => iterating(layer, checker, scopes, pattern, a, b),
        ExpressionForm::Label(name, written, a) => labelled(
            layer,
            checker,
            scopes,
            name.as_slice(),
            written,
            a,
        ),
        ExpressionForm::Break(name) => breaking(&layer.site, checker, scopes, name.as_slice()),
        ExpressionForm::BreakWith(name, a) => breaking_with(
            layer,
            checker,
            scopes,
            name.as_slice(),
            a,
        ),
        ExpressionForm::Continue(name) => continuing(&layer.site, checker, scopes, name.as_slice()),
        ExpressionForm::Return => returning(&layer.site, checker, scopes),
        ExpressionForm::ReturnWith(a) => returning_with(layer, checker, scopes, a),
        ExpressionForm::Throw(a) => throwing(layer, checker, scopes, a),
        ExpressionForm::Do(a) => grouping(layer, checker, scopes, a),
        ExpressionForm::DoOption(a) => do_option(layer, checker, scopes, a),
        ExpressionForm::Bang(a) => bang(layer, checker, scopes, a),
        ExpressionForm::Block(declarations) => block(
            lists,
            checker,
            scopes,
            declarations.as_slice(),
        ),
        ExpressionForm::Function(signature, body) => function(
            layer, checker, scopes, signature, body,
        ),
        ExpressionForm::ObjectBlock(declarations) => object_block(
            lists,
            checker,
            scopes,
            declarations.as_slice(),
        ),
        ExpressionForm::Assert(a) => assertion(layer, checker, scopes, a),
        ExpressionForm::Ignore(a) => ignoring(layer, checker, scopes, a),
        ExpressionForm::Debug(a) => debugging(layer, checker, scopes, a),
        ExpressionForm::ActorReference(text) => actor_reference(
            &layer.site,
            checker,
            scopes,
            text.as_slice(),
        ),
        ExpressionForm::Await(a) => awaiting(layer, checker, scopes, a),
        ExpressionForm::BuiltIn(given) => given_member(&layer.site, checker, scopes, *given),
        ExpressionForm::Subsumed(a) => layer.as_wanted(checker, scopes, a),
    }
}
