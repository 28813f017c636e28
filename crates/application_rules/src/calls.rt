//! The rule of calls.
ghost use Rattle.std.specs.Prelude.{◌≡◌, IfOk, map, option_map};
ghost use Rattle.typing_rules.specs.AbstractSyntax as syntax;
ghost use Rattle.abstract_types.specs.TypeView.{type_node};
ghost use Rattle.abstract_tree.specs.TreeView.{listed, plain};
ghost use Rattle.judging.specs.Answers.{Answers, Judges};
ghost use Rattle.judging.specs.Parts.{Ready};
ghost use Rattle.judging.specs.Views.{kind_reached, rule, typed_in};
ghost use Rattle.application_rules.specs.Callees.{called_with};
ghost use Rattle.application_rules.specs.Functions.{Standing, function_in};

use crate::callees::callee;
use crate::functions::{Function, called, function_parts};
use abstract_tree::{Expression, ExpressionForm};
use abstract_types::TypeNode;
use judging::{Checker, Judged, Layer, Part};
use mo_num::Memory;
use mo_syntax::Items;
use name_rules::future_placed;
use std::alloc::Global;
use type_copies::copied_type;
use type_judgements::Refusal;
use typing_rules::Condition;
use value_scopes::{Note, Scopes};

/// Written types once more.
fn copied_types(alloc: Global, written: &[TypeNode]) -> Result<Items<TypeNode>, Memory>
    ensures { IfOk result (λ made. map type_node made ≡ map type_node written.now) }
{
    let mut made = Items::new(alloc);
    for i in 0..written.len() {
        let one = copied_type(alloc, &written[i])?;
        made.push(one)?;
    }
    Ok(made)
}

fn copied(
    alloc: Global,
    written: &Option<Items<TypeNode>>,
) -> Result<Option<Items<TypeNode>>, Memory>
    ensures { IfOk result (λ made. option_map (map type_node) made ≡ option_map (map type_node) written.now) }
{
    match written {
        Some(written) => Ok(Some(copied_types(alloc, written.as_slice())?)),
        None => Ok(None),
    }
}

/// The call of a function that takes and gives these.
fn called_with<F: Fn(&mut Checker, &mut Scopes, Part<'_>) -> Judged>(
    layer: &Layer<F>,
    checker: &mut Checker,
    scopes: &mut Scopes,
    of: Expression<Note>,
    function: Function,
    types: &Option<Items<TypeNode>>,
    arguments: &[Expression<u32>],
) -> Judged
    requires judges { Judges layer.now.depth (F.pre layer.now.judge) (F.post layer.now.judge) }
    requires ready { Ready checker.old scopes.old layer.now.site }
    requires standing { Standing checker.old.types.forms function }
    ensures { Answers typed_in kind_reached (λ v. called_with layer.now.site (option_map (map type_node) types.now) (listed (map plain arguments.now)) v (typed_in of v.later) (function_in v.later function)) scopes.old checker.old scopes.new checker.new result }
{
    let Function {
        sort,
        parameters,
        results,
    } = function;
    let kind = called(&mut checker.types, sort, results)?;
    let takes = layer.site.around.takes_call();
    future_placed(checker, layer.site.place.body, takes, layer.site.at, kind)?;
    let as_many = parameters.len() == arguments.len();
    if as_many {
        let given = layer.each(checker, scopes, arguments, parameters.as_slice())?;
        let types = copied(checker.types.terms().allocator(), types)?;
        layer
            .site
            .has(checker, kind, ExpressionForm::Call(of, types, given))
    } else {
        Err(Refusal::False(layer.site.at, Condition::ArgumentCount))
    }
}

/// `f<T, .., U>(a, .., b)`: Motoko language manual, sections "Function calls" and "Type parameters". There are as many arguments as
/// parameters, and they fit. A call of a shared function gives a future, and stands where one may. `False` names the first condition that
/// is false.
pub fn calling<F: Fn(&mut Checker, &mut Scopes, Part<'_>) -> Judged>(
    layer: &Layer<F>,
    checker: &mut Checker,
    scopes: &mut Scopes,
    f: &Expression<u32>,
    types: &Option<Items<TypeNode>>,
    arguments: &[Expression<u32>],
) -> Judged
    requires judges { Judges layer.now.depth (F.pre layer.now.judge) (F.post layer.now.judge) }
    requires ready { Ready checker.old scopes.old layer.now.site }
    ensures { Answers typed_in kind_reached (rule layer.now.site (syntax.Call (plain f.now) (option_map (map type_node) types.now) (listed (map plain arguments.now)))) scopes.old checker.old scopes.new checker.new result }
{
    let of = callee(layer, checker, scopes, f, types)?;
    match function_parts(&mut checker.types, of.note.kind)? {
        Some(function) => called_with(layer, checker, scopes, of, function, types, arguments),
        None => Err(Refusal::False(layer.site.at, Condition::NotFunction)),
    }
}
