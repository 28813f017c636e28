//! Labels.
ghost use Rattle.std.specs.Prelude.{◌≡◌, IfOk, OnOk};
ghost use Rattle.typing_rules.specs.AbstractSyntax as syntax;
ghost use Rattle.type_definitions.specs.Tables.{Within};
ghost use Rattle.abstract_types.specs.TypeView.{annotation};
ghost use Rattle.abstract_tree.specs.TreeView.{plain};
ghost use Rattle.judging.specs.Answers.{Answers, Judges};
ghost use Rattle.judging.specs.Parts.{Entering, Ready};
ghost use Rattle.judging.specs.Views.{judge, kind_reached, rule, typed_in};
ghost use Rattle.pattern_rules.specs.Labelled.{labelled_in};

use abstract_tree::{Expression, ExpressionForm};
use abstract_types::TypeNode;
use judging::{Checker, Judged, Layer, Part};
use mo_num::{Bytes, Memory};
use scope_judging::reads_or_unit;
use std::alloc::Global;
use type_copies::copied_type;
use type_terms::TermId;
use value_scopes::{Around, Label, Place, Scopes};

/// An expression somewhere in the same body. Labels around it may have the type that is wanted of it, which need not be met yet.
fn judge_entered<F: Fn(&mut Checker, &mut Scopes, Part<'_>) -> Judged>(
    layer: &Layer<F>,
    checker: &mut Checker,
    scopes: &mut Scopes,
    place: Place,
    expression: &Expression<u32>,
    wanted: Option<TermId>,
) -> Judged
    requires judges { Judges layer.now.depth (F.pre layer.now.judge) (F.post layer.now.judge) }
    requires entering { Entering checker.old scopes.old place wanted }
    ensures { Answers typed_in kind_reached (judge place (plain expression.now) wanted) scopes.old checker.old scopes.new checker.new result }
{
    let part = Part {
        depth: layer.depth,
        place,
        expression,
        wanted,
    };
    (layer.judge)(checker, scopes, part)
}

/// The body of a label of this type, of which the type is wanted.
fn body<F: Fn(&mut Checker, &mut Scopes, Part<'_>) -> Judged>(
    layer: &Layer<F>,
    checker: &mut Checker,
    scopes: &mut Scopes,
    name: &[u8],
    kind: TermId,
    a: &Expression<u32>,
) -> Judged
    requires judges { Judges layer.now.depth (F.pre layer.now.judge) (F.post layer.now.judge) }
    requires ready { Ready checker.old scopes.old layer.now.site }
    requires within { Within checker.old.types.forms kind }
    ensures answer { Answers typed_in kind_reached (labelled_in layer.now.site name.now kind (plain a.now)) scopes.old checker.old scopes.new checker.new result }
    ensures ready { OnOk result (Ready checker.new scopes.new layer.now.site) }
{
    let count = scopes.labels.len();
    let label = Label {
        kind,
        is_loop: false,
    };
    scopes.labels.push(name, label)?;
    let place = layer.site.place.directly(Around::Labelled);
    let made = judge_entered(layer, checker, scopes, place, a, Some(kind))?;
    scopes.labels.truncate(count);
    Ok(made)
}

/// A written type once more, where there is one.
fn copied(alloc: Global, written: &Option<TypeNode>) -> Result<Option<TypeNode>, Memory>
    ensures { IfOk result (λ made. annotation made ≡ annotation written.now) }
{
    match written {
        Some(written) => Ok(Some(copied_type(alloc, written)?)),
        None => Ok(None),
    }
}

/// `label x : A a`: Motoko language manual, section "Label". Without a type it is ().
pub fn labelled<F: Fn(&mut Checker, &mut Scopes, Part<'_>) -> Judged>(
    layer: &Layer<F>,
    checker: &mut Checker,
    scopes: &mut Scopes,
    name: &[u8],
    written: &Option<TypeNode>,
    a: &Expression<u32>,
) -> Judged
    requires judges { Judges layer.now.depth (F.pre layer.now.judge) (F.post layer.now.judge) }
    requires ready { Ready checker.old scopes.old layer.now.site }
    ensures { Answers typed_in kind_reached (rule layer.now.site (syntax.Label name.now (annotation written.now) (plain a.now))) scopes.old checker.old scopes.new checker.new result }
{
    let kind = reads_or_unit(checker, scopes, written)?;
    let of = body(layer, checker, scopes, name, kind, a)?;
    let alloc = checker.types.terms().allocator();
    let name = Bytes::from_slice(alloc, name)?;
    let written = copied(alloc, written)?;
    layer
        .site
        .has(checker, kind, ExpressionForm::Label(name, written, of))
}
