//! Members of values and of modules.
ghost use Rattle.std.specs.Prelude.{◌≡◌, IfOk};
ghost use Rattle.typing_rules.specs.AbstractSyntax as syntax;
ghost use Rattle.abstract_tree.specs.TreeView.{plain};
ghost use Rattle.judging.specs.Answers.{Answers, Judges};
ghost use Rattle.judging.specs.Parts.{Ready};
ghost use Rattle.judging.specs.Views.{kind_reached, rule, typed_in};
ghost use Rattle.member_rules.specs.ValueRules.{value_rule};

use crate::kinds::member_kind;
use crate::module_members::module_member;
use abstract_tree::{Expression, ExpressionForm};
use judging::{Checker, Judged, Layer, Part};
use mo_num::{Bytes, Memory};
use name_rules::built_in;
use type_judgements::Refusal;
use typing_rules::Condition;
use value_scopes::Scopes;

fn copied(checker: &Checker, bytes: &[u8]) -> Result<Bytes, Memory>
    ensures { IfOk result (λ made. made ≡ bytes.now) }
{
    Bytes::from_slice(checker.types.terms().allocator(), bytes)
}

/// A field, a method, or a member of an array or a text.
fn value_member<F: Fn(&mut Checker, &mut Scopes, Part<'_>) -> Judged>(
    layer: &Layer<F>,
    checker: &mut Checker,
    scopes: &mut Scopes,
    a: &Expression<u32>,
    name: &[u8],
) -> Judged
    requires judges { Judges layer.now.depth (F.pre layer.now.judge) (F.post layer.now.judge) }
    requires ready { Ready checker.old scopes.old layer.now.site }
    ensures { Answers typed_in kind_reached (value_rule layer.now.site (plain a.now) name.now) scopes.old checker.old scopes.new checker.new result }
{
    let of = layer.part(checker, scopes, a, None)?;
    match member_kind(&mut checker.types, of.note.kind, name)? {
        Some(kind) => {
            let name = copied(checker, name)?;
            layer
                .site
                .has(checker, kind, ExpressionForm::Member(of, name))
        }
        None => Err(Refusal::False(layer.site.at, Condition::NoField)),
    }
}

/// `a.x`, a field, a method or a member of a module, an array or a text: Motoko language manual, section "Member access".
pub fn member<F: Fn(&mut Checker, &mut Scopes, Part<'_>) -> Judged>(
    layer: &Layer<F>,
    checker: &mut Checker,
    scopes: &mut Scopes,
    a: &Expression<u32>,
    name: &[u8],
) -> Judged
    requires judges { Judges layer.now.depth (F.pre layer.now.judge) (F.post layer.now.judge) }
    requires ready { Ready checker.old scopes.old layer.now.site }
    ensures { Answers typed_in kind_reached (rule layer.now.site (syntax.Member (plain a.now) name.now)) scopes.old checker.old scopes.new checker.new result }
{
    match built_in(scopes, a, name) {
        Some(found) => module_member(&layer.site, checker, scopes, found),
        None => value_member(layer, checker, scopes, a, name),
    }
}
