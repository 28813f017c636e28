//! Variants (Motoko language manual, section "Variants").
ghost use Rattle.std.specs.Prelude.{◌≡◌, [], ◌∷◌, false, IfOk, IfSome, List, None, Some, option_map};
ghost use Rattle.type_terms.specs.declared.form.Form.{Form as FormValue};
ghost use Rattle.type_terms.specs.declared.form.Form.TheVariants as form;
ghost use Rattle.typing_rules.specs.declared.condition.Condition.TheVariants as condition;
ghost use Rattle.typing_rules.specs.AbstractSyntax as syntax;
ghost use Rattle.typing_rules.specs.AbstractSyntax.{Form as RuleForm};
ghost use Rattle.typing_rules.specs.Ends.{Has};
ghost use Rattle.typing_rules.specs.Judgements.{Given, Gives, IsBelow, Meets, Needs, Part as PartOf};
ghost use Rattle.typing_rules.specs.Terms as terms;
ghost use Rattle.typing_rules.specs.TypedTrees.{Note as RuleNote, type_of, typed};
ghost use Rattle.type_definitions.specs.Meanings.{term};
ghost use Rattle.type_definitions.specs.Tables.{Within};
ghost use Rattle.met_types.specs.States.{IsReached};
ghost use Rattle.abstract_tree.specs.TreeView.{plain};
ghost use Rattle.value_scopes.specs.declared.scopes.Scopes.{Scopes as ScopesValue};
ghost use Rattle.judging.specs.Answers.{Answers, Judges};
ghost use Rattle.judging.specs.Parts.{Ready, Sound, Wanting};
ghost use Rattle.judging.specs.Views.{form_in, judge_at, kind_reached, rule, typed_in, wanted_in};

use abstract_tree::{Expression, ExpressionForm};
use data_parts::wanted_tag;
use judging::{Checker, Judged, Layer, Part, Site};
use mo_num::{Bytes, Memory, Sequence};
use mo_types::Field;
use std::alloc::Global;
use type_judgements::Refusal;
use type_terms::{Form, TermId};
use typing_rules::Condition;
use value_scopes::{Note, Scopes};

fn copied(checker: &Checker, bytes: &[u8]) -> Result<Bytes, Memory>
    ensures { IfOk result (λ made. made ≡ bytes.now) }
{
    Bytes::from_slice(checker.types.terms().allocator(), bytes)
}

/// The form of the type `()`. Takes no memory.
fn unit(checker: &Checker) -> Form
    ensures { result ≡ form.Tuple [] }
{
    Form::Tuple(Sequence::new(checker.types.terms().allocator()))
}

/// One tag of this type.
fn one_tag(alloc: Global, name: &[u8], part: TermId) -> Result<Sequence<Field<TermId>>, Memory>
    ensures { IfOk result (λ made. made ≡ record { label = name.now; mutable = false; part = part } ∷ []) }
{
    let mut made = Sequence::new(alloc);
    made.push(Field {
        label: Bytes::from_slice(alloc, name)?,
        mutable: false,
        part,
    })?;
    Ok(made)
}

/// An expression of this form has the type of variants of one tag.
fn has_tag(
    site: &Site,
    checker: &mut Checker,
    name: &[u8],
    part: TermId,
    form: ExpressionForm<Note>,
) -> Judged
    requires wanting { Wanting checker.old site.now }
    requires part { Within checker.old.types.forms part }
    ensures { (c : ScopesValue) → Sound checker.old c → (f : List FormValue → RuleForm RuleNote) → ((later : List FormValue) → form_in form later ≡ f later)
        → Answers typed_in kind_reached (λ v. Has site.now.at (wanted_in v site.now.wanted) (terms.Variant (terms.constant name.now (term v.later part) terms.NoFields)) (f v.later)) c checker.old c checker.new result }
{
    let tags = one_tag(checker.types.terms().allocator(), name, part)?;
    site.has_form(checker, Form::Variant(tags), form)
}

/// A tag where no variant is wanted.
fn tag_gives(site: &Site, checker: &mut Checker, name: &[u8]) -> Judged
    requires { Wanting checker.old site.now }
    ensures { (c : ScopesValue) → Sound checker.old c
        → Answers typed_in kind_reached (λ v. Has site.now.at (wanted_in v site.now.wanted) (terms.Variant (terms.constant name.now terms.unit terms.NoFields)) (syntax.Tag name.now)) c checker.old c checker.new result }
{
    let form = ExpressionForm::Tag(copied(checker, name)?);
    let kind = unit(checker);
    let part = checker.types.intern(kind)?;
    has_tag(site, checker, name, part, form)
}

/// A tag where a variant is wanted, whose tag of this name has this type, if there is one.
fn tag_fits(
    site: &Site,
    checker: &mut Checker,
    name: &[u8],
    wanted: TermId,
    part: Option<TermId>,
) -> Judged
    requires wanting { Wanting checker.old site.now }
    requires wanted { IsReached checker.old.types wanted }
    requires part { IfSome part (IsReached checker.old.types) }
    ensures { (c : ScopesValue) → Sound checker.old c
        → Answers typed_in kind_reached (λ v. Given condition.Mismatch site.now.at (option_map (term v.later) part) (λ u. Meets terms.unit (Needs condition.Mismatch site.now.at (IsBelow terms.unit u) (Gives (typed site.now.at (term v.later wanted) (syntax.Tag name.now)))))) c checker.old c checker.new result }
{
    match part {
        Some(part) => {
            site.takes_unit(checker, part)?;
            let name = copied(checker, name)?;
            site.gives(checker, wanted, ExpressionForm::Tag(name))
        }
        None => Err(Refusal::False(site.at, Condition::Mismatch)),
    }
}

/// `#x`: it gives the type of variants of this one tag, and fits one whose tag of this name takes ().
pub fn tag(site: &Site, checker: &mut Checker, scopes: &Scopes, name: &[u8]) -> Judged
    requires { Ready checker.old scopes.now site.now }
    ensures { Answers typed_in kind_reached (rule site.now (syntax.Tag name.now)) scopes.now checker.old scopes.now checker.new result }
{
    match wanted_tag(site, checker, name)? {
        Some((wanted, part)) => tag_fits(site, checker, name, wanted, part),
        None => tag_gives(site, checker, name),
    }
}

/// `#x a` where no variant is wanted.
fn tagged_gives<F: Fn(&mut Checker, &mut Scopes, Part<'_>) -> Judged>(
    layer: &Layer<F>,
    checker: &mut Checker,
    scopes: &mut Scopes,
    name: &[u8],
    a: &Expression<u32>,
) -> Judged
    requires judges { Judges layer.now.depth (F.pre layer.now.judge) (F.post layer.now.judge) }
    requires ready { Ready checker.old scopes.old layer.now.site }
    ensures { Answers typed_in kind_reached (λ v. PartOf (judge_at layer.now.site.place (plain a.now) None v) (λ b. Has layer.now.site.at (wanted_in v layer.now.site.wanted) (terms.Variant (terms.constant name.now (type_of b) terms.NoFields)) (syntax.Tagged name.now b))) scopes.old checker.old scopes.new checker.new result }
{
    let of = layer.part(checker, scopes, a, None)?;
    let kind = of.note.kind;
    let copy = copied(checker, name)?;
    let form = ExpressionForm::Tagged(copy, of);
    has_tag(&layer.site, checker, name, kind, form)
}

/// `#x a` where a variant is wanted, whose tag of this name has this type, if there is one.
fn tagged_fits<F: Fn(&mut Checker, &mut Scopes, Part<'_>) -> Judged>(
    layer: &Layer<F>,
    checker: &mut Checker,
    scopes: &mut Scopes,
    name: &[u8],
    a: &Expression<u32>,
    wanted: TermId,
    part: Option<TermId>,
) -> Judged
    requires judges { Judges layer.now.depth (F.pre layer.now.judge) (F.post layer.now.judge) }
    requires ready { Ready checker.old scopes.old layer.now.site }
    requires wanted { IsReached checker.old.types wanted }
    requires part { IfSome part (IsReached checker.old.types) }
    ensures { Answers typed_in kind_reached (λ v. Given condition.Mismatch layer.now.site.at (option_map (term v.later) part) (λ u. PartOf (judge_at layer.now.site.place (plain a.now) (Some u) v) (λ b. Gives (typed layer.now.site.at (term v.later wanted) (syntax.Tagged name.now b))))) scopes.old checker.old scopes.new checker.new result }
{
    match part {
        Some(part) => {
            let of = layer.part(checker, scopes, a, Some(part))?;
            let name = copied(checker, name)?;
            layer
                .site
                .gives(checker, wanted, ExpressionForm::Tagged(name, of))
        }
        None => Err(Refusal::False(layer.site.at, Condition::Mismatch)),
    }
}

/// `#x a`: it gives the type of variants of this one tag, and fits one where `a` fits the type of its tag of this name.
pub fn tagged<F: Fn(&mut Checker, &mut Scopes, Part<'_>) -> Judged>(
    layer: &Layer<F>,
    checker: &mut Checker,
    scopes: &mut Scopes,
    name: &[u8],
    a: &Expression<u32>,
) -> Judged
    requires judges { Judges layer.now.depth (F.pre layer.now.judge) (F.post layer.now.judge) }
    requires ready { Ready checker.old scopes.old layer.now.site }
    ensures { Answers typed_in kind_reached (rule layer.now.site (syntax.Tagged name.now (plain a.now))) scopes.old checker.old scopes.new checker.new result }
{
    match wanted_tag(&layer.site, checker, name)? {
        Some((wanted, part)) => tagged_fits(layer, checker, scopes, name, a, wanted, part),
        None => tagged_gives(layer, checker, scopes, name, a),
    }
}
