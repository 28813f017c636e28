//! The elements of arrays.
ghost use Rattle.std.specs.Prelude.{IfOk, IfSome, OnOk, map};
ghost use Rattle.mo_types.specs.Sub.{Each};
ghost use Rattle.typing_rules.specs.declared.condition.Condition.TheVariants as condition;
ghost use Rattle.typing_rules.specs.Ends.{Greatest};
ghost use Rattle.typing_rules.specs.Expressions.{Elements, JudgeAll};
ghost use Rattle.typing_rules.specs.TypedTrees.{types_of};
ghost use Rattle.type_definitions.specs.Meanings.{term};
ghost use Rattle.type_definitions.specs.Tables.{Within};
ghost use Rattle.met_types.specs.States.{IsReached, Kept};
ghost use Rattle.abstract_tree.specs.TreeView.{listed, plain};
ghost use Rattle.value_scopes.specs.declared.scopes.Scopes.{Scopes as ScopesValue};
ghost use Rattle.judging.specs.Answers.{Answers, Judges};
ghost use Rattle.judging.specs.Parts.{Ready, Sound};
ghost use Rattle.judging.specs.Views.{context, definitions, each_in, each_reached, term_in, wanted_in};
ghost use Rattle.array_rules.specs.Within.{is_within};

use abstract_tree::Expression;
use data_parts::kinds_of;
use judging::{Checker, Judged, Layer, Part, greatest};
use mo_syntax::Items;
use type_judgements::Refusal;
use type_terms::{Form, TermId};
use typing_rules::Condition;
use value_scopes::{Note, Scopes};

/// Expressions in turn, of each of which this type is wanted, or none is.
pub(crate) fn all<F: Fn(&mut Checker, &mut Scopes, Part<'_>) -> Judged>(
    layer: &Layer<F>,
    checker: &mut Checker,
    scopes: &mut Scopes,
    parts: &[Expression<u32>],
    wanted: Option<TermId>,
) -> Result<Items<Expression<Note>>, Refusal>
    requires judges { Judges layer.now.depth (F.pre layer.now.judge) (F.post layer.now.judge) }
    requires ready { Ready checker.old scopes.old layer.now.site }
    requires wanted { IfSome wanted (Within checker.old.types.forms) }
    ensures answer { Answers each_in each_reached (λ v. JudgeAll (definitions v) (context v layer.now.site.place) (listed (map plain parts.now)) (wanted_in v wanted)) scopes.old checker.old scopes.new checker.new result }
    ensures ready { OnOk result (Ready checker.new scopes.new layer.now.site) }
{
    let mut made = Items::new(checker.types.terms().allocator());
    for i in 0..parts.len() {
        let part = layer.part(checker, scopes, &parts[i], wanted)?;
        made.push(part)?;
    }
    Ok(made)
}

/// The greatest of the types of elements, or None where there are none.
fn greatest_or_none(checker: &mut Checker, place: u32, kinds: &[TermId]) -> Result<TermId, Refusal>
    requires kept { Kept checker.old.types }
    requires kinds { Each (IsReached checker.old.types) kinds.now }
    ensures within { IfOk result (Within checker.new.types.forms) }
    ensures answer { (c : ScopesValue) → Sound checker.old c → Answers term_in is_within (λ v. Elements place (map (term v.later) kinds.now)) c checker.old c checker.new result }
{
    if kinds.is_empty() {
        Ok(checker.types.intern(Form::Bottom)?)
    } else {
        greatest(&checker.types, Condition::Branches, place, kinds)
    }
}

/// The type of the elements of an array that cannot be written, by what they are: the greatest of their types, or None where there are none.
pub(crate) fn element_kind(
    checker: &mut Checker,
    place: u32,
    elements: &[Expression<Note>],
) -> Result<TermId, Refusal>
    requires kept { Kept checker.old.types }
    requires elements { each_reached checker.old.types elements.now }
    ensures within { IfOk result (Within checker.new.types.forms) }
    ensures answer { (c : ScopesValue) → Sound checker.old c → Answers term_in is_within (λ v. Elements place (types_of (each_in elements.now v.later))) c checker.old c checker.new result }
{
    let kinds = kinds_of(checker.types.terms().allocator(), elements)?;
    greatest_or_none(checker, place, kinds.as_slice())
}

/// The type of the elements of an array that can be written, by what they are: the greatest of their types, of which there is at least one.
pub(crate) fn mutable_element_kind(
    checker: &Checker,
    place: u32,
    elements: &[Expression<Note>],
) -> Result<TermId, Refusal>
    requires kept { Kept checker.now.types }
    requires elements { each_reached checker.now.types elements.now }
    ensures within { IfOk result (Within checker.now.types.forms) }
    ensures answer { (c : ScopesValue) → Sound checker.now c → Answers term_in is_within (λ v. Greatest condition.NeedsType place (types_of (each_in elements.now v.later))) c checker.now c checker.now result }
{
    let kinds = kinds_of(checker.types.terms().allocator(), elements)?;
    greatest(
        &checker.types,
        Condition::NeedsType,
        place,
        kinds.as_slice(),
    )
}
