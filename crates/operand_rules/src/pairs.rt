//! The operands of an operator (Motoko language manual, sections "Binary operators" and "Relational operators").
ghost use Rattle.std.specs.Prelude.{IfOk, OnOk};
ghost use Rattle.typing_rules.specs.Literals as literals;
ghost use Rattle.typing_rules.specs.Operands as rules;
ghost use Rattle.type_definitions.specs.Meanings.{term};
ghost use Rattle.met_types.specs.States.{IsReached, Kept};
ghost use Rattle.type_judgements.specs.Judged.{Gave};
ghost use Rattle.abstract_tree.specs.TreeView.{plain};
ghost use Rattle.value_scopes.specs.declared.scopes.Scopes.{Scopes as ScopesValue};
ghost use Rattle.judging.specs.Answers.{Answers, Judges};
ghost use Rattle.judging.specs.Parts.{Ready, Sound};
ghost use Rattle.judging.specs.Views.{definitions, kind_reached, typed_in};
ghost use Rattle.operand_rules.specs.Literals.{seen_written};
ghost use Rattle.operand_rules.specs.Pairs.{pair_in, pair_reached, part_of};
ghost use Rattle.operand_rules.specs.Steps.{TakesOwn, any_flag, either_below, flag_in};

use crate::heads::may_have;
use crate::literals::{Written, has_own, own_form, written_as};
use abstract_tree::Expression;
use judging::{Checker, Judged, Layer, Part, Site, greatest, meets_plain};
use met_types::Types;
use mo_num::Memory;
use type_judgements::Refusal;
use type_terms::TermId;
use typing_rules::Condition;
use value_scopes::{Note, Scopes};

/// Two operands, and the greatest of their types.
#[derive(Drop)]
pub struct OperandPair {
    pub kind: TermId,
    pub left: Expression<Note>,
    pub right: Expression<Note>,
}

/// Whether one of both types is below the other.
fn is_either_below(types: &Types, a: TermId, b: TermId) -> Result<bool, Memory>
    requires kept { Kept types.now }
    requires first { IsReached types.now a }
    requires second { IsReached types.now b }
    ensures { IfOk result (λ is. Gave (either_below a b) types.now types.now (λ later. is)) }
{
    let alloc = types.terms().allocator();
    if types.is_below(alloc, a, b)? {
        return Ok(true);
    }
    let below = types.is_below(alloc, b, a)?;
    Ok(below)
}

/// Whether a literal has the type that it gives beside an operand of this type. Else it may have that one's.
fn takes_own(checker: &mut Checker, written: &Written<'_>, other: TermId) -> Result<bool, Refusal>
    requires kept { Kept checker.old.types }
    requires other { IsReached checker.old.types other }
    ensures { (c : ScopesValue) → Sound checker.old c → Answers flag_in any_flag (λ v. TakesOwn (seen_written written.now) (term v.later other)) c checker.old c checker.new result }
{
    if has_own(written) {
        let own = meets_plain(checker, own_form(written))?;
        let below = is_either_below(&checker.types, own, other)?;
        Ok(below)
    } else {
        Ok(false)
    }
}

/// An operand that is a literal, at the other's type.
fn other_operand<F: Fn(&mut Checker, &mut Scopes, Part<'_>) -> Judged>(
    layer: &Layer<F>,
    checker: &mut Checker,
    scopes: &mut Scopes,
    written: &Written<'_>,
    a: &Expression<u32>,
    other: TermId,
) -> Judged
    requires judges { Judges layer.now.depth (F.pre layer.now.judge) (F.post layer.now.judge) }
    requires ready { Ready checker.old scopes.old layer.now.site }
    requires other { IsReached checker.old.types other }
    ensures answer { Answers typed_in kind_reached (λ v. rules.OtherOperand (definitions v) layer.now.site.at (seen_written written.now) (part_of layer.now.site (plain a.now) v) (term v.later other)) scopes.old checker.old scopes.new checker.new result }
    ensures ready { OnOk result (Ready checker.new scopes.new layer.now.site) }
{
    if may_have(&checker.types, written, other) {
        layer.part(checker, scopes, a, Some(other))
    } else {
        Err(Refusal::False(layer.site.at, Condition::BadOperator))
    }
}

/// An operand that is a literal, beside one of this type.
fn literal_operand<F: Fn(&mut Checker, &mut Scopes, Part<'_>) -> Judged>(
    layer: &Layer<F>,
    checker: &mut Checker,
    scopes: &mut Scopes,
    written: &Written<'_>,
    a: &Expression<u32>,
    other: TermId,
) -> Judged
    requires judges { Judges layer.now.depth (F.pre layer.now.judge) (F.post layer.now.judge) }
    requires ready { Ready checker.old scopes.old layer.now.site }
    requires other { IsReached checker.old.types other }
    ensures answer { Answers typed_in kind_reached (λ v. rules.LiteralOperand (definitions v) layer.now.site.at (seen_written written.now) (part_of layer.now.site (plain a.now) v) (term v.later other)) scopes.old checker.old scopes.new checker.new result }
    ensures ready { OnOk result (Ready checker.new scopes.new layer.now.site) }
{
    if takes_own(checker, written, other)? {
        layer.part(checker, scopes, a, None)
    } else {
        other_operand(layer, checker, scopes, written, a, other)
    }
}

/// Both operands with the greatest of their types.
fn greatest_of(
    site: &Site,
    checker: &Checker,
    left: Expression<Note>,
    right: Expression<Note>,
) -> Result<OperandPair, Refusal>
    requires kept { Kept checker.now.types }
    requires left { kind_reached checker.now.types left }
    requires right { kind_reached checker.now.types right }
    ensures { (c : ScopesValue) → Sound checker.now c → Answers pair_in pair_reached (λ v. rules.GreatestOf (definitions v) site.now.at (typed_in left v.later) (typed_in right v.later)) c checker.now c checker.now result }
{
    let kinds = [left.note.kind, right.note.kind];
    let kind = greatest(&checker.types, Condition::BadOperator, site.at, &kinds)?;
    Ok(OperandPair { kind, left, right })
}

/// Both operands, of which the left one is a literal.
fn literal_left<F: Fn(&mut Checker, &mut Scopes, Part<'_>) -> Judged>(
    layer: &Layer<F>,
    checker: &mut Checker,
    scopes: &mut Scopes,
    written: &Written<'_>,
    a: &Expression<u32>,
    b: &Expression<u32>,
) -> Result<OperandPair, Refusal>
    requires judges { Judges layer.now.depth (F.pre layer.now.judge) (F.post layer.now.judge) }
    requires ready { Ready checker.old scopes.old layer.now.site }
    ensures answer { Answers pair_in pair_reached (λ v. rules.Operands (definitions v) layer.now.site.at (Some (seen_written written.now)) (literals.written (plain b.now)) (part_of layer.now.site (plain a.now) v) (part_of layer.now.site (plain b.now) v)) scopes.old checker.old scopes.new checker.new result }
    ensures ready { OnOk result (Ready checker.new scopes.new layer.now.site) }
{
    let right = layer.part(checker, scopes, b, None)?;
    let left = literal_operand(layer, checker, scopes, written, a, right.note.kind)?;
    greatest_of(&layer.site, checker, left, right)
}

/// Both operands, of which only the right one is a literal.
fn literal_right<F: Fn(&mut Checker, &mut Scopes, Part<'_>) -> Judged>(
    layer: &Layer<F>,
    checker: &mut Checker,
    scopes: &mut Scopes,
    written: &Written<'_>,
    a: &Expression<u32>,
    b: &Expression<u32>,
) -> Result<OperandPair, Refusal>
    requires judges { Judges layer.now.depth (F.pre layer.now.judge) (F.post layer.now.judge) }
    requires ready { Ready checker.old scopes.old layer.now.site }
    ensures answer { Answers pair_in pair_reached (λ v. rules.Operands (definitions v) layer.now.site.at None (Some (seen_written written.now)) (part_of layer.now.site (plain a.now) v) (part_of layer.now.site (plain b.now) v)) scopes.old checker.old scopes.new checker.new result }
    ensures ready { OnOk result (Ready checker.new scopes.new layer.now.site) }
{
    let left = layer.part(checker, scopes, a, None)?;
    let right = literal_operand(layer, checker, scopes, written, b, left.note.kind)?;
    greatest_of(&layer.site, checker, left, right)
}

/// Both operands, of which none is a literal.
fn no_literals<F: Fn(&mut Checker, &mut Scopes, Part<'_>) -> Judged>(
    layer: &Layer<F>,
    checker: &mut Checker,
    scopes: &mut Scopes,
    a: &Expression<u32>,
    b: &Expression<u32>,
) -> Result<OperandPair, Refusal>
    requires judges { Judges layer.now.depth (F.pre layer.now.judge) (F.post layer.now.judge) }
    requires ready { Ready checker.old scopes.old layer.now.site }
    ensures answer { Answers pair_in pair_reached (λ v. rules.Operands (definitions v) layer.now.site.at None None (part_of layer.now.site (plain a.now) v) (part_of layer.now.site (plain b.now) v)) scopes.old checker.old scopes.new checker.new result }
    ensures ready { OnOk result (Ready checker.new scopes.new layer.now.site) }
{
    let left = layer.part(checker, scopes, a, None)?;
    let right = layer.part(checker, scopes, b, None)?;
    greatest_of(&layer.site, checker, left, right)
}

/// Both operands of an operator, and the greatest of their types, where an operand that is a literal may have the other's type: Motoko
/// language manual, sections "Binary operators" and "Relational operators". `False` names the first condition that is false.
pub fn operands<F: Fn(&mut Checker, &mut Scopes, Part<'_>) -> Judged>(
    layer: &Layer<F>,
    checker: &mut Checker,
    scopes: &mut Scopes,
    a: &Expression<u32>,
    b: &Expression<u32>,
) -> Result<OperandPair, Refusal>
    requires judges { Judges layer.now.depth (F.pre layer.now.judge) (F.post layer.now.judge) }
    requires ready { Ready checker.old scopes.old layer.now.site }
    ensures answer { Answers pair_in pair_reached (λ v. rules.Operands (definitions v) layer.now.site.at (literals.written (plain a.now)) (literals.written (plain b.now)) (part_of layer.now.site (plain a.now) v) (part_of layer.now.site (plain b.now) v)) scopes.old checker.old scopes.new checker.new result }
    ensures ready { OnOk result (Ready checker.new scopes.new layer.now.site) }
{
    match written_as(a) {
        Some(written) => literal_left(layer, checker, scopes, &written, a, b),
        None => match written_as(b) {
            Some(written) => literal_right(layer, checker, scopes, &written, a, b),
            None => no_literals(layer, checker, scopes, a, b),
        },
    }
}
