//! Truth values, choices and loops.
ghost use Rattle.typing_rules.specs.AbstractSyntax as syntax;
ghost use Rattle.abstract_tree.specs.TreeView.{plain};
ghost use Rattle.judging.specs.Answers.{Answers, Judges};
ghost use Rattle.judging.specs.Parts.{Ready};
ghost use Rattle.judging.specs.Views.{kind_reached, rule, typed_in};

use abstract_tree::{Expression, ExpressionForm};
use judging::{Checker, Judged, Layer, Part};
use value_scopes::{Around, Scopes};

/// `not a`: Motoko language manual, section "Unary operators".
pub fn negation<F: Fn(&mut Checker, &mut Scopes, Part<'_>) -> Judged>(
    layer: &Layer<F>,
    checker: &mut Checker,
    scopes: &mut Scopes,
    a: &Expression<u32>,
) -> Judged
    requires judges { Judges layer.now.depth (F.pre layer.now.judge) (F.post layer.now.judge) }
    requires ready { Ready checker.old scopes.old layer.now.site }
    ensures { Answers typed_in kind_reached (rule layer.now.site (syntax.Not (plain a.now))) scopes.old checker.old scopes.new checker.new result }
{
    let of = layer.fits_boolean(checker, scopes, a)?;
    layer.site.has_boolean(checker, ExpressionForm::Not(of))
}

/// `if c a`: Motoko language manual, section "If".
pub fn when<F: Fn(&mut Checker, &mut Scopes, Part<'_>) -> Judged>(
    layer: &Layer<F>,
    checker: &mut Checker,
    scopes: &mut Scopes,
    c: &Expression<u32>,
    a: &Expression<u32>,
) -> Judged
    requires judges { Judges layer.now.depth (F.pre layer.now.judge) (F.post layer.now.judge) }
    requires ready { Ready checker.old scopes.old layer.now.site }
    ensures { Answers typed_in kind_reached (rule layer.now.site (syntax.When (plain c.now) (plain a.now))) scopes.old checker.old scopes.new checker.new result }
{
    let condition = layer.fits_boolean(checker, scopes, c)?;
    let body = layer.fits_unit(checker, scopes, a)?;
    layer
        .site
        .has_unit(checker, ExpressionForm::When(condition, body))
}

/// `if c a else b`: Motoko language manual, section "If".
pub fn conditional<F: Fn(&mut Checker, &mut Scopes, Part<'_>) -> Judged>(
    layer: &Layer<F>,
    checker: &mut Checker,
    scopes: &mut Scopes,
    c: &Expression<u32>,
    a: &Expression<u32>,
    b: &Expression<u32>,
) -> Judged
    requires judges { Judges layer.now.depth (F.pre layer.now.judge) (F.post layer.now.judge) }
    requires ready { Ready checker.old scopes.old layer.now.site }
    ensures { Answers typed_in kind_reached (rule layer.now.site (syntax.If (plain c.now) (plain a.now) (plain b.now))) scopes.old checker.old scopes.new checker.new result }
{
    let condition = layer.fits_boolean(checker, scopes, c)?;
    let first = layer.as_wanted(checker, scopes, a)?;
    let second = layer.as_wanted(checker, scopes, b)?;
    let kinds = [first.note.kind, second.note.kind];
    layer.site.branches(
        checker,
        &kinds,
        ExpressionForm::If(condition, first, second),
    )
}

/// `while c a`: Motoko language manual, section "While".
pub fn while_loop<F: Fn(&mut Checker, &mut Scopes, Part<'_>) -> Judged>(
    layer: &Layer<F>,
    checker: &mut Checker,
    scopes: &mut Scopes,
    c: &Expression<u32>,
    a: &Expression<u32>,
) -> Judged
    requires judges { Judges layer.now.depth (F.pre layer.now.judge) (F.post layer.now.judge) }
    requires ready { Ready checker.old scopes.old layer.now.site }
    ensures { Answers typed_in kind_reached (rule layer.now.site (syntax.While (plain c.now) (plain a.now))) scopes.old checker.old scopes.new checker.new result }
{
    let condition = layer.fits_boolean(checker, scopes, c)?;
    let body = layer.loop_body(checker, scopes, a)?;
    layer
        .site
        .has_unit(checker, ExpressionForm::While(condition, body))
}

/// `loop a`: Motoko language manual, section "Loop".
pub fn endless_loop<F: Fn(&mut Checker, &mut Scopes, Part<'_>) -> Judged>(
    layer: &Layer<F>,
    checker: &mut Checker,
    scopes: &mut Scopes,
    a: &Expression<u32>,
) -> Judged
    requires judges { Judges layer.now.depth (F.pre layer.now.judge) (F.post layer.now.judge) }
    requires ready { Ready checker.old scopes.old layer.now.site }
    ensures { Answers typed_in kind_reached (rule layer.now.site (syntax.Loop (plain a.now))) scopes.old checker.old scopes.new checker.new result }
{
    let body = layer.loop_body(checker, scopes, a)?;
    layer.site.has_bottom(checker, ExpressionForm::Loop(body))
}

/// `loop a while c`: Motoko language manual, section "Loop-while".
pub fn loop_while<F: Fn(&mut Checker, &mut Scopes, Part<'_>) -> Judged>(
    layer: &Layer<F>,
    checker: &mut Checker,
    scopes: &mut Scopes,
    a: &Expression<u32>,
    c: &Expression<u32>,
) -> Judged
    requires judges { Judges layer.now.depth (F.pre layer.now.judge) (F.post layer.now.judge) }
    requires ready { Ready checker.old scopes.old layer.now.site }
    ensures { Answers typed_in kind_reached (rule layer.now.site (syntax.LoopWhile (plain a.now) (plain c.now))) scopes.old checker.old scopes.new checker.new result }
{
    let body = layer.loop_body(checker, scopes, a)?;
    let condition = layer.fits_boolean(checker, scopes, c)?;
    layer
        .site
        .has_unit(checker, ExpressionForm::LoopWhile(body, condition))
}

/// `assert a`: Motoko language manual, section "Assert".
pub fn assertion<F: Fn(&mut Checker, &mut Scopes, Part<'_>) -> Judged>(
    layer: &Layer<F>,
    checker: &mut Checker,
    scopes: &mut Scopes,
    a: &Expression<u32>,
) -> Judged
    requires judges { Judges layer.now.depth (F.pre layer.now.judge) (F.post layer.now.judge) }
    requires ready { Ready checker.old scopes.old layer.now.site }
    ensures { Answers typed_in kind_reached (rule layer.now.site (syntax.Assert (plain a.now))) scopes.old checker.old scopes.new checker.new result }
{
    let of = layer.fits_boolean(checker, scopes, a)?;
    layer.site.has_unit(checker, ExpressionForm::Assert(of))
}

/// `debug a`: Motoko language manual, section "Debug".
pub fn debugging<F: Fn(&mut Checker, &mut Scopes, Part<'_>) -> Judged>(
    layer: &Layer<F>,
    checker: &mut Checker,
    scopes: &mut Scopes,
    a: &Expression<u32>,
) -> Judged
    requires judges { Judges layer.now.depth (F.pre layer.now.judge) (F.post layer.now.judge) }
    requires ready { Ready checker.old scopes.old layer.now.site }
    ensures { Answers typed_in kind_reached (rule layer.now.site (syntax.Debug (plain a.now))) scopes.old checker.old scopes.new checker.new result }
{
    let of = layer.fits_unit(checker, scopes, a)?;
    layer.site.has_unit(checker, ExpressionForm::Debug(of))
}

/// `ignore a`: Motoko language manual, section "Ignore".
pub fn ignoring<F: Fn(&mut Checker, &mut Scopes, Part<'_>) -> Judged>(
    layer: &Layer<F>,
    checker: &mut Checker,
    scopes: &mut Scopes,
    a: &Expression<u32>,
) -> Judged
    requires judges { Judges layer.now.depth (F.pre layer.now.judge) (F.post layer.now.judge) }
    requires ready { Ready checker.old scopes.old layer.now.site }
    ensures { Answers typed_in kind_reached (rule layer.now.site (syntax.Ignore (plain a.now))) scopes.old checker.old scopes.new checker.new result }
{
    let place = layer.site.place.directly(Around::Awaited);
    let of = layer.part_at(checker, scopes, place, a, None)?;
    layer.site.has_unit(checker, ExpressionForm::Ignore(of))
}

/// `do { .. }`: Motoko language manual, section "Do".
pub fn grouping<F: Fn(&mut Checker, &mut Scopes, Part<'_>) -> Judged>(
    layer: &Layer<F>,
    checker: &mut Checker,
    scopes: &mut Scopes,
    a: &Expression<u32>,
) -> Judged
    requires judges { Judges layer.now.depth (F.pre layer.now.judge) (F.post layer.now.judge) }
    requires ready { Ready checker.old scopes.old layer.now.site }
    ensures { Answers typed_in kind_reached (rule layer.now.site (syntax.Do (plain a.now))) scopes.old checker.old scopes.new checker.new result }
{
    let body = layer.as_wanted(checker, scopes, a)?;
    layer
        .site
        .gives(checker, body.note.kind, ExpressionForm::Do(body))
}
