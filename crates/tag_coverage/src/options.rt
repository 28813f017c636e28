//! The patterns within options.
ghost use Rattle.std.specs.Prelude.{◌≡◌, ◌++◌, IfOk, OnOk};
ghost use Rattle.typed_tree.specs.PatternView.{pattern};
ghost use Rattle.tag_coverage.specs.Options.{all_of_option, inside, insides, is_null, is_of_option, some_null};
ghost use Rattle.tag_coverage.specs.Payloads.{patterns_in};

use mo_num::Memory;
use std::alloc::Global;
use typed_tree::{Literal, PatternForm, TypedPattern};

#[tactic(auto, unfolding(typed_tree::specs::PatternView::pattern, typed_tree::specs::PatternView::pattern_form, typed_tree::specs::ViewLaws::field))]
fn is_null(typed: &TypedPattern) -> bool
    ensures { result ≡ is_null (pattern typed.now) }
{
    match typed.form.get() {
        PatternForm::Constant(Literal::Null) => true,
        _ => false,
    }
}

#[tactic(auto, unfolding(typed_tree::specs::PatternView::pattern, typed_tree::specs::PatternView::pattern_form, typed_tree::specs::ViewLaws::field))]
fn is_of_option(typed: &TypedPattern) -> bool
    ensures { result ≡ is_of_option (pattern typed.now) }
{
    match typed.form.get() {
        PatternForm::Present(_) | PatternForm::Constant(Literal::Null) => true,
        _ => false,
    }
}

/// Whether one of the patterns is `null`.
pub(crate) fn some_null(patterns: &[&TypedPattern]) -> bool
    ensures { result ≡ some_null (patterns_in patterns.now) }
{
    for typed in patterns {
        if is_null(*typed) {
            return true;
        }
    }
    false
}

/// Whether each of the patterns is `null`, or `?` and a pattern.
pub(crate) fn all_of_option(patterns: &[&TypedPattern]) -> bool
    ensures { result ≡ all_of_option (patterns_in patterns.now) }
{
    for typed in patterns {
        if !is_of_option(*typed) {
            return false;
        }
    }
    true
}

// Adds what stands behind the `?` of a pattern, if it has one.
#[tactic(auto, unfolding(typed_tree::specs::PatternView::pattern, typed_tree::specs::PatternView::pattern_form, typed_tree::specs::ViewLaws::field))]
fn add_inside<'a>(typed: &'a TypedPattern, made: &mut Vec<&'a TypedPattern>) -> Result<(), Memory>
    ensures { OnOk result (patterns_in made.new.items ≡ patterns_in made.old.items ++ inside (pattern typed.entry.now)) }
{
    if let PatternForm::Present(of) = typed.form.get() {
        made.push(of)?;
    }
    Ok(())
}

/// What stands behind the `?` of each pattern that has one, in their order.
pub(crate) fn insides<'a>(
    alloc: Global,
    patterns: &[&'a TypedPattern],
) -> Result<Vec<&'a TypedPattern>, Memory>
    ensures { IfOk result (λ made. patterns_in made.items ≡ insides (patterns_in patterns.now)) }
{
    let mut made = Vec::with_capacity(alloc, patterns.len())?;
    for typed in patterns {
        add_inside(*typed, &mut made)?;
    }
    Ok(made)
}
