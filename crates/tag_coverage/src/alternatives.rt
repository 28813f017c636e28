//! Alternatives as patterns of their own.
ghost use Rattle.std.specs.Prelude.{◌≡◌, ◌++◌, IfOk, OnOk};
ghost use Rattle.typed_tree.specs.PatternView.{pattern};
ghost use Rattle.tag_coverage.specs.Alternatives.{all_alternatives, alternatives};
ghost use Rattle.tag_coverage.specs.Payloads.{patterns_in};

use mo_num::Memory;
use std::alloc::Global;
use typed_tree::{PatternForm, TypedPattern};

// Adds the alternatives of a pattern. The recursion is as deep as the pattern, which the parser bounds.
#[cycle(add)]
#[tactic(auto, unfolding(typed_tree::specs::PatternView::pattern, typed_tree::specs::PatternView::pattern_form, typed_tree::specs::ViewLaws::field))]
fn add<'a>(typed: &'a TypedPattern, made: &mut Vec<&'a TypedPattern>) -> Result<(), Memory>
    ensures { OnOk result (patterns_in made.new.items ≡ patterns_in made.old.items ++ alternatives (pattern typed.entry.now)) }
{
    match typed.form.get() {
        PatternForm::Either(first, second) => {
            add(first, made)?;
            add(second, made)
        }
        _ => {
            made.push(typed)?;
            Ok(())
        }
    }
}

/// The alternatives of all patterns, one after another.
pub(crate) fn alternatives<'a>(
    alloc: Global,
    patterns: &[&'a TypedPattern],
) -> Result<Vec<&'a TypedPattern>, Memory>
    ensures { IfOk result (λ made. patterns_in made.items ≡ all_alternatives (patterns_in patterns.now)) }
{
    let mut made = Vec::with_capacity(alloc, patterns.len())?;
    for typed in patterns {
        add(*typed, &mut made)?;
    }
    Ok(made)
}
