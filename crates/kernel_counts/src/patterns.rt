//! The nodes of patterns and signatures, however their notes are seen.
ghost use Rattle.std.specs.Prelude.{IfOk, map, option_map};
ghost use Rattle.typing_rules.specs.Nodes.{in_context, in_pattern, in_pattern_fields, in_patterns, in_signature};
ghost use Rattle.abstract_types.specs.PatternView.{fields, listed, pattern, pattern_field, signature};
ghost use Rattle.judged_parts.specs.Parts.{See};
ghost use Rattle.kernel_counts.specs.Counting.{Counts};

use crate::next::one_more;
use crate::types::{count_annotation, count_generics, count_type};
use abstract_types::{Pattern, PatternField, PatternForm, Signature};
use mo_num::Memory;
use value_scopes::Note;

#[cycle(patterns)]
fn count_pattern_within(q: &Pattern<Note>, depth: usize, counted: u32) -> Result<u32, Memory>
    ensures { (see : See) → IfOk result (Counts (in_pattern (pattern see q.now)) counted) }
{
    if depth == 0 {
        return Err(Memory);
    }
    let here = one_more(counted)?;
    match q.form.get() {
        PatternForm::Annotated(q, node) => {
            let first = count_pattern_within(q, depth - 1, here)?;
            count_type(node, first)
        }
        PatternForm::Alternative(q, r) => {
            let first = count_pattern_within(q, depth - 1, here)?;
            count_pattern_within(r, depth - 1, first)
        }
        PatternForm::Optional(q) => count_pattern_within(q, depth - 1, here),
        PatternForm::Tag(_) => Ok(here),
        PatternForm::Tagged(_, q) => count_pattern_within(q, depth - 1, here),
        PatternForm::Variable(_) => Ok(here),
        PatternForm::Wildcard => Ok(here),
        PatternForm::Constant(_, _) => Ok(here),
        PatternForm::Tuple(items) => count_patterns_within(items.as_slice(), depth - 1, here),
        PatternForm::Object(fields) => count_fields_within(fields.as_slice(), depth - 1, here),
    }
}

#[cycle(patterns)]
fn count_patterns_within(
    patterns: &[Pattern<Note>],
    depth: usize,
    counted: u32,
) -> Result<u32, Memory>
    ensures { (see : See) → IfOk result (Counts (in_patterns (listed (map (pattern see) patterns.now))) counted) }
{
    let mut sum = counted;
    for q in patterns {
        sum = count_pattern_within(q, depth, sum)?;
    }
    Ok(sum)
}

#[cycle(patterns)]
fn count_fields_within(
    list: &[PatternField<Note>],
    depth: usize,
    counted: u32,
) -> Result<u32, Memory>
    ensures { (see : See) → IfOk result (Counts (in_pattern_fields (fields (map (pattern_field see) list.now))) counted) }
{
    let mut sum = counted;
    for field in list {
        let here = one_more(sum)?;
        sum = count_pattern_within(&field.pattern, depth, here)?;
    }
    Ok(sum)
}

/// Adds the nodes of patterns.
pub fn count_patterns(patterns: &[Pattern<Note>], counted: u32) -> Result<u32, Memory>
    ensures { (see : See) → IfOk result (Counts (in_patterns (listed (map (pattern see) patterns.now))) counted) }
{
    count_patterns_within(patterns, usize::MAX, counted)
}

/// Adds the nodes of a pattern.
pub(crate) fn count_pattern(q: &Pattern<Note>, counted: u32) -> Result<u32, Memory>
    ensures { (see : See) → IfOk result (Counts (in_pattern (pattern see q.now)) counted) }
{
    count_pattern_within(q, usize::MAX, counted)
}

/// Adds the nodes of the pattern of a context, if there is one.
pub fn count_context(q: &Option<Pattern<Note>>, counted: u32) -> Result<u32, Memory>
    ensures { (see : See) → IfOk result (Counts (in_context (option_map (pattern see) q.now)) counted) }
{
    match q {
        None => Ok(counted),
        Some(q) => count_pattern(q, counted),
    }
}

/// Adds the nodes of a signature.
pub(crate) fn count_signature(g: &Signature<Note>, counted: u32) -> Result<u32, Memory>
    ensures { (see : See) → IfOk result (Counts (in_signature (signature see g.now)) counted) }
{
    let first = count_generics(g.generics.as_slice(), counted)?;
    let second = count_patterns_within(g.parameters.as_slice(), usize::MAX, first)?;
    count_annotation(&g.result, second)
}
