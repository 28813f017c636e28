//! The nodes of patterns and signatures.
ghost use Rattle.std.specs.Prelude.{IfOk, map, option_map};
ghost use Rattle.typing_rules.specs.Nodes.{in_context, in_pattern, in_pattern_fields, in_patterns, in_signature};
ghost use Rattle.abstract_types.specs.PatternView.{fields, listed, plain, plain_field, plain_signature};
ghost use Rattle.node_counts.specs.Counting.{Counts};

use crate::capped::one_more;
use crate::types::{count_annotation, count_generics, count_type};
use abstract_types::{Pattern, PatternField, PatternForm, Signature};
use mo_num::Memory;

#[cycle(patterns)]
fn count_pattern_within(q: &Pattern<u32>, depth: usize, counted: u32) -> Result<u32, Memory>
    ensures { IfOk result (Counts (in_pattern (plain q.now)) counted) }
{
    if depth == 0 {
        return Err(Memory);
    }
    let here = one_more(counted);
    match q.form.get() {
        PatternForm::Annotated(q, node) => {
            let first = count_pattern_within(q, depth - 1, here)?;
            count_type(node, first)
        }
        PatternForm::Alternative(q, r) => {
            let first = count_pattern_within(q, depth - 1, here)?;
            count_pattern_within(r, depth - 1, first)
        }
        PatternForm::Optional(q) => count_pattern_within(q, depth - 1, here),
        PatternForm::Tag(_) => Ok(here),
        PatternForm::Tagged(_, q) => count_pattern_within(q, depth - 1, here),
        PatternForm::Variable(_) => Ok(here),
        PatternForm::Wildcard => Ok(here),
        PatternForm::Constant(_, _) => Ok(here),
        PatternForm::Tuple(items) => count_patterns_within(items.as_slice(), depth - 1, here),
        PatternForm::Object(fields) => count_fields_within(fields.as_slice(), depth - 1, here),
    }
}

#[cycle(patterns)]
fn count_patterns_within(
    patterns: &[Pattern<u32>],
    depth: usize,
    counted: u32,
) -> Result<u32, Memory>
    ensures { IfOk result (Counts (in_patterns (listed (map plain patterns.now))) counted) }
{
    let mut sum = counted;
    for q in patterns {
        sum = count_pattern_within(q, depth, sum)?;
    }
    Ok(sum)
}

#[cycle(patterns)]
fn count_fields_within(
    list: &[PatternField<u32>],
    depth: usize,
    counted: u32,
) -> Result<u32, Memory>
    ensures { IfOk result (Counts (in_pattern_fields (fields (map plain_field list.now))) counted) }
{
    let mut sum = counted;
    for field in list {
        sum = count_pattern_within(&field.pattern, depth, one_more(sum))?;
    }
    Ok(sum)
}

/// Adds the nodes of a pattern.
pub(crate) fn count_pattern(q: &Pattern<u32>, counted: u32) -> Result<u32, Memory>
    ensures { IfOk result (Counts (in_pattern (plain q.now)) counted) }
{
    count_pattern_within(q, usize::MAX, counted)
}

/// Adds the nodes of the pattern of a context, if there is one.
pub(crate) fn count_context(q: &Option<Pattern<u32>>, counted: u32) -> Result<u32, Memory>
    ensures { IfOk result (Counts (in_context (option_map plain q.now)) counted) }
{
    match q {
        None => Ok(counted),
        Some(q) => count_pattern(q, counted),
    }
}

/// Adds the nodes of a signature.
pub(crate) fn count_signature(signature: &Signature<u32>, counted: u32) -> Result<u32, Memory>
    ensures { IfOk result (Counts (in_signature (plain_signature signature.now)) counted) }
{
    let first = count_generics(signature.generics.as_slice(), counted)?;
    let second = count_patterns_within(signature.parameters.as_slice(), usize::MAX, first)?;
    count_annotation(&signature.result, second)
}
