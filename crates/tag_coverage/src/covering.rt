//! Whether patterns cover a type.
ghost use Rattle.std.specs.Prelude.{◌≡◌, IfOk, IfSome, length, map};
ghost use Rattle.mo_types.specs.declared.node.Node.TheVariants as node;
ghost use Rattle.mo_types.specs.Sub.{Each};
ghost use Rattle.typed_tree.specs.Opening.{Code};
ghost use Rattle.typed_tree.specs.PatternView.{pattern};
ghost use Rattle.typed_tree.specs.Types.{AreLawful};
ghost use Rattle.pattern_coverage.specs.Cover.{IsExact, Tells};
ghost use Rattle.pattern_coverage.specs.Followed.{value_head};
ghost use Rattle.pattern_coverage.specs.Inhabited.{in_table};
ghost use Rattle.pattern_coverage.specs.Suited.{IsOn};
ghost use Rattle.mo_coverage.specs.Covering.{cover_in};
ghost use Rattle.tag_coverage.specs.Within.{AreOnTags, IsToldByTag};
ghost use Rattle.tag_coverage.specs.Payloads.{listed, patterns_in};

use crate::alternatives::alternatives;
use crate::options::{all_of_option, insides, some_null};
use crate::payloads::payloads;
use crate::within::{in_option, null_missed, under_tag};
use mo_coverage::Cover;
use mo_num::{Memory, Sequence};
use mo_types::{Field, Node, TypeGraph, TypeId};
use pattern_coverage::value_node;
use std::alloc::Global;
use typed_tree::TypedPattern;

// So many variants and options within one another are looked at by their parts. What stands deeper is left to `mo_coverage`. This bounds
// the recursion, which is as deep as a pattern otherwise.
const LEVELS: u32 = 32;

// What is missed of the first tag of which anything is, where the patterns under each tag stand in the list with its number.
#[cycle(parts)]
fn told_by_tag(
    alloc: Global,
    types: &TypeGraph,
    table: &[bool],
    tags: &[Field],
    lists: &[Sequence<&TypedPattern>],
    levels: u32,
) -> Result<Cover, Memory>
    requires lawful { AreLawful types.now }
    requires table { Tells (value_head types.now) (in_table table.now) }
    requires many { length lists.now ≡ length tags.now }
    requires on { AreOnTags (value_head types.now) tags.now (listed lists.now) }
    ensures { IfOk result (λ told. IsToldByTag (value_head types.now) tags.now (listed lists.now) (cover_in told)) }
{
    for (place, tag) in tags.iter().enumerate() {
        let list = lists[place].as_slice();
        let inside = covers_within(alloc, types, table, list, tag.part, levels)?;
        match under_tag(alloc, tag.label.as_slice(), inside)? {
            Cover::Whole => {}
            Cover::Misses(shape) => return Ok(Cover::Misses(shape)),
        }
    }
    Ok(Cover::Whole)
}

// What the patterns miss of a variant, if each is a tag of it.
#[cycle(parts)]
fn by_tags(
    alloc: Global,
    types: &TypeGraph,
    table: &[bool],
    tags: &[Field],
    patterns: &[&TypedPattern],
    id: TypeId,
    levels: u32,
) -> Result<Option<Cover>, Memory>
    requires lawful { AreLawful types.now }
    requires table { Tells (value_head types.now) (in_table table.now) }
    requires is { value_head types.now id ≡ node.Variant tags.now }
    requires on { Each (λ p. IsOn (value_head types.now) p id) (patterns_in patterns.now) }
    ensures { IfOk result (λ some. IfSome some (λ cover. IsExact (value_head types.now) Code id (patterns_in patterns.now) (cover_in cover))) }
{
    match payloads(alloc, tags, patterns)? {
        Some(lists) => Ok(Some(told_by_tag(alloc, types, table, tags, lists.as_slice(), levels)?)),
        None => Ok(None),
    }
}

// What the patterns miss of options, if each is `null`, or `?` and a pattern.
#[cycle(parts)]
fn by_option(
    alloc: Global,
    types: &TypeGraph,
    table: &[bool],
    of: TypeId,
    patterns: &[&TypedPattern],
    id: TypeId,
    levels: u32,
) -> Result<Option<Cover>, Memory>
    requires lawful { AreLawful types.now }
    requires table { Tells (value_head types.now) (in_table table.now) }
    requires is { value_head types.now id ≡ node.Opt of }
    requires on { Each (λ p. IsOn (value_head types.now) p id) (patterns_in patterns.now) }
    ensures { IfOk result (λ some. IfSome some (λ cover. IsExact (value_head types.now) Code id (patterns_in patterns.now) (cover_in cover))) }
{
    if !all_of_option(patterns) {
        return Ok(None);
    }
    if !some_null(patterns) {
        return Ok(Some(null_missed()));
    }
    let list = insides(alloc, patterns)?;
    let inside = covers_within(alloc, types, table, list.as_slice(), of, levels)?;
    Ok(Some(in_option(alloc, inside)?))
}

// The same, if the type is a variant or an option, and there are patterns: without any, nothing is known of what is missed.
#[cycle(parts)]
fn by_parts(
    alloc: Global,
    types: &TypeGraph,
    table: &[bool],
    patterns: &[&TypedPattern],
    id: TypeId,
    levels: u32,
) -> Result<Option<Cover>, Memory>
    requires lawful { AreLawful types.now }
    requires table { Tells (value_head types.now) (in_table table.now) }
    requires on { Each (λ p. IsOn (value_head types.now) p id) (patterns_in patterns.now) }
    ensures { IfOk result (λ some. IfSome some (λ cover. IsExact (value_head types.now) Code id (patterns_in patterns.now) (cover_in cover))) }
{
    if levels == 0 || patterns.is_empty() {
        return Ok(None);
    }
    let inner = levels - 1;
    match value_node(types, id) {
        Some(Node::Variant(tags)) => {
            by_tags(alloc, types, table, tags.as_slice(), patterns, id, inner)
        }
        Some(Node::Opt(of)) => by_option(alloc, types, table, *of, patterns, id, inner),
        _ => Ok(None),
    }
}

// The same of any type, where alternatives are patterns of their own.
#[cycle(parts)]
fn covers_within(
    alloc: Global,
    types: &TypeGraph,
    table: &[bool],
    patterns: &[&TypedPattern],
    id: TypeId,
    levels: u32,
) -> Result<Cover, Memory>
    requires lawful { AreLawful types.now }
    requires table { Tells (value_head types.now) (in_table table.now) }
    requires on { Each (λ p. IsOn (value_head types.now) p id) (patterns_in patterns.now) }
    ensures { IfOk result (λ cover. IsExact (value_head types.now) Code id (patterns_in patterns.now) (cover_in cover)) }
{
    let each = alternatives(alloc, patterns)?;
    match by_parts(alloc, types, table, each.as_slice(), id, levels)? {
        Some(cover) => Ok(cover),
        None => mo_coverage::covers(alloc, types, table, each.as_slice(), id),
    }
}

/// Whether each value of a type matches one of the patterns, as `covers` of `mo_coverage` finds it: Motoko language manual, sections
/// "Patterns" and "Switch". Where the type is a variant and all patterns are tags, what is missed is found tag by tag, so that the patterns
/// under one tag do not meet what is missed under the others; and so it is within tags and options.
pub fn covers(
    alloc: Global,
    types: &TypeGraph,
    table: &[bool],
    patterns: &[&TypedPattern],
    id: TypeId,
) -> Result<Cover, Memory>
    requires lawful { AreLawful types.now }
    requires table { Tells (value_head types.now) (in_table table.now) }
    requires on { Each (λ p. IsOn (value_head types.now) p id) (map (λ p. pattern p.now) patterns.now) }
    ensures exact { IfOk result (λ cover. IsExact (value_head types.now) Code id (map (λ p. pattern p.now) patterns.now) (cover_in cover)) }
{
    covers_within(alloc, types, table, patterns, id, LEVELS)
}
