//! Whether patterns cover a type.
ghost use Rattle.std.specs.Prelude.{◌≡◌, ◌++◌, [], ◌∷◌, IfOk, IfSome, IsTrue, OnOk, map};
ghost use Rattle.mo_types.specs.Sub.{Each};
ghost use Rattle.typed_tree.specs.Opening.{Code};
ghost use Rattle.typed_tree.specs.PatternView.{pattern};
ghost use Rattle.typed_tree.specs.Types.{AreLawful};
ghost use Rattle.pattern_coverage.specs.Cover.{IsExact, Tells, coverage, first_missed};
ghost use Rattle.pattern_coverage.specs.Cutting.{cut};
ghost use Rattle.pattern_coverage.specs.Followed.{value_head};
ghost use Rattle.pattern_coverage.specs.Inhabited.{in_table};
ghost use Rattle.pattern_coverage.specs.Known.{Unknown};
ghost use Rattle.pattern_coverage.specs.Suited.{IsOn};
ghost use Rattle.mo_coverage.specs.Covering.{cover_in, missed_by, missed_by_all, unmatched};
ghost use Rattle.mo_coverage.specs.Easy.{IsEasilyWhole};
ghost use Rattle.mo_coverage.specs.Met.{IsByTags};
ghost use Rattle.mo_coverage.specs.Pieces.{pieces_in};
ghost use Rattle.mo_coverage.specs.Shapes.{all_known};

use crate::cutting::cut;
use crate::marks::{are_easy, some_easy};
use crate::pieces::Piece;
use crate::shape::Shape;
use crate::tagged::tagged_alone;
use mo_num::Memory;
use mo_types::{Node, TypeGraph, TypeId};
use pattern_coverage::{is_in, value_node};
use std::alloc::Global;
use typed_tree::TypedPattern;

/// What patterns miss of the values of a type.
#[derive(Drop)]
pub enum Cover {
    /// Nothing.
    Whole,
    /// Values of this shape: there are some, and no pattern matches any of them.
    Misses(Shape),
}

// Adds what the pieces know that are not matched.
#[tactic(auto, using(crate::proofs::Lists::one_known_more))]
fn add_unmatched(pieces: Vec<Piece>, shapes: &mut Vec<Shape>) -> Result<(), Memory>
    ensures { OnOk result (all_known shapes.new.items ≡ all_known shapes.old.items ++ unmatched (pieces_in pieces.items)) }
{
    for piece in pieces {
        let Piece { matched, known } = piece;
        if !matched {
            shapes.push(known)?;
        }
    }
    Ok(())
}

// What of these shapes a pattern misses.
fn miss(
    alloc: Global,
    types: &TypeGraph,
    table: &[bool],
    typed: &TypedPattern,
    id: TypeId,
    shapes: Vec<Shape>,
) -> Result<Vec<Shape>, Memory>
    ensures { IfOk result (λ made. all_known made.items ≡ missed_by (cut (value_head types.now) (in_table table.now) (pattern typed.now) id) (all_known shapes.items)) }
{
    let mut made = Vec::new(alloc);
    for shape in shapes {
        let pieces = cut(alloc, types, table, typed, id, shape)?;
        add_unmatched(pieces, &mut made)?;
    }
    Ok(made)
}

fn first(shapes: Vec<Shape>) -> Cover
    ensures { cover_in result ≡ first_missed (all_known shapes.items) }
{
    let mut rest = shapes.into_iter();
    match rest.next() {
        Some(shape) => Cover::Misses(shape),
        None => Cover::Whole,
    }
}

// What all of the patterns miss.
#[tactic(auto, unfolding(crate::specs::Shapes::known))]
fn miss_all(
    alloc: Global,
    types: &TypeGraph,
    table: &[bool],
    patterns: &[&TypedPattern],
    id: TypeId,
) -> Result<Vec<Shape>, Memory>
    ensures { IfOk result (λ made. all_known made.items ≡ missed_by_all (value_head types.now) (in_table table.now) (map (λ p. pattern p.now) patterns.now) id (Unknown ∷ [])) }
{
    let mut shapes = Vec::new(alloc);
    shapes.push(Shape::Unknown)?;
    for typed in patterns {
        shapes = miss(alloc, types, table, *typed, id, shapes)?;
    }
    Ok(shapes)
}

// Whether it shows at once that all values match.
fn is_easily_whole(
    alloc: Global,
    types: &TypeGraph,
    table: &[bool],
    patterns: &[&TypedPattern],
    id: TypeId,
) -> Result<bool, Memory>
    ensures { IfOk result (λ all. IsTrue all → IsEasilyWhole (in_table table.now) (value_head types.now id) (map (λ p. pattern p.now) patterns.now)) }
{
    if some_easy(patterns) {
        return Ok(true);
    }
    match value_node(types, id) {
        Some(Node::Variant(tags)) => are_easy(alloc, table, tags.as_slice(), patterns),
        _ => Ok(false),
    }
}

// What the patterns miss, if that shows at once by the tags of a variant.
fn by_tags(
    alloc: Global,
    types: &TypeGraph,
    table: &[bool],
    patterns: &[&TypedPattern],
    id: TypeId,
) -> Result<Option<Cover>, Memory>
    requires { AreLawful types.now }
    ensures { IfOk result (λ some. IfSome some (λ cover. IsByTags (in_table table.now) (value_head types.now id) (map (λ p. pattern p.now) patterns.now) (cover_in cover))) }
{
    match value_node(types, id) {
        Some(Node::Variant(tags)) => tagged_alone(alloc, table, tags.as_slice(), patterns),
        _ => Ok(None),
    }
}

/// Whether each value of a type matches one of the patterns: Motoko language manual, sections "Patterns" and "Switch". The table
/// has the types that have values, as `types_with_values` of `pattern_coverage` finds them, and each pattern is on the type. Type
/// parameters and `Any` have values.
pub fn covers(
    alloc: Global,
    types: &TypeGraph,
    table: &[bool],
    patterns: &[&TypedPattern],
    id: TypeId,
) -> Result<Cover, Memory>
    requires lawful { AreLawful types.now }
    requires table { Tells (value_head types.now) (in_table table.now) }
    requires on { Each (λ p. IsOn (value_head types.now) p id) (map (λ p. pattern p.now) patterns.now) }
    ensures coverage { IfOk result (λ cover. cover_in cover ≡ coverage (value_head types.now) (in_table table.now) (map (λ p. pattern p.now) patterns.now) id) }
    ensures exact { IfOk result (λ cover. IsExact (value_head types.now) Code id (map (λ p. pattern p.now) patterns.now) (cover_in cover)) }
{
    if !is_in(table, id) {
        return Ok(Cover::Whole);
    }
    if is_easily_whole(alloc, types, table, patterns, id)? {
        return Ok(Cover::Whole);
    }
    match by_tags(alloc, types, table, patterns, id)? {
        Some(cover) => Ok(cover),
        None => Ok(first(miss_all(alloc, types, table, patterns, id)?)),
    }
}
