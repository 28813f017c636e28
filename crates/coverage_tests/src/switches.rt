//! What cases miss of small types.
ghost use Rattle.std.specs.Prelude.{◌≡◌, ◌∷◌, [], map, codes, false, true, IfOk};
ghost use Rattle.mo_types.specs.declared.datum.Datum.TheVariants as datum;
ghost use Rattle.typed_tree.specs.Patterns.{Constant, Tagged, Wildcard};
ghost use Rattle.typed_tree.specs.PatternView.{pattern, pattern_form};

use crate::small::small_types;
use mo_coverage::{Cover, Shape, covers};
use mo_num::{Bytes, Memory};
use mo_syntax::{Node, Place};
use mo_types::{Datum, TypeId};
use pattern_coverage::types_with_values;
use std::alloc::Global;
use std::test::Fail;
use typed_tree::{Literal, PatternForm, TypedPattern};

/// A pattern on a type.
#[tactic(auto, using(crate::proofs::Cases::typed_view))]
fn typed(alloc: Global, of_type: TypeId, form: PatternForm) -> Result<TypedPattern, Memory>
    ensures { IfOk result (λ made. pattern made ≡ pattern_form form) }
{
    let place = Place { start: 0, end: 1 };
    Ok(TypedPattern {
        of_type,
        form: Node::new(alloc, place, form)?,
    })
}

/// The case of a truth value.
#[tactic(auto, using(crate::proofs::Cases::flag_view))]
fn if_flag(alloc: Global, boolean: TypeId, flag: bool) -> Result<TypedPattern, Memory>
    ensures { IfOk result (λ made. pattern made ≡ Constant (datum.Flag flag)) }
{
    typed(alloc, boolean, PatternForm::Constant(Literal::Flag(flag)))
}

/// The case of the tag `red`.
#[tactic(auto, using(crate::proofs::Cases::tagged_view))]
fn if_red(alloc: Global, boolean: TypeId, light: TypeId) -> Result<TypedPattern, Memory>
    ensures { IfOk result (λ made. pattern made ≡ Tagged (codes "red") Wildcard) }
{
    let label = Bytes::from_slice(alloc, b"red")?;
    let inside = typed(alloc, boolean, PatternForm::Wildcard)?;
    typed(alloc, light, PatternForm::Tagged(label, inside))
}

#[test]
#[tactic(auto, using(crate::proofs::SmallLawful::small_lawful, crate::proofs::Cases::flags_on))]
fn both_truth_values_are_whole(rt: HostRuntime) -> Result<(), Fail> {
    let (types, boolean, _) = small_types(rt.alloc())?;
    let table = types_with_values(rt.alloc(), &types)?;
    let no = if_flag(rt.alloc(), boolean, false)?;
    let yes = if_flag(rt.alloc(), boolean, true)?;
    let mut cases = Vec::new(rt.alloc());
    cases.push(&no)?;
    cases.push(&yes)?;
    let cover = covers(
        rt.alloc(),
        &types,
        table.as_slice(),
        cases.as_slice(),
        boolean,
    )?;
    assert!(rt; matches!(cover, Cover::Whole));
    Ok(())
}

#[test]
#[tactic(auto, using(crate::proofs::SmallLawful::small_lawful, crate::proofs::Cases::reds_on))]
fn a_tag_is_missed(rt: HostRuntime) -> Result<(), Fail> {
    let (types, boolean, light) = small_types(rt.alloc())?;
    let table = types_with_values(rt.alloc(), &types)?;
    let red = if_red(rt.alloc(), boolean, light)?;
    let mut cases = Vec::new(rt.alloc());
    cases.push(&red)?;
    let cover = covers(
        rt.alloc(),
        &types,
        table.as_slice(),
        cases.as_slice(),
        light,
    )?;
    assert!(rt; matches!(cover, Cover::Misses(Shape::NotUnder(_))));
    Ok(())
}
