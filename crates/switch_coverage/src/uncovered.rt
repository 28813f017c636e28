//! Which of the switches of a program miss a value.
ghost use Rattle.std.specs.Prelude.{◌≡◌, IfOk, OnOk, map};
ghost use Rattle.std.specs.List.Sorted.{IsNonDecreasingBy, IsPermutation};
ghost use Rattle.mo_types.specs.Sub.{Each};
ghost use Rattle.typed_tree.specs.PatternView.{pattern};
ghost use Rattle.typed_tree.specs.Types.{AreLawful};
ghost use Rattle.typed_tree.specs.WellTyped.{WellTyped};
ghost use Rattle.pattern_coverage.specs.Cover.{Tells};
ghost use Rattle.pattern_coverage.specs.Followed.{value_head};
ghost use Rattle.pattern_coverage.specs.Inhabited.{in_table};
ghost use Rattle.mo_coverage.specs.Covering.{cover_in};
ghost use Rattle.switch_coverage.specs.Found.{patterns_in, switch_in, switches_in};
ghost use Rattle.switch_coverage.specs.Uncovered.{AreUncovered, Fits, Says, Selects, all_missing, with_next};

use crate::walk::{Found, switches};
use mo_coverage::{Cover, Shape};
use mo_num::Memory;
use mo_types::{TypeGraph, TypeId};
use pattern_coverage::types_with_values;
use std::alloc::Global;
use tag_coverage::covers;
use typed_tree::{Case, Program, TypedPattern};

/// A `switch` that misses a value.
pub struct Uncovered {
    /// The number of its first token.
    pub token: u32,
    /// The type of its value.
    pub of_type: TypeId,
    /// What is known of values that it misses.
    pub missed: Shape,
}

// Written here, so that it is proved here, and not again in each crate that lets what is found go.
impl Drop for Uncovered {
    fn drop(self) {
        let Uncovered {
            token: _token,
            of_type: _of_type,
            missed: _missed,
        } = self;
    }
}

fn patterns_of<'a>(alloc: Global, cases: &'a [Case]) -> Result<Vec<&'a TypedPattern>, Memory>
    ensures { IfOk result (λ made. map (λ p. pattern p.now) made.items ≡ patterns_in cases.entry.now) }
{
    let mut made = Vec::with_capacity(alloc, cases.len())?;
    for case in cases {
        made.push(&case.pattern)?;
    }
    Ok(made)
}

// What coverage says of a switch.
fn cover(
    alloc: Global,
    types: &TypeGraph,
    table: &[bool],
    found: &Found<'_>,
) -> Result<Cover, Memory>
    requires lawful { AreLawful types.now }
    requires table { Tells (value_head types.now) (in_table table.now) }
    requires fits { Fits types.now (switch_in found.now) }
    ensures { IfOk result (λ cover. Says types.now (switch_in found.now) (cover_in cover)) }
{
    let patterns = patterns_of(alloc, found.cases)?;
    covers(alloc, types, table, patterns.as_slice(), found.of_type)
}

// Adds a switch, where it misses a value.
#[tactic(auto, using(crate::proofs::Lists::one_missing))]
fn add(token: u32, of_type: TypeId, cover: Cover, made: &mut Vec<Uncovered>) -> Result<(), Memory>
    ensures { OnOk result (all_missing made.new.items ≡ with_next token of_type (cover_in cover) (all_missing made.old.items)) }
{
    match cover {
        Cover::Whole => Ok(()),
        Cover::Misses(missed) => {
            made.push(Uncovered {
                token,
                of_type,
                missed,
            })?;
            Ok(())
        }
    }
}

// Those of these switches that miss a value.
fn select(
    alloc: Global,
    types: &TypeGraph,
    table: &[bool],
    found: &[Found<'_>],
) -> Result<Vec<Uncovered>, Memory>
    requires lawful { AreLawful types.now }
    requires table { Tells (value_head types.now) (in_table table.now) }
    requires fit { Each (Fits types.now) (switches_in found.now) }
    ensures { IfOk result (λ made. Selects types.now (switches_in found.now) (all_missing made.items)) }
{
    let mut made = Vec::new(alloc);
    for one in found {
        let told = cover(alloc, types, table, one)?;
        add(one.token, one.of_type, told, &mut made)?;
    }
    Ok(made)
}

// In the order of their first tokens.
fn sorted(found: Vec<Uncovered>) -> Result<Vec<Uncovered>, Memory>
    ensures same { IfOk result (λ made. IsPermutation (all_missing found.items) (all_missing made.items)) }
    ensures in_order { IfOk result (λ made. IsNonDecreasingBy (λ u. u.token) made.items) }
{
    let mut found = found;
    found.sort_by_key(|one| one.token)?;
    Ok(found)
}

/// The switches of a program for which some value of the type matches no case, in the order in which they stand in the source, each with
/// what is known of values that it misses: Motoko language manual, section "Switch". Type parameters have the values of their bounds. The
/// recursion is as deep as the program.
pub fn uncovered_switches(alloc: Global, program: &Program) -> Result<Vec<Uncovered>, Memory>
    requires { WellTyped program.now }
    ensures { IfOk result (λ found. AreUncovered program.now found.items) }
{
    let table = types_with_values(alloc, &program.types)?;
    let found = switches(alloc, program)?;
    let missing = select(alloc, &program.types, table.as_slice(), found.as_slice())?;
    sorted(missing)
}
