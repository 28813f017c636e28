//! The functions of a list by the names that occur in their bodies.
ghost use Rattle.std.specs.Prelude.{◌≡◌, ◌++◌, [], OnOk, IfOk, List, ℕ, cond};
ghost use Rattle.std.specs.Global.{Vec};
ghost use Rattle.std.specs.Str.{bytes_eq};
ghost use Rattle.mo_name_table.specs.Places.{texts};
ghost use Rattle.mo_names.specs.Order as order;
ghost use Rattle.mo_order.specs.Calls.{functions_at, Mentioned, mentions, mentions_of};

use crate::step::Step;
use indexmap::IndexMap;
use mo_name_table::{Names, push_copies};
use mo_num::Memory;
use mo_syntax::Name;
use std::alloc::Global;

/// For each name the functions in whose bodies it occurs, by its bytes.
#[derive(Drop)]
pub(crate) struct Calls {
    functions: IndexMap<Vec<u8>, Names>,
}

/// Takes the functions at a name away, and gives them.
fn take(alloc: Global, functions: &mut IndexMap<Vec<u8>, Names>, key: &Vec<u8>) -> Names
    ensures taken { texts result ≡ functions_at functions.old key.now }
    ensures others { (q : Vec ℕ) → functions_at functions.new q ≡ cond (bytes_eq key.now.items q.items) [] (functions_at functions.old q) }
{
    match functions.swap_remove(key) {
        Some(names) => names,
        None => Names::new(alloc),
    }
}

/// Puts the functions at a name.
fn put(functions: &mut IndexMap<Vec<u8>, Names>, key: Vec<u8>, names: Names) -> Result<(), Memory>
    ensures { (q : Vec ℕ) → OnOk result (functions_at functions.new q ≡ cond (bytes_eq key.items q.items) (texts names) (functions_at functions.old q)) }
{
    functions.insert(key, names)?;
    Ok(())
}

/// Adds functions at a name.
fn add(
    alloc: Global,
    functions: &mut IndexMap<Vec<u8>, Names>,
    name: &Name,
    more: &[Name],
) -> Result<(), Memory>
    ensures { (q : Vec ℕ) → OnOk result (functions_at functions.new q ≡ functions_at functions.old q ++ cond (bytes_eq name.now.bytes q.items) (texts more.now) []) }
{
    let key = Vec::from_slice(alloc, name.as_slice())?;
    let mut names = take(alloc, functions, &key);
    push_copies(alloc, &mut names, more)?;
    put(functions, key, names)
}

/// Adds a function at each name that occurs in its body.
fn add_step(
    alloc: Global,
    functions: &mut IndexMap<Vec<u8>, Names>,
    step: &Step,
) -> Result<(), Memory>
    ensures { (q : Vec ℕ) → OnOk result (functions_at functions.new q ≡ functions_at functions.old q ++ mentions_of step.now q.items) }
{
    for name in step.occurs() {
        add(alloc, functions, name, step.functions())?;
    }
    Ok(())
}

/// The functions of a list by the names that occur in their bodies.
pub(crate) fn calls_of(alloc: Global, steps: &[Step]) -> Result<Calls, Memory>
    ensures { IfOk result (λ made. Mentioned steps.now made.functions) }
{
    let mut functions = IndexMap::new(alloc);
    for one in steps {
        add_step(alloc, &mut functions, one)?;
    }
    Ok(Calls { functions })
}

impl Calls {
    /// The functions in whose bodies the name occurs.
    pub(crate) fn at(&self, alloc: Global, name: &Name) -> Result<&[Name], Memory>
        ensures { (steps : List order.Step) → IfOk result (λ found. Mentioned steps self.now.functions → texts found.now ≡ mentions steps name.now.bytes) }
    {
        let key = Vec::from_slice(alloc, name.as_slice())?;
        match self.functions.get(&key) {
            Some(names) => Ok(names.as_slice()),
            None => Ok(&[]),
        }
    }
}
