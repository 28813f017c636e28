//! The functions of a list by the names that occur in them.
ghost use Rattle.std.specs.Prelude.{◌≡◌, ◌++◌, ◌∷◌, [], OnOk, IfOk, List, ℕ, cond, length};
ghost use Rattle.std.specs.Global.{Vec};
ghost use Rattle.std.specs.Str.{bytes_eq};
ghost use Rattle.typed_tree.specs.Placing.{Declared};
ghost use Rattle.kernel_places.specs.Using.{once_each, Used, uses_below, uses_in, users_at};

use crate::step::Step;
use indexmap::IndexMap;
use mo_num::{Bytes, Memory, Sequence};
use std::alloc::Global;

/// For each name the functions in which it occurs, by their indexes in the list.
pub(crate) struct Users {
    functions: IndexMap<Vec<u8>, Sequence<usize>>,
}

impl Drop for Users {
    fn drop(self) {
        let Users {
            functions: _functions,
        } = self;
    }
}

/// Takes the functions at a name away, and gives them.
fn take(
    alloc: Global,
    functions: &mut IndexMap<Vec<u8>, Sequence<usize>>,
    key: &Vec<u8>,
) -> Sequence<usize>
    ensures taken { result ≡ users_at functions.old key.now }
    ensures others { (q : Vec ℕ) → users_at functions.new q ≡ cond (bytes_eq key.now.items q.items) [] (users_at functions.old q) }
{
    match functions.swap_remove(key) {
        Some(places) => places,
        None => Sequence::new(alloc),
    }
}

/// Puts the functions at a name.
fn put(
    functions: &mut IndexMap<Vec<u8>, Sequence<usize>>,
    key: Vec<u8>,
    places: Sequence<usize>,
) -> Result<(), Memory>
    ensures { (q : Vec ℕ) → OnOk result (users_at functions.new q ≡ cond (bytes_eq key.items q.items) places (users_at functions.old q)) }
{
    functions.insert(key, places)?;
    Ok(())
}

/// Adds a function at a name.
fn add(
    alloc: Global,
    functions: &mut IndexMap<Vec<u8>, Sequence<usize>>,
    name: &Bytes,
    index: usize,
) -> Result<(), Memory>
    ensures { (q : Vec ℕ) → OnOk result (users_at functions.new q ≡ users_at functions.old q ++ cond (bytes_eq name.now q.items) (index ∷ []) []) }
{
    let key = Vec::from_slice(alloc, name.as_slice())?;
    let mut places = take(alloc, functions, &key);
    places.push(index)?;
    put(functions, key, places)
}

/// Adds a function at each of these names.
fn add_each(
    alloc: Global,
    functions: &mut IndexMap<Vec<u8>, Sequence<usize>>,
    names: &[Bytes],
    index: usize,
) -> Result<(), Memory>
    ensures { (q : Vec ℕ) → OnOk result (users_at functions.new q ≡ users_at functions.old q ++ once_each index names.now q.items) }
{
    for name in names {
        add(alloc, functions, name, index)?;
    }
    Ok(())
}

/// Adds the declaration at this index, if it is a function, at each name that occurs in it.
fn add_step(
    alloc: Global,
    functions: &mut IndexMap<Vec<u8>, Sequence<usize>>,
    step: &Step,
    index: usize,
) -> Result<(), Memory>
    ensures { (q : Vec ℕ) → OnOk result (users_at functions.new q ≡ users_at functions.old q ++ uses_in index step.now q.items) }
{
    match step.function() {
        None => Ok(()),
        Some(_) => add_each(alloc, functions, step.occurs(), index),
    }
}

fn add_steps(
    alloc: Global,
    functions: &mut IndexMap<Vec<u8>, Sequence<usize>>,
    steps: &[Step],
) -> Result<(), Memory>
    ensures { (q : Vec ℕ) → OnOk result (users_at functions.old q ≡ [] → users_at functions.new q ≡ uses_below (length steps.now) steps.now q.items) }
{
    for index in 0..steps.len() {
        add_step(alloc, functions, &steps[index], index)?;
    }
    Ok(())
}

/// The functions of a list by the names that occur in them.
pub(crate) fn users_of(alloc: Global, steps: &[Step]) -> Result<Users, Memory>
    ensures { IfOk result (λ made. Used steps.now made.functions) }
{
    let mut functions = IndexMap::new(alloc);
    add_steps(alloc, &mut functions, steps)?;
    Ok(Users { functions })
}

impl Users {
    /// The functions in which the name occurs.
    pub(crate) fn at(&self, alloc: Global, name: &Bytes) -> Result<&[usize], Memory>
        ensures { (steps : List Declared) → IfOk result (λ found. Used steps self.now.functions → found.now ≡ uses_below (length steps) steps name.now) }
    {
        let key = Vec::from_slice(alloc, name.as_slice())?;
        match self.functions.get(&key) {
            Some(places) => Ok(places.as_slice()),
            None => Ok(&[]),
        }
    }
}
