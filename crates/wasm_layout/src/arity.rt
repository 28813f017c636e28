//! How many operands calls take and give.
ghost use Rattle.std.specs.Prelude.{◌≡◌, ◌<◌, ◌≤◌, ◌^◌, IfOk, map};
ghost use Rattle.wasm_layout.specs.Arities.{arity_of, arity_at, count_of, of_types, of_functions};

use mo_num::{Memory, Sequence};
use std::alloc::Global;
use wasm_tree::{FunctionType, ImportKind, Module};

/// How many parameters a function has, and whether it has a result.
#[derive(Clone, Copy, Debug, PartialEq, Eq)]
pub struct Arity {
    pub params: usize,
    pub result: bool,
}

/// The arities of a module's types and of its functions, by their indices.
#[derive(Drop)]
pub struct Arities {
    pub types: Sequence<Arity>,
    pub functions: Sequence<Arity>,
}

/// How many results there are.
pub fn count(one: bool) -> usize
    ensures value { result ≡ count_of one }
    ensures few { result ≤ 1 }
{
    if one { 1 } else { 0 }
}

fn type_arity(signature: &FunctionType) -> Arity
    ensures value { result ≡ arity_of signature.now }
    ensures fits { result.params < 2 ^ 63 }
{
    Arity {
        params: signature.params.as_slice().len(),
        result: signature.results.len() > 0,
    }
}

/// The arity of the type with this index.
pub fn signature_arity(types: &[FunctionType], index: u32) -> Arity
    ensures value { result ≡ arity_at (map arity_of types.now) index }
    ensures fits { result.params < 2 ^ 63 }
{
    match types.get(index as usize) {
        Some(signature) => type_arity(signature),
        None => Arity {
            params: 0,
            result: false,
        },
    }
}

/// The arity with this index.
pub fn arity_at(arities: &[Arity], index: u32) -> Arity
    ensures { result ≡ arity_at arities.now index }
{
    match arities.get(index as usize) {
        Some(arity) => *arity,
        None => Arity {
            params: 0,
            result: false,
        },
    }
}

fn type_arities(alloc: Global, types: &[FunctionType]) -> Result<Sequence<Arity>, Memory>
    ensures { IfOk result (λ arities. arities ≡ map arity_of types.now) }
{
    let mut arities = Vec::with_capacity(alloc, types.len())?;
    for signature in types {
        arities.push(type_arity(signature))?;
    }
    Ok(Sequence::from_vec(arities))
}

fn function_arities(
    alloc: Global,
    types: &[Arity],
    module: &Module,
) -> Result<Sequence<Arity>, Memory>
    ensures { IfOk result (λ arities. arities ≡ of_functions types.now «module».now) }
{
    let mut arities = Vec::new(alloc);
    for import in module.imports.as_slice() {
        if let ImportKind::Function(signature) = import.kind {
            arities.push(arity_at(types, signature))?;
        }
    }
    for function in module.functions.as_slice() {
        arities.push(arity_at(types, function.signature))?;
    }
    Ok(Sequence::from_vec(arities))
}

/// The arities of all types and functions.
pub fn module_arities(alloc: Global, module: &Module) -> Result<Arities, Memory>
    ensures { IfOk result (λ arities. (arities.types ≡ of_types «module».now)
        × (arities.functions ≡ of_functions arities.types «module».now)) }
{
    let types = type_arities(alloc, module.types.as_slice())?;
    let functions = function_arities(alloc, types.as_slice(), module)?;
    Ok(Arities { types, functions })
}
