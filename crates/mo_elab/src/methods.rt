//! Methods and stable variables, as they are known outside.
ghost use Rattle.std.specs.Prelude.{◌≡◌, map, reverse, IfOk};
ghost use Rattle.core_ir.specs.ProgramView as core;
ghost use Rattle.core_ir.specs.View.{core_body};
ghost use Rattle.typed_tree.specs.ProgramView as source;
ghost use Rattle.elaboration.specs.Programs as programs;
ghost use Rattle.mo_elab.specs.Serving.{Takes};

use core_forms::{bytes_again, types_again};
use core_ir::{CoreBody, Method, Shared, Signature, StableVariable};
use core_layers::unit;
use mo_num::{Bytes, Memory, Sequence};
use mo_types::{Sort, TypeId};
use std::alloc::Global;

// Whether a shared function of this sort is a query.
fn is_query_sort(sort: Sort) -> bool
    ensures { result ≡ source.is_query sort }
{
    match sort {
        Sort::Query => true,
        Sort::Local | Sort::Shared => false,
    }
}

// A method with these parts.
fn method_with(
    alloc: Global,
    name: Bytes,
    query: bool,
    parameters: Sequence<TypeId>,
    results: Sequence<TypeId>,
    body: CoreBody,
) -> Result<Method<CoreBody>, Memory>
    ensures { IfOk result (λ made. core.method (λ functions sees. core_body) made ≡ record { name = name; query = query; signature = record { parameters = parameters; results = results }; body = core_body body }) }
{
    let signature = Signature {
        parameters,
        results,
    };
    Ok(Method {
        name: Shared::new(alloc, name)?,
        query,
        signature: Shared::new(alloc, signature)?,
        body,
    })
}

// The method with its body.
fn method_of(
    alloc: Global,
    method: &typed_tree::Method,
    body: CoreBody,
) -> Result<Method<CoreBody>, Memory>
    ensures { IfOk result (λ made. core.method (λ functions sees. core_body) made ≡ programs.method_of (source.method method.now) (core_body body)) }
{
    let name = bytes_again(alloc, &method.name)?;
    let parameters = types_again(alloc, &method.parameters)?;
    let results = types_again(alloc, &method.results)?;
    method_with(
        alloc,
        name,
        is_query_sort(method.function.sort),
        parameters,
        results,
        body,
    )
}

// The body of `public func __resume() : async () {}`.
fn resume_body(alloc: Global) -> Result<CoreBody, Memory>
    ensures { IfOk result (λ made. core_body made ≡ programs.resume_body) }
{
    Ok(CoreBody {
        parameters: 1,
        nodes: 0,
        expression: unit(alloc)?,
    })
}

// The method `__resume`, which every actor has.
fn resume_method(alloc: Global) -> Result<Method<CoreBody>, Memory>
    ensures { IfOk result (λ made. core.method (λ functions sees. core_body) made ≡ programs.resume_method) }
{
    let name = Bytes::from_slice(alloc, b"__resume")?;
    let body = resume_body(alloc)?;
    method_with(
        alloc,
        name,
        false,
        Sequence::new(alloc),
        Sequence::new(alloc),
        body,
    )
}

// The last one of these bodies. There are as many as methods.
fn next_body(alloc: Global, rest: &mut Vec<CoreBody>) -> Result<CoreBody, Memory>
    ensures { IfOk result (λ made. Takes (map core_body (reverse rest.old.items)) made (map core_body (reverse rest.new.items))) }
{
    match rest.pop() {
        Some(body) => Ok(body),
        None => resume_body(alloc),
    }
}

/// The methods with their bodies, of which there are as many, and `__resume` behind them.
pub(crate) fn methods_of(
    alloc: Global,
    methods: &[typed_tree::Method],
    bodies: Sequence<CoreBody>,
) -> Result<Sequence<Method<CoreBody>>, Memory>
    ensures { IfOk result (λ made. map (core.method (λ functions sees. core_body)) made ≡ programs.methods_of (map source.method methods.now) (map core_body bodies)) }
{
    let mut rest = bodies.into_vec();
    rest.reverse();
    let mut made = Sequence::new(alloc);
    for method in methods {
        let body = next_body(alloc, &mut rest)?;
        let with = method_of(alloc, method, body)?;
        made.push(with)?;
    }
    let resume = resume_method(alloc)?;
    made.push(resume)?;
    Ok(made)
}

// The stable variable.
fn variable_of(
    alloc: Global,
    variable: &typed_tree::StableVariable,
) -> Result<StableVariable, Memory>
    ensures { IfOk result (λ made. core.stable_variable made ≡ programs.variable_of (source.stable_variable variable.now)) }
{
    Ok(StableVariable {
        name: bytes_again(alloc, &variable.name)?,
        of_type: variable.of_type,
    })
}

/// The stable variables.
pub(crate) fn variables_of(
    alloc: Global,
    variables: &[typed_tree::StableVariable],
) -> Result<Sequence<StableVariable>, Memory>
    ensures { IfOk result (λ made. map core.stable_variable made ≡ map programs.variable_of (map source.stable_variable variables.now)) }
{
    let mut made = Sequence::new(alloc);
    for variable in variables {
        let known = variable_of(alloc, variable)?;
        made.push(known)?;
    }
    Ok(made)
}
