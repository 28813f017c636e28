//! The abstract syntax of a pattern, and of parameters and signatures. `at` is the number of a token, and what is asked for stands
//! so many tokens behind it.
ghost use Rattle.std.specs.Prelude.{◌≡◌, ◌+◌, IfOk, None, Some, map};
ghost use Rattle.mo_syntax.specs.declared.patterns.Pattern.TheOpen as written;
ghost use Rattle.typing_rules.specs.AbstractPatterns.{in_parameters, in_pattern, in_pattern_field, pattern_step};
ghost use Rattle.typing_rules.specs.AbstractExpressions.{signature_span};
ghost use Rattle.abstract_types.specs.PatternView.{plain, plain_signature};
ghost use Rattle.abstract_type_walk.specs.Stands.{Stands};
ghost use Rattle.abstract_pattern_walk.specs.PatternWalks.{ArePatterns};

use crate::pattern_walk::{PatternWalk, only_variable};
use abstract_type_walk::{abstract_annotation, abstract_generics, abstract_type};
use abstract_types::{Pattern, Signature, count_if, number_behind};
use mo_num::Memory;
use mo_syntax::{
    Items, Node, Parameters, Pattern as WrittenPattern, PatternField as WrittenField,
    TypeExpression, TypeParameter as WrittenParameter,
};
use std::alloc::Global;

// That of a pattern of at most so many levels. A pattern of more levels than there are addresses is none that memory holds.
fn pattern_within(
    alloc: Global,
    depth: usize,
    q: &WrittenPattern,
    at: u32,
) -> Result<(Pattern<u32>, u32), Memory>
    ensures { IfOk result (Stands plain (in_pattern q.now) at) }
{
    if depth == 0 {
        return Err(Memory);
    }
    let walk = PatternWalk {
        alloc,
        depth: depth - 1,
        patterns: pattern_within,
    };
    walk.layer(q, at)
}

/// The abstract syntax of the pattern, and the number of the token behind it. The recursion is as deep as the pattern.
pub fn abstract_pattern(
    alloc: Global,
    q: &WrittenPattern,
    at: u32,
    tokens: u32,
) -> Result<(Pattern<u32>, u32), Memory>
    ensures { IfOk result (Stands plain (in_pattern q.now) (at + tokens)) }
{
    pattern_within(alloc, usize::MAX, q, number_behind(at, tokens)?)
}

/// The same of a pattern of these fields, with a last `;` or not, where its first token has this number.
pub fn abstract_object_pattern(
    alloc: Global,
    fields: &Items<Node<WrittenField>>,
    last: bool,
    at: u32,
) -> Result<(Pattern<u32>, u32), Memory>
    ensures { IfOk result (Stands plain (pattern_step (written.Object (map in_pattern_field fields.now) last)) at) }
{
    let walk = PatternWalk {
        alloc,
        depth: usize::MAX,
        patterns: pattern_within,
    };
    walk.object(fields, last, at)
}

/// The same of the parameters of a function or class, where their first token has this number.
pub fn abstract_parameters(
    alloc: Global,
    parameters: &Parameters,
    at: u32,
) -> Result<(Items<Pattern<u32>>, u32), Memory>
    ensures { IfOk result (ArePatterns (in_parameters parameters.now) at) }
{
    match parameters {
        Parameters::List(patterns) => {
            let walk = PatternWalk {
                alloc,
                depth: usize::MAX,
                patterns: pattern_within,
            };
            let (made, close) = walk.each(patterns.as_slice(), at, 1)?;
            Ok((made, number_behind(close, 1)?))
        }
        Parameters::Single(name) => Ok((only_variable(alloc, name, at)?, number_behind(at, 1)?)),
    }
}

/// The same of what stands before the body of a function: `<T>(p) : A =`, of which all but the parameters may be missing.
pub fn abstract_signature(
    alloc: Global,
    generics: &Option<Items<WrittenParameter>>,
    parameters: &Parameters,
    annotation: &Option<Node<TypeExpression>>,
    equal_sign: bool,
    at: u32,
) -> Result<(Signature<u32>, u32), Memory>
    ensures { IfOk result (Stands plain_signature (signature_span generics.now parameters.now annotation.now equal_sign) at) }
{
    let (generics, open) = abstract_generics(alloc, generics, at)?;
    let (parameters, colon) = abstract_parameters(alloc, parameters, open)?;
    let (annotation, end) = abstract_annotation(alloc, annotation, colon, 0)?;
    let signature = Signature {
        generics,
        parameters,
        result: annotation,
    };
    Ok((signature, number_behind(end, count_if(equal_sign))?))
}

/// The same of what stands before the body of a public function: `(p) : A =`.
pub fn abstract_public_signature(
    alloc: Global,
    parameters: &Parameters,
    annotation: &Node<TypeExpression>,
    equal_sign: bool,
    at: u32,
) -> Result<(Signature<u32>, u32), Memory>
    ensures { IfOk result (Stands plain_signature (signature_span None parameters.now (Some annotation.now) equal_sign) at) }
{
    let (parameters, colon) = abstract_parameters(alloc, parameters, at)?;
    let (made, end) = abstract_type(alloc, annotation.get(), colon, 1)?;
    let signature = Signature {
        generics: Items::new(alloc),
        parameters,
        result: Some(made),
    };
    Ok((signature, number_behind(end, count_if(equal_sign))?))
}
