//! The public functions of an actor.

ghost use Rattle.mo_parser_base.specs.Input.{Reads};
ghost use Rattle.mo_parser_programs.specs.Programs as spec;
ghost use Rattle.std.specs.Prelude.{◌≡◌};

use mo_parser_base::{Cursor, Look, Stop};
use mo_parser_expressions::read_body;
use mo_parser_patterns::{read_parameters, read_pattern, read_pattern_fields};
use mo_parser_types::read_type;
use mo_syntax::{
    Context, Expression, Mark, Name, Node, Parameters, SharedFunction, SharedPrefix, SharedSort,
    TypeExpression, Word,
};
use std::alloc::Global;

/// A name, parameters, a result type, and whether a `=` follows.
type Heading = (Name, (Parameters, (Node<TypeExpression>, bool)));

fn sort_of(query: bool) -> SharedSort
    ensures { result ≡ spec.sort_of query }
{
    if query {
        SharedSort::SharedQuery
    } else {
        SharedSort::Shared
    }
}

#[tactic(auto, unfolding(mo_parser_programs::specs::Programs::a_context))]
fn a_context(alloc: Global, tokens: &mut Cursor<'_>) -> Result<Option<Context>, Stop>
    ensures { Reads (spec.a_context tokens.old) result tokens.new }
{
    match tokens.peek() {
        Look::Mark(Mark::ParenOpen) => {
            tokens.skip();
            let pattern = read_pattern(alloc, tokens)?;
            tokens.expect_mark(Mark::ParenClose)?;
            Ok(Some(Context::Parenthesized(pattern)))
        }
        Look::Mark(Mark::BraceOpen) => {
            tokens.skip();
            let (fields, last) = read_pattern_fields(alloc, tokens)?;
            Ok(Some(Context::Object(fields, last)))
        }
        _ => Ok(None),
    }
}

#[tactic(auto, unfolding(mo_parser_programs::specs::Programs::shared_prefix))]
fn shared_prefix(alloc: Global, tokens: &mut Cursor<'_>) -> Result<SharedPrefix, Stop>
    ensures { Reads (spec.shared_prefix tokens.old) result tokens.new }
{
    let query = tokens.eat_word(Word::Query);
    let context = a_context(alloc, tokens)?;
    Ok(SharedPrefix {
        sort: sort_of(query),
        context,
    })
}

#[tactic(auto, unfolding(mo_parser_programs::specs::Programs::query_prefix))]
fn query_prefix(alloc: Global, tokens: &mut Cursor<'_>) -> Result<SharedPrefix, Stop>
    ensures { Reads (spec.query_prefix tokens.old) result tokens.new }
{
    let context = a_context(alloc, tokens)?;
    Ok(SharedPrefix {
        sort: SharedSort::Query,
        context,
    })
}

#[tactic(auto, unfolding(mo_parser_programs::specs::Programs::a_prefix))]
fn a_prefix(alloc: Global, tokens: &mut Cursor<'_>) -> Result<Option<SharedPrefix>, Stop>
    ensures { Reads (spec.a_prefix tokens.old) result tokens.new }
{
    match tokens.peek() {
        Look::Reserved(Word::Shared) => {
            tokens.skip();
            Ok(Some(shared_prefix(alloc, tokens)?))
        }
        Look::Reserved(Word::Query) => {
            tokens.skip();
            Ok(Some(query_prefix(alloc, tokens)?))
        }
        _ => Ok(None),
    }
}

#[tactic(auto, unfolding(mo_parser_programs::specs::Programs::heading))]
fn heading(alloc: Global, tokens: &mut Cursor<'_>) -> Result<Heading, Stop>
    ensures { Reads (spec.heading tokens.old) result tokens.new }
{
    tokens.expect_word(Word::Func)?;
    let name = tokens.identifier(alloc)?;
    let parameters = read_parameters(alloc, tokens)?;
    tokens.expect_mark(Mark::Colon)?;
    let result = read_type(alloc, tokens)?;
    let equal_sign = tokens.eat_mark(Mark::EqualSign);
    Ok((name, (parameters, (result, equal_sign))))
}

#[tactic(auto, unfolding(mo_parser_programs::specs::Programs::headed))]
fn headed(alloc: Global, tokens: &mut Cursor<'_>) -> Result<(Heading, Node<Expression>), Stop>
    ensures { Reads (spec.headed tokens.old) result tokens.new }
{
    let (name, (parameters, (result, equal_sign))) = heading(alloc, tokens)?;
    let body = read_body(alloc, tokens, equal_sign)?;
    Ok(((name, (parameters, (result, equal_sign))), body))
}

/// A public function, behind `public`.
#[tactic(auto, unfolding(mo_parser_programs::specs::Programs::shared_function))]
pub(crate) fn shared_function(
    alloc: Global,
    tokens: &mut Cursor<'_>,
) -> Result<SharedFunction, Stop>
    ensures { Reads (spec.shared_function tokens.old) result tokens.new }
{
    let prefix = a_prefix(alloc, tokens)?;
    let ((name, (parameters, (result, equal_sign))), body) = headed(alloc, tokens)?;
    Ok(SharedFunction {
        prefix,
        name,
        parameters,
        result,
        equal_sign,
        body,
    })
}
