//! Types and definitions, read as parts of a program.
use mo_lexer::{LexFault, lex};
use mo_num::Bytes;
use mo_parser::{ParseFault, parse};
use mo_syntax::{ActorField, Declaration, Tokens, Tree, TypeExpression};
use probe_base::Stop;
use std::alloc::Global;

fn tokens_of(alloc: Global, source: &[u8]) -> Result<Tokens, Stop> {
    match lex(alloc, source) {
        Ok(tokens) => Ok(tokens),
        Err(LexFault::Memory) => Err(Stop::Memory),
        Err(_) => Err(Stop::Usage),
    }
}

fn tree_of(alloc: Global, source: &[u8]) -> Result<Tree, Stop> {
    let tokens = tokens_of(alloc, source)?;
    match parse(alloc, tokens.as_slice()) {
        Ok(tree) => Ok(tree),
        Err(ParseFault::Memory) => Err(Stop::Memory),
        Err(_) => Err(Stop::Usage),
    }
}

/// A program whose actor has these declarations.
pub(crate) fn program_of(alloc: Global, declarations: &[u8]) -> Result<Tree, Stop> {
    let mut source = Bytes::from_slice(alloc, b"actor { ")?;
    source.extend(declarations)?;
    source.extend(b" }")?;
    tree_of(alloc, source.as_slice())
}

/// A program that mentions a list of types as the parameters of a function.
pub(crate) fn program_of_types(alloc: Global, types: &[u8]) -> Result<Tree, Stop> {
    let mut source = Bytes::from_slice(alloc, b"var f : (")?;
    source.extend(types)?;
    source.extend(b") -> () = 0")?;
    program_of(alloc, source.as_slice())
}

/// The declaration of a field of an actor.
pub(crate) fn declaration_in(field: &ActorField) -> Result<&Declaration, Stop> {
    match field {
        ActorField::Declared(_, declaration) => Ok(declaration.get()),
        _ => Err(Stop::Usage),
    }
}

// The type of the variable of a field.
fn annotation_in(field: &ActorField) -> Result<&TypeExpression, Stop> {
    match declaration_in(field)? {
        Declaration::Var(_, Some(annotation), _) => Ok(annotation.get()),
        _ => Err(Stop::Usage),
    }
}

/// The function whose parameters are the types that the program mentions.
pub(crate) fn function_in(program: &Tree) -> Result<&TypeExpression, Stop> {
    match program.actor.get().fields.as_slice() {
        [field] => annotation_in(field.get()),
        _ => Err(Stop::Usage),
    }
}
