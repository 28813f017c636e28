//! A graph of types as they are written: `type A = ?(Nat, A); type B = { var x : B }`.
//!
//! A name means what the definitions say, or else the built-in type. Of `func f<T, U <: T>() {}` the type parameters are
//! types too, with the numbers 0, 1, and so on in the order of all; without a bound one has the bound Any. A name alone
//! is no definition. A type in a function's parentheses is one of its parameters, so that `((A, B)) -> C` has one; the
//! result of a shared function is `async`.
use crate::built_in::built_in;
use crate::parts::{has_bare_tag, node_of, parts_of};
use crate::type_text::{declaration_in, function_in, program_of, program_of_types};
use mo_num::{Bytes, Sequence};
use mo_syntax::{Declaration, Name, TypeExpression, TypeParameter};
use mo_types::{Node, TypeGraph, TypeId, TypesFault};
use probe_base::Stop;
use std::alloc::Global;

/// How deep types may lie in each other. The parser admits no more than 400 levels.
const MOST_LEVELS: usize = 500;

#[derive(Drop)]
struct Named {
    name: Bytes,
    id: TypeId,
}

/// A graph, and the types in it that have names.
#[derive(Drop)]
pub(crate) struct Types {
    alloc: Global,
    pub graph: TypeGraph,
    names: Sequence<Named>,
    parameters: u32,
}

// A command has no answer where the graph is full.
fn refused(fault: TypesFault) -> Stop {
    match fault {
        TypesFault::TooManyTypes => Stop::Usage,
        TypesFault::Memory => Stop::Memory,
    }
}

impl Types {
    /// No types.
    pub(crate) fn empty(alloc: Global) -> Types {
        Types {
            alloc,
            graph: TypeGraph::new(alloc),
            names: Sequence::new(alloc),
            parameters: 0,
        }
    }

    /// The types of definitions.
    pub(crate) fn new(alloc: Global, definitions: &[u8]) -> Result<Types, Stop> {
        let mut types = Types::empty(alloc);
        let program = program_of(alloc, definitions)?;
        for field in program.actor.get().fields.as_slice() {
            types.declare(declaration_in(field.get())?)?;
        }
        for field in program.actor.get().fields.as_slice() {
            types.define(declaration_in(field.get())?)?;
        }
        Ok(types)
    }

    /// The types of a list, as `Nat, ?A`.
    pub(crate) fn list(&mut self, written: &[u8]) -> Result<Sequence<TypeId>, Stop> {
        let program = program_of_types(self.alloc, written)?;
        self.add_parts(MOST_LEVELS, function_in(&program)?)
    }

    /// The type.
    pub(crate) fn one(&mut self, written: &[u8]) -> Result<TypeId, Stop> {
        match self.list(written)?.as_slice() {
            [id] => Ok(*id),
            _ => Err(Stop::Usage),
        }
    }

    /// The head of the type, whose parts are put into the graph.
    pub(crate) fn head(&mut self, written: &[u8]) -> Result<Node, Stop> {
        let program = program_of_types(self.alloc, written)?;
        match parts_of(self.alloc, function_in(&program)?)?.as_slice() {
            [part] => self.node(part),
            _ => Err(Stop::Usage),
        }
    }

    // Gives names to what a declaration declares.
    fn declare(&mut self, declaration: &Declaration) -> Result<(), Stop> {
        match declaration {
            Declaration::TypeAlias(name, None, _) => {
                let id = self.graph.fresh().map_err(refused)?;
                self.put_name(name, id)
            }
            Declaration::Func(_, Some(parameters), _, _, _, _) => {
                for parameter in parameters.as_slice() {
                    self.declare_parameter(parameter)?;
                }
                Ok(())
            }
            _ => Err(Stop::Usage),
        }
    }

    fn declare_parameter(&mut self, parameter: &TypeParameter) -> Result<(), Stop> {
        let bound = match &parameter.bound {
            Some(bound) => self.add(MOST_LEVELS, bound.get())?,
            None => self.intern(Node::Any)?,
        };
        let number = self.parameters;
        self.parameters = number.checked_add(1).ok_or(Stop::Usage)?;
        let id = self.intern(Node::Variable(number, bound))?;
        self.put_name(&parameter.name, id)
    }

    fn put_name(&mut self, name: &Name, id: TypeId) -> Result<(), Stop> {
        let name = Bytes::from_slice(self.alloc, name.as_slice())?;
        self.names.push(Named { name, id })?;
        Ok(())
    }

    fn define(&mut self, declaration: &Declaration) -> Result<(), Stop> {
        match declaration {
            Declaration::TypeAlias(name, None, written) => {
                let node = self.node(written.get())?;
                let id = self.named(name).ok_or(Stop::Usage)?;
                define(&mut self.graph, id, node)
            }
            _ => Ok(()),
        }
    }

    fn named(&self, name: &Name) -> Option<TypeId> {
        for named in self.names.as_slice() {
            if named.name.as_slice() == name.as_slice() {
                return Some(named.id);
            }
        }
        None
    }

    fn intern(&mut self, node: Node) -> Result<TypeId, Stop> {
        self.graph.intern(node).map_err(refused)
    }

    fn node(&mut self, written: &TypeExpression) -> Result<Node, Stop> {
        let parts = self.add_parts(MOST_LEVELS, written)?;
        self.node_with_parts(written, parts.as_slice())
    }

    // The type, with types in it of fewer than so many levels.
    #[cycle(parts)]
    fn add(&mut self, levels: usize, written: &TypeExpression) -> Result<TypeId, Stop> {
        if levels == 0 {
            return Err(Stop::Usage);
        }
        let parts = self.add_parts(levels - 1, written)?;
        self.with_parts(written, parts.as_slice())
    }

    // The types of the parts.
    #[cycle(parts)]
    fn add_parts(
        &mut self,
        levels: usize,
        written: &TypeExpression,
    ) -> Result<Sequence<TypeId>, Stop> {
        let mut ids = Sequence::new(self.alloc);
        for part in parts_of(self.alloc, written)?.as_slice() {
            ids.push(self.add(levels, part)?)?;
        }
        Ok(ids)
    }

    // The type, by the types of its parts.
    fn with_parts(&mut self, written: &TypeExpression, parts: &[TypeId]) -> Result<TypeId, Stop> {
        match (written, parts) {
            (TypeExpression::Parenthesized(_), [part]) => Ok(*part),
            (TypeExpression::Named(name, None), _) => match self.named(name) {
                Some(id) => Ok(id),
                None => self.intern(built_in(name.as_slice()).ok_or(Stop::Usage)?),
            },
            _ => {
                let node = self.node_with_parts(written, parts)?;
                self.intern(node)
            }
        }
    }

    fn node_with_parts(
        &mut self,
        written: &TypeExpression,
        parts: &[TypeId],
    ) -> Result<Node, Stop> {
        let unit = if has_bare_tag(written) {
            Some(self.intern(Node::Tuple(Sequence::new(self.alloc)))?)
        } else {
            None
        };
        node_of(self.alloc, written, parts, unit)
    }
}

fn define(graph: &mut TypeGraph, id: TypeId, node: Node) -> Result<(), Stop> {
    if graph.is_open(id) {
        graph.define(id, node).map_err(refused)
    } else {
        Err(Stop::Usage)
    }
}

/// The types of a list, by definitions.
pub(crate) fn types_of(
    alloc: Global,
    definitions: &Bytes,
    written: &Bytes,
) -> Result<(Types, Sequence<TypeId>), Stop> {
    let mut types = Types::new(alloc, definitions.as_slice())?;
    let ids = types.list(written.as_slice())?;
    Ok((types, ids))
}
