//! Where the parts of a tree stand in its source: the imports and the actor.
use crate::reading::tree_of;
use mo_syntax::{
    Actor, ActorField, Context, Import, Name, Node, Place, SharedFunction, SharedPrefix, Tree,
};
use probe_base::{Stop, put_text};
use std::alloc::{AllocError, Global};

/// A walk over the tree of a source that adds a line for each part of the tree that has a place: what it is, from which
/// byte on and below which one it stands, and its text. A part stands before those in it, which are in the source's order.
#[derive(Clone, Copy)]
pub(crate) struct Walk<'a> {
    alloc: Global,
    source: &'a [u8],
}

/// The parts of a source's tree.
pub(crate) fn places(alloc: Global, source: &[u8]) -> Result<String, Stop> {
    let tree = match tree_of(alloc, source)? {
        Ok(tree) => tree,
        Err(line) => return Ok(line),
    };
    let mut out = String::new(alloc);
    let walk = Walk { alloc, source };
    walk.tree(&tree, &mut out)?;
    Ok(out)
}

impl Walk<'_> {
    pub(crate) fn put(self, kind: &str, place: Place, out: &mut String) -> Result<(), AllocError> {
        let start = place.start;
        let end = place.end;
        out.push_str(format!(in self.alloc; "{kind} {start} {end} ")?.as_str())?;
        if let Some(text) = self.source.get(start as usize..end as usize) {
            put_text(self.alloc, out, text)?;
        }
        out.push('\n')
    }

    pub(crate) fn name(self, name: &Name, out: &mut String) -> Result<(), AllocError> {
        self.put("Name", name.place(), out)
    }

    fn tree(self, tree: &Tree, out: &mut String) -> Result<(), AllocError> {
        for import in tree.imports.as_slice() {
            self.import(import, out)?;
        }
        self.put("Actor", tree.actor.place(), out)?;
        self.actor(tree.actor.get(), out)
    }

    fn import(self, import: &Node<Import>, out: &mut String) -> Result<(), AllocError> {
        self.put("Import", import.place(), out)?;
        self.name(&import.get().name, out)?;
        self.put("Path", import.get().path.place(), out)
    }

    fn actor(self, actor: &Actor, out: &mut String) -> Result<(), AllocError> {
        if let Some(name) = &actor.name {
            self.name(name, out)?;
        }
        for field in actor.fields.as_slice() {
            self.put("ActorField", field.place(), out)?;
            self.actor_field(field.get(), out)?;
        }
        Ok(())
    }

    fn actor_field(self, field: &ActorField, out: &mut String) -> Result<(), AllocError> {
        match field {
            ActorField::Public(function) => {
                self.put("SharedFunction", function.place(), out)?;
                self.shared_function(function.get(), out)
            }
            ActorField::System(name, _, body) => {
                self.name(name, out)?;
                self.expression(body.place(), body.get(), out)
            }
            ActorField::Declared(_, declaration) => {
                self.declaration(declaration.place(), declaration.get(), out)
            }
            ActorField::Stable(_, name, annotation, value) => {
                self.name(name, out)?;
                self.annotation(annotation, out)?;
                self.expression(value.place(), value.get(), out)
            }
        }
    }

    fn shared_function(
        self,
        function: &SharedFunction,
        out: &mut String,
    ) -> Result<(), AllocError> {
        if let Some(prefix) = &function.prefix {
            self.prefix(prefix, out)?;
        }
        self.name(&function.name, out)?;
        self.parameters(&function.parameters, out)?;
        self.type_expression(function.result.place(), function.result.get(), out)?;
        self.expression(function.body.place(), function.body.get(), out)
    }

    fn prefix(self, prefix: &SharedPrefix, out: &mut String) -> Result<(), AllocError> {
        match &prefix.context {
            None => Ok(()),
            Some(Context::Parenthesized(p)) => self.pattern(p.place(), p.get(), out),
            Some(Context::Object(fields, _)) => self.pattern_fields(fields.as_slice(), out),
        }
    }
}
