//! What names mean at a place.
ghost use Rattle.std.specs.Prelude.{◌≡◌, ◌++◌, ◌∷◌, [], take, OnOk, IfOk, List, ℕ, length};
ghost use Rattle.mo_name_table.specs.Places.{texts};
ghost use Rattle.mo_scopes.specs.Scopes.{value_meaning, type_meaning, loop_meaning, member_meaning, member_fault, module_of, with_values, with_types, with_loop, without_loops};

use crate::library::{Library, built_in_type, member_of};
use crate::meaning::Meaning;
use mo_name_table::{NameTable, Names};
use mo_num::{Memory, Sequence};
use mo_syntax::Name;
use std::alloc::Global;

/// What has a meaning at a place: values, modules, types and labels of loops.
#[derive(Drop)]
pub struct Scope {
    pub values: NameTable,
    pub imports: NameTable,
    /// What each import brings in, where its path names a module.
    pub libraries: Sequence<Option<Library>>,
    pub types: NameTable,
    pub loops: NameTable,
}

impl Scope {
    /// The module that the last import of this name brings in.
    fn module_of(&self, name: &Name) -> Option<Library>
        ensures { result ≡ module_of self.now name.now.bytes }
    {
        let place = self.imports.find(name)?;
        match self.libraries.as_slice().get(place) {
            Some(library) => *library,
            None => None,
        }
    }

    /// The innermost value of this name.
    pub fn value_meaning(&self, name: &Name) -> Option<Meaning>
        ensures { result ≡ value_meaning self.now name.now.bytes }
    {
        self.values.find(name).map(|level| Meaning::Value(level))
    }

    /// What `module_name.member` means: the value, or else the member of the module.
    pub fn member_meaning(&self, module_name: &Name, member: &Name) -> Option<Meaning>
        ensures { result ≡ member_meaning self.now module_name.now.bytes member.now.bytes }
    {
        if let Some(level) = self.values.find(module_name) {
            return Some(Meaning::Value(level));
        }
        let library = self.module_of(module_name)?;
        let member = member_of(library, member.as_slice())?;
        Some(Meaning::Member(member))
    }

    /// Which name of `module_name.member` is at fault where it means nothing: the member, if there is such a module.
    pub fn member_fault<'a>(&self, module_name: &'a Name, member: &'a Name) -> &'a Name
        ensures { result.now ≡ member_fault self.now module_name.now member.now }
    {
        match self.module_of(module_name) {
            Some(_) => member,
            None => module_name,
        }
    }

    /// The innermost declared type of this name, or else the built-in one.
    pub fn type_meaning(&self, name: &Name) -> Option<Meaning>
        ensures { result ≡ type_meaning self.now name.now.bytes }
    {
        if let Some(level) = self.types.find(name) {
            return Some(Meaning::Type(level));
        }
        let built_in = built_in_type(name.as_slice())?;
        Some(Meaning::BuiltIn(built_in))
    }

    /// The innermost loop of this name.
    pub fn loop_meaning(&self, name: &Name) -> Option<Meaning>
        ensures { result ≡ loop_meaning self.now name.now.bytes }
    {
        self.loops.find(name).map(|level| Meaning::Loop(level))
    }

    pub fn add_values(&mut self, names: Names) -> Result<(), Memory>
        ensures { OnOk result (self.new ≡ with_values names self.old) }
    {
        self.values.append(names)
    }

    pub fn add_types(&mut self, names: Names) -> Result<(), Memory>
        ensures { OnOk result (self.new ≡ with_types names self.old) }
    {
        self.types.append(names)
    }

    pub fn add_loop(&mut self, name: Name) -> Result<(), Memory>
        ensures { OnOk result (self.new ≡ with_loop name.bytes self.old) }
    {
        self.loops.push(name)
    }

    /// Takes the labels of loops away, and gives them.
    pub fn hide_loops(&mut self, alloc: Global) -> NameTable
        ensures scope { self.new ≡ without_loops self.old }
        ensures loops { result ≡ self.old.loops }
    {
        std::mem::replace(&mut self.loops, NameTable::new(alloc))
    }

    /// Forgets the values and types that were added since there were so many, and the loops.
    pub fn leave(&mut self, values: usize, types: usize, loops: NameTable)
        ensures { self.new ≡ record { values = take values self.old.values; imports = self.old.imports; libraries = self.old.libraries; types = take types self.old.types; loops = loops } }
    {
        self.values.truncate(values);
        self.types.truncate(types);
        self.loops = loops;
    }

    /// Forgets the values that were added since there were so many.
    pub fn forget_values(&mut self, values: usize)
        ensures { self.new ≡ record self.old { values = take values self.old.values } }
    {
        self.values.truncate(values);
    }

    /// Forgets the types that were added since there were so many.
    pub fn forget_types(&mut self, types: usize)
        ensures { self.new ≡ record self.old { types = take types self.old.types } }
    {
        self.types.truncate(types);
    }

    /// Forgets the loops that were added since there were so many.
    pub fn forget_loops(&mut self, loops: usize)
        ensures { self.new ≡ record self.old { loops = take loops self.old.loops } }
    {
        self.loops.truncate(loops);
    }
}
