//! The names of types in scope.
ghost use Rattle.std.specs.Prelude.{◌≡◌, ◌++◌, ◌∷◌, ◌-◌, ◌≤◌, [], length, option_map, OnOk, OnErr};
ghost use Rattle.typing_rules.specs.TypeScopes.{type_named, with_definition, with_parameter};
ghost use Rattle.type_scopes.specs.Scopes.{cut, named, outer_of, seen, seen_name, with};
ghost use Rattle.type_scopes.specs.declared.scope.Declared.TheVariants as declared;

use crate::names::NamePlaces;
use mo_num::Memory;
use std::alloc::Global;
use std::marker::Model;

/// What a name of types is declared as.
#[derive(Clone, Copy, Drop)]
pub enum Declared {
    /// A type parameter, by the number of the token that is its name.
    Parameter(u32),
    /// A definition, by the number of the token that is its name, with the number of the parameters in scope there and that of its own.
    Definition(u32, usize, usize),
}

/// What a name of types means.
#[derive(Clone, Copy, Drop)]
pub enum TypeName<'a> {
    /// A type parameter, by the number of the token that is its name.
    Parameter(u32),
    /// A definition, by the number of the token that is its name, with the parameters in scope there, the outermost first, and the
    /// number of its own.
    Definition(u32, &'a [u32], usize),
}

/// The names of types in scope. Contracts see them as two lists, the outermost first, of the names and of what they are declared as,
/// and `seen` gives the scope of the rules that they are.
pub struct TypeScope {
    names: NamePlaces,
    declared: Vec<Declared>,
    /// The type parameters among them.
    parameters: Vec<u32>,
}

// Written here, so that it is proved here, and not again in each crate that lets a scope go.
impl Drop for TypeScope {
    fn drop(self) {
        let TypeScope {
            names: _names,
            declared: _declared,
            parameters: _parameters,
        } = self;
    }
}

impl Model for TypeScope {
    ghost use Rattle.type_scopes.specs.Scopes.{Fit, Names, both};

    ghost Value = { Names };

    ghost view = { λ s. both s.names s.declared.items };

    ghost invariant = { λ s. Fit s.names s.declared.items s.parameters.items };
}

/// Adds a name with what it is declared as. After an error both lists are as before.
fn push_both(
    names: &mut NamePlaces,
    declared: &mut Vec<Declared>,
    name: &[u8],
    one: Declared,
) -> Result<(), Memory>
    ensures names { OnOk result (names.new ≡ names.old ++ name.now ∷ []) }
    ensures declared { OnOk result (declared.new.items ≡ declared.old.items ++ one ∷ []) }
    ensures same_names { OnErr result (names.new ≡ names.old) }
    ensures same_declared { OnErr result (declared.new.items ≡ declared.old.items) }
{
    declared.push(one)?;
    match names.push(name) {
        Ok(()) => Ok(()),
        Err(_) => {
            declared.pop();
            Err(Memory)
        }
    }
}

/// What a name means, where these are the type parameters in scope.
fn meaning(parameters: &[u32], declared: Declared) -> TypeName<'_>
    requires { outer_of declared ≤ length parameters.now }
    ensures { seen_name result ≡ named parameters.now declared }
{
    match declared {
        Declared::Parameter(at) => TypeName::Parameter(at),
        Declared::Definition(at, outer, own) => TypeName::Definition(at, &parameters[..outer], own),
    }
}

impl TypeScope {
    /// No names. Takes no memory.
    pub fn new(alloc: Global) -> TypeScope
        ensures { result ≡ record { names = []; declared = [] } }
    {
        TypeScope {
            names: NamePlaces::new(alloc),
            declared: Vec::new(alloc),
            parameters: Vec::new(alloc),
        }
    }

    /// How many names there are.
    pub fn len(&self) -> usize
        ensures names { result ≡ length self.now.names }
        ensures declared { result ≡ length self.now.declared }
    {
        self.declared.len()
    }

    /// The type parameters in scope, the outermost first.
    pub fn parameters(&self) -> &[u32]
        ensures { result.now ≡ (seen self.now).parameters }
    {
        self.parameters.as_slice()
    }
    /// What a name means, where it is declared: Motoko language manual, section "Identifiers". The innermost of several hides the others.
    pub fn find(&self, name: &[u8]) -> Option<TypeName<'_>>
        ensures { option_map seen_name result ≡ type_named (seen self.now) name.now }
    {
        match self.names.find(name) {
            None => None,
            Some(place) => Some(meaning(self.parameters.as_slice(), self.declared[place])),
        }
    }

    /// Adds a type parameter, innermost, by its name and the number of the token that this is. After an error the names are as before.
    pub fn push_parameter(&mut self, name: &[u8], at: u32) -> Result<(), Memory>
        ensures ok { OnOk result (self.new ≡ with self.old name.now (declared.Parameter at)) }
        ensures seen { OnOk result (seen self.new ≡ with_parameter (seen self.old) (record { at = at; bytes = name.now })) }
        ensures err { OnErr result (self.new ≡ self.old) }
    {
        self.parameters.push(at)?;
        match push_both(
            &mut self.names,
            &mut self.declared,
            name,
            Declared::Parameter(at),
        ) {
            Ok(()) => Ok(()),
            Err(memory) => {
                self.parameters.pop();
                Err(memory)
            }
        }
    }

    /// Adds a definition of so many parameters, innermost, by its name and the number of the token that this is. After an error the
    /// names are as before.
    pub fn push_definition(&mut self, name: &[u8], at: u32, own: usize) -> Result<(), Memory>
        ensures ok { OnOk result (self.new ≡ with self.old name.now (declared.Definition at (length (seen self.old).parameters) own)) }
        ensures seen { OnOk result (seen self.new ≡ with_definition (seen self.old) (record { at = at; bytes = name.now }) own) }
        ensures err { OnErr result (self.new ≡ self.old) }
    {
        let outer = self.parameters.len();
        let one = Declared::Definition(at, outer, own);
        push_both(&mut self.names, &mut self.declared, name, one)?;
        Ok(())
    }

    /// Takes the last name away, if there is one.
    fn pop(&mut self)
        ensures { self.new ≡ cut (length self.old.declared - 1) self.old }
    {
        match self.declared.pop() {
            Some(Declared::Parameter(_)) => {
                self.parameters.pop();
                self.names.pop();
            }
            Some(Declared::Definition(_, _, _)) => self.names.pop(),
            None => {}
        }
    }

    /// Keeps only the outermost names, so many. Costs the names that are taken away.
    pub fn truncate(&mut self, len: usize)
        ensures { self.new ≡ cut len self.old }
    {
        while self.len() > len {
            self.pop();
        }
    }
}
