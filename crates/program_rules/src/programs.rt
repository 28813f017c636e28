//! Programs.
ghost use Rattle.std.specs.Prelude.{◌≡◌, IfOk};
ghost use Rattle.met_types.specs.States.{Kept};
ghost use Rattle.abstract_tree.specs.TreeView.{plain_program};
ghost use Rattle.program_rules.specs.Decided.{Decided, FewNodes, FieldsDecided, TypedIn, fields_in, program_in};

use abstract_tree::{Declaration, Program};
use first_checker::first_checker;
use met_types::Types;
use mo_num::{Memory, Sequence};
use mo_syntax::Items;
use node_counts::count_nodes;
use program_fields::judge_fields;
use std::alloc::Global;
use std::mem;
use type_definitions::{Definitions, Numbers};
use type_judgements::Refusal;
use type_terms::Terms;
use typing_rules::Condition;
use value_scopes::Note;

// How many nodes a program may have.
const MOST_NODES: u32 = 50_000;

/// A program that is typed: the tree, with the number of its type at each node, and the types that have these numbers.
pub struct TypedProgram {
    pub program: Program<Note>,
    pub types: Types,
}

// Written here, so that it is proved here, and not again in each crate that lets a program go.
impl Drop for TypedProgram {
    fn drop(self) {
        let TypedProgram {
            program: _program,
            types: _types,
        } = self;
    }
}

impl TypedProgram {
    /// The tree and the types. Takes no memory.
    pub fn into_parts(self) -> (Program<Note>, Types)
        ensures { result ≡ (self.program, self.types) }
    {
        let TypedProgram { program, types } = self;
        (program, types)
    }
}

/// The fields of a program that is typed, and its types.
struct TypedFields {
    fields: Items<Declaration<Note>>,
    types: Types,
}

impl Drop for TypedFields {
    fn drop(self) {
        let TypedFields {
            fields: _fields,
            types: _types,
        } = self;
    }
}

impl TypedFields {
    /// The program with these fields in the place of its own. Takes no memory.
    fn in_program(self, alloc: Global, program: Program<u32>) -> TypedProgram
        ensures { result ≡ record { program = record { imports = program.imports; name = program.name; fields = self.fields }; types = self.types } }
    {
        let TypedFields { fields, types } = self;
        let mut program = program;
        let imports = mem::replace(&mut program.imports, Items::new(alloc));
        let name = program.name.take();
        let program = Program {
            imports,
            name,
            fields,
        };
        TypedProgram { program, types }
    }
}

/// The condition that a program has at most 50,000 nodes.
fn has_few_nodes(program: &Program<u32>) -> Result<(), Refusal>
    ensures { FewNodes program.now result }
{
    if count_nodes(program)? <= MOST_NODES {
        Ok(())
    } else {
        Err(Refusal::False(0, Condition::TooManyNodes))
    }
}

/// Types without terms and definitions.
fn no_types(alloc: Global) -> Result<Types, Memory> {
    let names = Numbers::new(alloc, Sequence::new(alloc))?;
    let bounded = Numbers::new(alloc, Sequence::new(alloc))?;
    let definitions = Definitions::new(names, Sequence::new(alloc), bounded, Sequence::new(alloc));
    Types::new(alloc, Terms::new(alloc), definitions)
}

fn typed_fields(alloc: Global, program: &Program<u32>) -> Result<TypedFields, Refusal>
    ensures decided { FieldsDecided program.now result }
    ensures kept { IfOk result (λ made. Kept made.types) }
    ensures types { IfOk result (λ made. TypedIn (plain_program program.now) made.types (fields_in program.now made)) }
{
    has_few_nodes(program)?;
    // They stand in the checker in the place of those that are taken out of it.
    let none = no_types(alloc)?;
    let mut checker = first_checker(alloc, program)?;
    let fields = judge_fields(&mut checker, program)?;
    let types = mem::replace(&mut checker.types, none);
    Ok(TypedFields { fields, types })
}

/// A program with the type at each node, exactly where it is typed, or else the first condition that is false, with its place: Motoko
/// language manual, sections "Programs", "Actors". The recursion is as deep as the program. Want of memory names no condition.
pub fn judge_program(alloc: Global, program: Program<u32>) -> Result<TypedProgram, Refusal>
    ensures decided { Decided program result }
    ensures kept { IfOk result (λ made. Kept made.types) }
    ensures types { IfOk result (λ made. TypedIn (plain_program program) made.types (program_in made)) }
{
    let made = typed_fields(alloc, &program)?;
    Ok(made.in_program(alloc, program))
}
