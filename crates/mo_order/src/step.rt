//! Declarations as the test of order sees them: the names that they define and use.
ghost use Rattle.std.specs.Prelude.{◌≡◌, ◌++◌, ◌∷◌, [], OnOk, IfOk};
ghost use Rattle.mo_name_table.specs.Places.{texts};
ghost use Rattle.mo_names.specs.Order.{found_step, without, names_of_steps};
ghost use Rattle.mo_order.specs.Parts.{occurring};

use mo_bindings::names_in_pattern;
use mo_name_table::{NameTable, Names, push_copy};
use mo_num::{Memory, Sequence};
use mo_syntax::{Declaration, Name};
use std::alloc::Global;
use std::marker::Model;

/// A list of declarations.
pub(crate) type Steps = Sequence<Step>;

/// The lists of declarations of a tree.
pub(crate) type Lists = Sequence<Steps>;

/// A declaration: the `let`, `var` and `object` names that it defines, the `func` or `class` that it is, and the names that occur in it.
#[derive(Drop)]
pub(crate) struct Step {
    defines: Names,
    functions: Names,
    occurs: Names,
}

impl Model for Step {
    ghost use Rattle.mo_name_table.specs.Places.{texts};
    ghost use Rattle.mo_names.specs.Order as order;

    ghost Value = { order.Step };

    ghost view = { λ s. record { defines = texts s.defines; functions = texts s.functions; occurs = s.occurs } };
}

impl Step {
    pub(crate) fn new(defines: Names, functions: Names, occurs: Names) -> Self
        ensures { result ≡ record { defines = texts defines; functions = texts functions; occurs = occurs } }
    {
        Step {
            defines,
            functions,
            occurs,
        }
    }

    pub(crate) fn defines(&self) -> &[Name]
        ensures { texts result.now ≡ self.now.defines }
    {
        self.defines.as_slice()
    }

    pub(crate) fn functions(&self) -> &[Name]
        ensures { texts result.now ≡ self.now.functions }
    {
        self.functions.as_slice()
    }

    pub(crate) fn occurs(&self) -> &[Name]
        ensures { result.now ≡ self.now.occurs }
    {
        self.occurs.as_slice()
    }
}

/// Adds the other items at the end.
pub(crate) fn append<T: Drop>(list: &mut Sequence<T>, more: Sequence<T>) -> Result<(), Memory>
    ensures { OnOk result (list.new ≡ list.old ++ more) }
{
    for item in more.into_vec() {
        list.push(item)?;
    }
    Ok(())
}

/// The list of one name.
pub(crate) fn one_name(alloc: Global, name: &Name) -> Result<Names, Memory>
    ensures { IfOk result (λ made. made ≡ name.now ∷ []) }
{
    let mut names = Names::new(alloc);
    push_copy(alloc, &mut names, name)?;
    Ok(names)
}

/// The names that a declaration defines, where it is evaluated at its place.
#[tactic(auto, unfolding(mo_names::specs::Order::found_step, mo_names::specs::Order::found))]
fn defines(alloc: Global, declaration: &Declaration) -> Result<Names, Memory>
    ensures { IfOk result (λ made. texts made ≡ (found_step declaration.now).step.defines) }
{
    match declaration {
        Declaration::Let(p, _) => names_in_pattern(alloc, p.get()),
        Declaration::Var(name, _, _) => one_name(alloc, name),
        Declaration::Func(_, _, _, _, _, _) => Ok(Names::new(alloc)),
        Declaration::TypeAlias(_, _, _) => Ok(Names::new(alloc)),
        Declaration::Class(_, _, _, _, _) => Ok(Names::new(alloc)),
        Declaration::NamedObject(name, _, _) => one_name(alloc, name),
        Declaration::Evaluate(_) => Ok(Names::new(alloc)),
    }
}

/// The name of a `func` or `class`.
#[tactic(auto, unfolding(mo_names::specs::Order::found_step, mo_names::specs::Order::found))]
fn functions(alloc: Global, declaration: &Declaration) -> Result<Names, Memory>
    ensures { IfOk result (λ made. texts made ≡ (found_step declaration.now).step.functions) }
{
    match declaration {
        Declaration::Let(_, _) => Ok(Names::new(alloc)),
        Declaration::Var(_, _, _) => Ok(Names::new(alloc)),
        Declaration::Func(name, _, _, _, _, _) => one_name(alloc, name),
        Declaration::TypeAlias(_, _, _) => Ok(Names::new(alloc)),
        Declaration::Class(name, _, _, _, _) => one_name(alloc, name),
        Declaration::NamedObject(_, _, _) => Ok(Names::new(alloc)),
        Declaration::Evaluate(_) => Ok(Names::new(alloc)),
    }
}

/// Adds a declaration in which these names occur.
pub(crate) fn push_step(
    alloc: Global,
    declaration: &Declaration,
    occurs: Names,
    steps: &mut Steps,
) -> Result<(), Memory>
    ensures { OnOk result (steps.new ≡ steps.old ++ record { defines = (found_step declaration.now).step.defines; functions = (found_step declaration.now).step.functions; occurs = occurs } ∷ []) }
{
    let defines = defines(alloc, declaration)?;
    let functions = functions(alloc, declaration)?;
    steps.push(Step::new(defines, functions, occurs))
}

/// The table of the names that the declarations of a list give meanings.
pub(crate) fn names_of_steps(alloc: Global, steps: &[Step]) -> Result<NameTable, Memory>
    ensures { IfOk result (λ made. made ≡ names_of_steps steps.now) }
{
    let mut table = NameTable::new(alloc);
    for one in steps {
        table.push_copies(one.defines())?;
        table.push_copies(one.functions())?;
    }
    Ok(table)
}

fn push_unless(
    alloc: Global,
    names: &mut Names,
    bound: &NameTable,
    name: &Name,
) -> Result<(), Memory>
    ensures { OnOk result (names.new ≡ names.old ++ without bound.now (name.now ∷ [])) }
{
    if bound.contains(name) {
        Ok(())
    } else {
        push_copy(alloc, names, name)
    }
}

/// Adds copies of the names that are not bound.
pub(crate) fn push_without(
    alloc: Global,
    names: &mut Names,
    bound: &NameTable,
    more: &[Name],
) -> Result<(), Memory>
    ensures { OnOk result (names.new ≡ names.old ++ without bound.now more.now) }
{
    for one in more {
        push_unless(alloc, names, bound, one)?;
    }
    Ok(())
}

/// Adds the names that occur in the declarations and aren't bound.
pub(crate) fn push_occurring(
    alloc: Global,
    names: &mut Names,
    bound: &NameTable,
    steps: &[Step],
) -> Result<(), Memory>
    ensures { OnOk result (names.new ≡ names.old ++ without bound.now (occurring steps.now)) }
{
    for one in steps {
        push_without(alloc, names, bound, one.occurs())?;
    }
    Ok(())
}

/// Adds copies of the names that are not among these.
pub(crate) fn push_unbound(
    alloc: Global,
    names: &mut Names,
    bound: Names,
    more: &[Name],
) -> Result<(), Memory>
    ensures { OnOk result (names.new ≡ names.old ++ without (texts bound) more.now) }
{
    let bound = NameTable::from_names(alloc, bound)?;
    push_without(alloc, names, &bound, more)
}

/// Adds a list, the lists in it, and the names that occur in it and aren't bound in it.
pub(crate) fn push_list(
    alloc: Global,
    steps: Steps,
    inner: Lists,
    free: &mut Names,
    lists: &mut Lists,
) -> Result<(), Memory>
    ensures free { OnOk result (free.new ≡ free.old ++ without (names_of_steps steps) (occurring steps)) }
    ensures lists { OnOk result (lists.new ≡ lists.old ++ steps ∷ inner) }
{
    let bound = names_of_steps(alloc, steps.as_slice())?;
    push_occurring(alloc, free, &bound, steps.as_slice())?;
    lists.push(steps)?;
    append(lists, inner)
}
