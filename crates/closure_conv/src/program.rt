//! Programs whose groups see what their functions use.
ghost use Rattle.std.specs.Prelude.{◌≡◌, ℕ, [], IfOk, OnOk, map};
ghost use Rattle.core_ir.specs.Choices.{nth};
ghost use Rattle.core_ir.specs.CodeView.{code_body};
ghost use Rattle.core_ir.specs.ProgramView.{flat, program as program_view, split_core};
ghost use Rattle.core_laws.specs.Conversion.{convert_body as body_made, convert_group as group_made, convert_groups as groups_made, convert_method as method_made, convert_program, converted};
ghost use Rattle.closure_conv.specs.Runs.{DoesTheSame, KeepsFormed};
ghost use Rattle.closure_conv.specs.Parts.{group_view, method_view};
ghost use Rattle.core_laws.specs.Uses.{needs_of, uses_bodies, uses_segments};

use crate::code::convert_code;
use crate::uses::Uses;
use crate::using::use_code;
use core_ir::{CodeBody, Flat, Group, Method, Outermost, Program, Scopes, SplitCore};
use mo_num::{Memory, Sequence};
use std::alloc::Global;

// What a body uses of what its group sees, behind what was used before it.
fn use_body(
    alloc: Global,
    needs: &[Uses],
    functions: u32,
    sees: u32,
    body: &CodeBody,
    used: &mut Uses,
) -> Result<(), Memory>
    ensures { OnOk result (used.new ≡ uses_segments needs.now (code_body functions sees body.now).segments used.old) }
{
    let outermost = Outermost {
        parameters: body.parameters,
        functions,
        sees,
    };
    for segment in body.segments.as_slice() {
        use_code(alloc, needs, &body.scopes, &outermost, segment, used)?;
    }
    Ok(())
}

// What the functions of a group use of what the group sees.
fn use_group(alloc: Global, needs: &[Uses], group: &Group<CodeBody>) -> Result<Uses, Memory>
    ensures { IfOk result (λ used. used ≡ uses_bodies needs.now (group_view group.now).bodies []) }
{
    let mut used = Uses::new(alloc);
    let bodies = group.bodies.as_slice();
    let Ok(functions) = u32::try_from(bodies.len()) else {
        return Err(Memory);
    };
    for body in bodies {
        use_body(alloc, needs, functions, group.sees, body, &mut used)?;
    }
    Ok(used)
}

// Of each group the values that are used.
fn use_groups(alloc: Global, groups: &[Group<CodeBody>]) -> Result<Vec<Uses>, Memory>
    ensures { IfOk result (λ needs. needs.items ≡ needs_of [] (map group_view groups.now)) }
{
    let mut needs = Vec::new(alloc);
    for group in groups {
        let used = use_group(alloc, &needs, group)?;
        needs.push(used)?;
    }
    Ok(needs)
}

// The body in a group that sees the used values alone.
fn convert_body(
    alloc: Global,
    needs: &[Uses],
    used: &Uses,
    functions: u32,
    sees: u32,
    body: &CodeBody,
) -> Result<CodeBody, Memory>
    ensures { IfOk result (λ made. (f s : ℕ) → code_body f s made ≡ body_made needs.now used.now (code_body functions sees body.now)) }
{
    let outermost = Outermost {
        parameters: body.parameters,
        functions,
        sees,
    };
    let mut segments = Sequence::new(alloc);
    for segment in body.segments.as_slice() {
        segments.push(convert_code(alloc, needs, used, &body.scopes, &outermost, segment)?)?;
    }
    Ok(CodeBody {
        parameters: body.parameters,
        slots: body.slots,
        nodes: body.nodes,
        scopes: Scopes::new(alloc),
        segments,
    })
}

// The group that sees the used values alone.
fn convert_group(
    alloc: Global,
    needs: &[Uses],
    used: &Uses,
    group: &Group<CodeBody>,
) -> Result<Group<CodeBody>, Memory>
    ensures { IfOk result (λ made. group_view made ≡ group_made needs.now used.now (group_view group.now)) }
{
    let sources = group.bodies.as_slice();
    let Ok(functions) = u32::try_from(sources.len()) else {
        return Err(Memory);
    };
    let Ok(sees) = u32::try_from(used.len()) else {
        return Err(Memory);
    };
    let mut bodies = Sequence::new(alloc);
    for body in sources {
        bodies.push(convert_body(alloc, needs, used, functions, group.sees, body)?)?;
    }
    Ok(Group { sees, bodies })
}

// What the group with this number uses; one that is not there uses nothing.
fn used_at<'a>(needs: &'a [Uses], none: &'a Uses, number: usize) -> &'a Uses
    requires { none.now ≡ [] }
    ensures { result.now ≡ nth [] needs.now number }
{
    match needs.get(number) {
        Some(used) => used,
        None => none,
    }
}

fn convert_groups(
    alloc: Global,
    needs: &[Uses],
    groups: &[Group<CodeBody>],
) -> Result<Sequence<Group<CodeBody>>, Memory>
    ensures { IfOk result (λ made. map group_view made ≡ groups_made needs.now needs.now (map group_view groups.now)) }
{
    let none = Uses::new(alloc);
    let mut made = Sequence::new(alloc);
    for (number, group) in groups.iter().enumerate() {
        let used = used_at(needs, &none, number);
        made.push(convert_group(alloc, needs, used, group)?)?;
    }
    Ok(made)
}

fn convert_methods(
    alloc: Global,
    needs: &[Uses],
    methods: &[Method<CodeBody>],
) -> Result<Sequence<Method<CodeBody>>, Memory>
    ensures { IfOk result (λ made. map method_view made ≡ map (method_made needs.now) (map method_view methods.now)) }
{
    let none = Uses::new(alloc);
    let mut made = Sequence::new(alloc);
    for method in methods {
        made.push(Method {
            name: method.name.share()?,
            query: method.query,
            signature: method.signature.share()?,
            body: convert_body(alloc, needs, &none, 0, 0, &method.body)?,
        })?;
    }
    Ok(made)
}

// The program whose groups see these of the values that they saw.
fn convert_by(alloc: Global, needs: &[Uses], program: &Program<CodeBody>) -> Result<Flat, Memory>
    ensures { IfOk result (λ made. flat made ≡ converted needs.now (program_view code_body program.now)) }
{
    let none = Uses::new(alloc);
    Ok(Flat {
        program: Program {
            types: program.types.share()?,
            groups: convert_groups(alloc, needs, program.groups.as_slice())?,
            methods: convert_methods(alloc, needs, program.methods.as_slice())?,
            stable: program.stable.share()?,
            save: convert_body(alloc, needs, &none, 0, 0, &program.save)?,
            start: convert_body(alloc, needs, &none, 0, 0, &program.start)?,
        },
    })
}

/// The same program with groups that see what their functions use. Where groups make groups before them alone, it does what the
/// program does, at its weight and depth. Of a formed program it is a formed one, which does so.
pub fn convert(alloc: Global, split: &SplitCore) -> Result<Flat, Memory>
    ensures converted { IfOk result (λ made. flat made ≡ convert_program (split_core split.now)) }
    ensures same { IfOk result (λ made. DoesTheSame (split_core split.now) (flat made)) }
    ensures formed { IfOk result (λ made. KeepsFormed (split_core split.now) (flat made)) }
{
    let needs = use_groups(alloc, split.program.groups.as_slice())?;
    Ok(convert_by(alloc, &needs, &split.program)?)
}
