//! Signatures once more, for the tree that has types at its nodes.
ghost use Rattle.std.specs.Prelude.{◌≡◌, IfOk, List, map};
ghost use Rattle.typing_rules.specs.TypedTrees as trees;
ghost use Rattle.type_terms.specs.declared.form.Form.{Form};
ghost use Rattle.abstract_types.specs.PatternView.{plain_signature, signature as signature_view};
ghost use Rattle.abstract_types.specs.TypeView.{annotation, parameter};
ghost use Rattle.value_scopes.specs.Values.{noted};
ghost use Rattle.typed_patterns.specs.Binding.{patterns_in};

use abstract_types::{Pattern, Signature, TypeNode, TypeParameter};
use mo_num::Memory;
use mo_syntax::Items;
use std::alloc::Global;
use type_copies::{copied_name, copied_type};
use value_scopes::Note;

/// A written type once more, where there is one.
pub fn copied_annotation(
    alloc: Global,
    written: &Option<TypeNode>,
) -> Result<Option<TypeNode>, Memory>
    ensures { IfOk result (λ made. annotation made ≡ annotation written.now) }
{
    match written {
        Some(written) => Ok(Some(copied_type(alloc, written)?)),
        None => Ok(None),
    }
}

fn copied_parameter(alloc: Global, one: &TypeParameter) -> Result<TypeParameter, Memory>
    ensures { IfOk result (λ made. parameter made ≡ parameter one.now) }
{
    let name = copied_name(alloc, &one.name)?;
    let bound = copied_annotation(alloc, &one.bound)?;
    Ok(TypeParameter { name, bound })
}

fn copied_generics(
    alloc: Global,
    generics: &[TypeParameter],
) -> Result<Items<TypeParameter>, Memory>
    ensures { IfOk result (λ made. map parameter made ≡ map parameter generics.now) }
{
    let mut made = Items::new(alloc);
    for one in generics {
        made.push(copied_parameter(alloc, one)?)?;
    }
    Ok(made)
}

/// A signature once more, with these parameters, which have the types of their parts.
pub fn copied_signature(
    alloc: Global,
    signature: &Signature<u32>,
    parameters: Items<Pattern<Note>>,
) -> Result<Signature<Note>, Memory>
    ensures { IfOk result (λ made. (later : List Form) → signature_view (noted later) made ≡ trees.signature (plain_signature signature.now) (patterns_in parameters later)) }
{
    let generics = copied_generics(alloc, signature.generics.as_slice())?;
    let result = copied_annotation(alloc, &signature.result)?;
    Ok(Signature {
        generics,
        parameters,
        result,
    })
}
