//! A graph of two types: Bool, and a variant of two tags with Bool under both.
ghost use Rattle.std.specs.Prelude.{◌≡◌, ◌∷◌, [], codes, IfOk};
ghost use Rattle.mo_types.specs.Graph.{Interned};
ghost use Rattle.mo_types.specs.declared.node.Node.TheVariants as node;
ghost use Rattle.coverage_tests.specs.Small.{ABool, ALight, light, small, tag};

use mo_num::{Bytes, Memory, Sequence};
use mo_types::{Field, Node, TypeGraph, TypeId, TypesFault};
use std::alloc::Global;

/// The tag, with Bool under it.
fn tag(alloc: Global, label: &[u8], boolean: TypeId) -> Result<Field, Memory>
    requires { boolean ≡ ABool }
    ensures { IfOk result (λ made. made ≡ tag label.now) }
{
    Ok(Field {
        label: Bytes::from_slice(alloc, label)?,
        mutable: false,
        part: boolean,
    })
}

/// The variant.
fn light(alloc: Global, boolean: TypeId) -> Result<Node, Memory>
    requires { boolean ≡ ABool }
    ensures { IfOk result (λ made. made ≡ light) }
{
    let mut tags = Sequence::new(alloc);
    tags.push(tag(alloc, b"red", boolean)?)?;
    tags.push(tag(alloc, b"green", boolean)?)?;
    Ok(Node::Variant(tags))
}

/// Adds Bool to no types.
#[tactic(auto, using(crate::proofs::Interning::first_added))]
fn add_boolean(types: &mut TypeGraph) -> Result<TypeId, TypesFault>
    requires { types.old ≡ [] }
    ensures { IfOk result (λ id. (id ≡ ABool) × (types.new ≡ Interned node.Bool ∷ [])) }
{
    types.intern(Node::Bool)
}

/// Adds the variant to Bool.
#[tactic(auto, using(crate::proofs::Interning::second_added))]
fn add_light(types: &mut TypeGraph, variant: Node) -> Result<TypeId, TypesFault>
    requires variant { variant ≡ light }
    requires types { types.old ≡ Interned node.Bool ∷ [] }
    ensures { IfOk result (λ id. (id ≡ ALight) × (types.new ≡ small)) }
{
    types.intern(variant)
}

/// The types, with the numbers of Bool and of the variant.
pub(crate) fn small_types(alloc: Global) -> Result<(TypeGraph, TypeId, TypeId), TypesFault>
    ensures types { IfOk result (λ made. made.0 ≡ small) }
    ensures boolean { IfOk result (λ made. made.1 ≡ ABool) }
    ensures light { IfOk result (λ made. made.2 ≡ ALight) }
{
    let mut types = TypeGraph::new(alloc);
    let boolean = add_boolean(&mut types)?;
    let Ok(light) = light(alloc, boolean) else {
        return Err(TypesFault::Memory);
    };
    let variant = add_light(&mut types, light)?;
    Ok((types, boolean, variant))
}
