//! Types with their numbers in the graph.
ghost use Rattle.std.specs.Prelude.{◌≡◌, ◌+◌, IfOk, length, option_map};
ghost use Rattle.typing_rules.specs.Heads.{bound_of};
ghost use Rattle.typing_rules.specs.Terms.{Boolean, Parameter, unit};
ghost use Rattle.type_definitions.specs.Meanings.{term, term_of};
ghost use Rattle.met_types.specs.States.{Kept};
ghost use Rattle.kernel_types.specs.Numbers.{IsHead, IsMembersHead, IsPromoted, bound_at, head_of, number, number_of, type_at};

use met_types::Types;
use mo_num::{Memory, Sequence};
use mo_types::{Node, TypeGraph, TypeId};
use std::alloc::Global;
use std::marker::Model;
use type_terms::{Form, TermId};

/// The types of a program that was judged, as contracts see them. The number of each in the graph is found in constant time.
/// All types at the nodes of a judged program are types of the graph. For another type, which has no number, there is none to
/// give: the answer is then that memory is lacking, and this case never comes.
pub struct KernelTypes {
    types: Types,
}

// Written here, so that it is proved here, and not again in each crate that lets types go.
impl Drop for KernelTypes {
    fn drop(self) {
        let KernelTypes { types: _types } = self;
    }
}

impl Model for KernelTypes {
    ghost use Rattle.met_types.specs.States.{State};
    ghost use Rattle.kernel_types.specs.Numbers.{Holds};

    ghost Value = { State };

    ghost view = { λ k. k.types };

    ghost invariant = { λ k. Holds k.types };
}

fn bound_at(head: &Node) -> Option<TypeId>
    ensures { result ≡ bound_at head.now }
{
    match head {
        Node::Variable(_, bound) => Some(*bound),
        _ => None,
    }
}

impl KernelTypes {
    /// These types. Takes no memory.
    pub fn new(types: Types) -> KernelTypes
        requires kept { Kept types }
        ensures { result ≡ types }
    {
        // No form is twice in the table, so that no number stands for two.
        let _many = types.terms().len();
        KernelTypes { types }
    }

    /// The graph alone. Takes no memory.
    pub fn into_graph(self) -> TypeGraph
        ensures { result ≡ self.slots }
    {
        let KernelTypes { types } = self;
        types.into_graph()
    }

    /// The number of a type in the graph.
    pub fn number(&self, kind: TermId) -> Result<TypeId, Memory>
        ensures { IfOk result (λ id. id ≡ number_of self.now kind) }
    {
        match self.types.number(kind) {
            Some(id) => Ok(id),
            None => Err(Memory),
        }
    }

    /// The number of the type of this form.
    fn number_of_form(&self, form: &Form) -> Result<TypeId, Memory>
        ensures { IfOk result (λ id. id ≡ number self.now (term_of (term self.now.forms) form.now)) }
    {
        match self.types.terms().find(form) {
            Some(kind) => self.number(kind),
            None => Err(Memory),
        }
    }

    /// The number of `()`, which is a type of the graph where a program has a value of it.
    pub fn unit(&self, alloc: Global) -> Result<TypeId, Memory>
        ensures { IfOk result (λ id. id ≡ number self.now unit) }
    {
        let form = Form::Tuple(Sequence::new(alloc));
        self.number_of_form(&form)
    }

    /// The number of `Bool`, which is a type of the graph where a program has a value of it.
    pub fn boolean(&self) -> Result<TypeId, Memory>
        ensures { IfOk result (λ id. id ≡ number self.now Boolean) }
    {
        self.number_of_form(&Form::Boolean)
    }

    /// The number of a type parameter: Motoko language manual, section "Type parameters".
    pub fn parameter(&self, at: u32) -> Result<TypeId, Memory>
        ensures { IfOk result (λ id. id ≡ number self.now (Parameter at)) }
    {
        self.number_of_form(&Form::Parameter(at))
    }

    /// The head of a type, with the numbers of its parts.
    pub fn head(&self, kind: TermId) -> Result<&Node, Memory>
        ensures { IfOk result (λ head. IsHead self.now kind head.now) }
    {
        match self.types.node(kind) {
            Some(head) => Ok(head),
            None => Err(Memory),
        }
    }

    /// The type of this number in the graph.
    fn kind_at(&self, id: TypeId) -> Result<TermId, Memory>
        ensures { IfOk result (λ kind. (term self.now.forms kind ≡ type_at self.now id)) }
    {
        match self.types.term_at(id) {
            Some(kind) => Ok(kind),
            None => Err(Memory),
        }
    }

    /// The bound of a type parameter, and nothing of another type.
    fn bound(&self, kind: TermId) -> Result<Option<TermId>, Memory>
        ensures { IfOk result (λ next. option_map (term self.now.forms) next ≡ bound_of (head_of self.now kind)) }
    {
        match bound_at(self.head(kind)?) {
            Some(bound) => Ok(Some(self.kind_at(bound)?)),
            None => Ok(None),
        }
    }

    /// One more than there are type parameters, which have a bound each.
    fn turns(&self) -> usize
        ensures number { result ≡ length self.now.listed.bounds + 1 }
        ensures many { length self.now.listed.bounded ≡ length self.now.listed.bounds }
    {
        self.types.definitions().bounds().len() + 1
    }

    /// The type by whose head the members of a value go: of a type parameter the bound, and its bound, and so on.
    fn promoted(&self, kind: TermId) -> Result<TermId, Memory>
        ensures { IfOk result (IsPromoted self.now kind) }
    {
        let mut last = kind;
        let mut left = self.turns();
        while left > 0 {
            let bound = self.bound(last)?;
            match bound {
                Some(next) => last = next,
                None => return Ok(last),
            }
            left -= 1;
        }
        Ok(last)
    }

    /// The head that the members of a value of this type go by: that of the bound, where the type is a parameter. Motoko
    /// language manual, section "Type parameters".
    pub fn members_head(&self, kind: TermId) -> Result<&Node, Memory>
        ensures { IfOk result (λ head. IsMembersHead self.now kind head.now) }
    {
        self.head(self.promoted(kind)?)
    }
}
