//! The types of a program: the terms that are made, and the graph of those that are met.
ghost use Rattle.std.specs.Prelude.{◌≡◌, ◌∷◌, ◌++◌, List, [], Some, length, slice_get, IfErr, IfNone, IfOk, IfSome, OnOk};
ghost use Rattle.mo_types.specs.Graph.{head_at};
ghost use Rattle.typing_rules.specs.Terms.{Term};
ghost use Rattle.type_definitions.specs.Definitions.{Stand};
ghost use Rattle.type_definitions.specs.Heads.{IsHeadOf, MakesNode};
ghost use Rattle.type_definitions.specs.Outcomes.{AreOutcomes};
ghost use Rattle.mo_types.specs.Sub.{Each, IsSubtype};
ghost use Rattle.type_definitions.specs.Tables.{IsTermOf, Makes, Within};
ghost use Rattle.type_definitions.specs.Putting.{IsPut};
ghost use Rattle.type_terms.specs.Tables.{PartsBelow};
ghost use Rattle.met_types.specs.Faults.{IfTooMany};
ghost use Rattle.met_types.specs.States.{Goes, IsBelowAnswer, IsNodeOf, IsReached, IsSo, IsTerm, Kept, Left, MeetsFew, MeetsMany, Stands};

use crate::closing::close;
use crate::numbering::number_of;
use crate::{MeetFault, Reached};
use mo_num::Memory;
use mo_subtype::{Verdict, subtype};
use mo_types::{Node, TypeGraph, TypeId};
use std::alloc::Global;
use std::marker::Model;
use type_definitions::{Arguments, Definitions, Outcome, head, outcomes, put_in};
use type_terms::{Form, TermId, Terms};

/// The types of a program.
pub struct Types {
    terms: Terms,
    definitions: Definitions,
    outcomes: Vec<Outcome>,
    reached: Reached,
    graph: TypeGraph,
}

// Written here, so that it is proved here, and not again in each crate that lets types go.
impl Drop for Types {
    fn drop(self) {
        let Types {
            terms: _terms,
            definitions: _definitions,
            outcomes: _outcomes,
            reached: _reached,
            graph: _graph,
        } = self;
    }
}

impl Model for Types {
    ghost use Rattle.met_types.specs.States.{State, state};

    ghost Value = { State };

    ghost view = { λ t. state t.terms t.definitions t.outcomes.items t.reached t.graph };
}

/// Whether the one type of a graph is a subtype of the other.
fn is_subtype(alloc: Global, graph: &TypeGraph, low: TypeId, high: TypeId) -> Result<bool, Memory>
    ensures { IfOk result (λ is. IsSo is (IsSubtype (head_at graph.now) low high)) }
{
    match subtype(alloc, graph, low, high)? {
        Verdict::Yes(_) => Ok(true),
        Verdict::No(_) => Ok(false),
    }
}

impl Types {
    /// The types of a program with these definitions, whose types stand in the table. None is met yet.
    pub fn new(alloc: Global, terms: Terms, definitions: Definitions) -> Result<Types, Memory>
        requires { Stand terms definitions }
        ensures made { IfOk result (λ made. (made.forms ≡ terms) × (made.listed ≡ definitions) × (made.reached ≡ [])) }
        ensures kept { IfOk result Kept }
        ensures stands { IfOk result (Stands []) }
    {
        let outcomes = outcomes(alloc, &terms, &definitions)?;
        Ok(Types {
            terms,
            definitions,
            outcomes,
            reached: Reached::new(alloc),
            graph: TypeGraph::new(alloc),
        })
    }

    /// The terms.
    pub fn terms(&self) -> &Terms
        ensures { result.now ≡ self.now.forms }
    {
        &self.terms
    }

    /// The terms alone, without definitions. Takes no memory.
    pub fn into_terms(self) -> Terms
        ensures { result ≡ self.forms }
    {
        let Types {
            terms,
            definitions: _definitions,
            outcomes: _outcomes,
            reached: _reached,
            graph: _graph,
        } = self;
        terms
    }

    /// The definitions of the program.
    pub fn definitions(&self) -> &Definitions
        ensures { result.now ≡ self.now.listed }
    {
        &self.definitions
    }

    /// What each definition leads to.
    pub fn outcomes(&self) -> &[Outcome]
        ensures { result.now ≡ self.now.outcomes }
    {
        self.outcomes.as_slice()
    }

    /// The type of a term is met: it and all that it reaches are types of the graph from then on. After an error the types
    /// serve for nothing more.
    pub fn meet(&mut self, id: TermId) -> Result<(), MeetFault>
        requires kept { Kept self.old }
        requires within { Within self.old.forms id }
        ensures kept { OnOk result (Kept self.new) }
        ensures goes { OnOk result (Goes self.old self.new) }
        ensures left { IfErr result (λ fault. IfTooMany fault (Left self.old self.new)) }
        ensures reached { OnOk result (IsReached self.new id) }
        ensures stands { OnOk result ((met : List Term) (t : Term) → Stands met self.old → IsTerm self.old id t → Stands (met ++ t ∷ []) self.new) }
        ensures few { OnOk result ((met : List Term) (t : Term) → Stands met self.old → IsTerm self.old id t → MeetsFew self.new (met ++ t ∷ [])) }
        ensures many { IfErr result (λ fault. IfTooMany fault ((met : List Term) (t : Term) → Stands met self.old → IsTerm self.old id t → MeetsMany self.new (met ++ t ∷ []))) }
    {
        let start = self.reached.as_slice().len();
        number_of(&mut self.reached, &mut self.graph, id)?;
        close(
            &mut self.terms,
            &self.definitions,
            self.outcomes.as_slice(),
            &mut self.reached,
            &mut self.graph,
            start,
        )
    }

    /// Whether the one type is a subtype of the other: Motoko language manual, section "Subtyping".
    pub fn is_below(&self, alloc: Global, low: TermId, high: TermId) -> Result<bool, Memory>
        requires kept { Kept self.now }
        requires low { IsReached self.now low }
        requires high { IsReached self.now high }
        ensures { IfOk result (IsBelowAnswer self.now low high) }
    {
        match (self.reached.find(low), self.reached.find(high)) {
            (Some(a), Some(b)) => is_subtype(alloc, &self.graph, a, b),
            _ => Err(Memory),
        }
    }

    /// The term of a form.
    pub fn intern(&mut self, form: Form) -> Result<TermId, Memory>
        requires kept { Kept self.old }
        requires below { PartsBelow (length self.old.forms) form }
        ensures kept { OnOk result (Kept self.new) }
        ensures goes { OnOk result (Goes self.old self.new) }
        ensures stands { OnOk result ((met : List Term) → Stands met self.old → Stands met self.new) }
        ensures made { IfOk result (λ id. Makes self.old.forms (IsTermOf form id) id self.new.forms) }
    {
        self.terms.intern(form)
    }

    /// A type with arguments put in the place of its parameters.
    pub fn put_in(&mut self, arguments: &Arguments<'_>, id: TermId) -> Result<TermId, Memory>
        requires kept { Kept self.old }
        requires within { Within self.old.forms id }
        requires arguments { Each (Within self.old.forms) arguments.now.arguments.now }
        ensures kept { OnOk result (Kept self.new) }
        ensures goes { OnOk result (Goes self.old self.new) }
        ensures stands { OnOk result ((met : List Term) → Stands met self.old → Stands met self.new) }
        ensures made { IfOk result (λ made. Makes self.old.forms (IsPut arguments.now.parameters.now arguments.now.arguments.now arguments.now.others_stay id made) made self.new.forms) }
    {
        put_in(&mut self.terms, arguments, id)
    }

    /// The head of a type, with the terms of its parts.
    pub fn head(&mut self, id: TermId) -> Result<Node<TermId>, Memory>
        requires kept { Kept self.old }
        requires within { Within self.old.forms id }
        ensures kept { OnOk result (Kept self.new) }
        ensures goes { OnOk result (Goes self.old self.new) }
        ensures stands { OnOk result ((met : List Term) → Stands met self.old → Stands met self.new) }
        ensures made { IfOk result (λ node. MakesNode self.old.forms (IsHeadOf self.old.listed id node) node self.new.forms) }
    {
        head(
            &mut self.terms,
            &self.definitions,
            self.outcomes.as_slice(),
            id,
        )
    }

    /// The head of a type of the graph, with types of the graph as parts.
    pub fn node(&self, id: TermId) -> Option<&Node>
        requires kept { Kept self.now }
        ensures there { IfSome result (λ n. IsNodeOf self.now id n.now) }
        ensures missing { IfNone result (IsReached self.now id → ⊥) }
    {
        match self.reached.find(id) {
            Some(at) => self.graph.get(at),
            None => None,
        }
    }

    /// The number that a term has in the graph, where it is one of its types.
    pub fn number(&self, id: TermId) -> Option<TypeId>
        ensures there { IfSome result (λ at. slice_get self.now.reached at.index ≡ Some id) }
        ensures missing { IfNone result (IsReached self.now id → ⊥) }
    {
        self.reached.find(id)
    }

    /// The graph alone. Takes no memory.
    pub fn into_graph(self) -> TypeGraph
        ensures { result ≡ self.slots }
    {
        let Types {
            terms: _terms,
            definitions: _definitions,
            outcomes: _outcomes,
            reached: _reached,
            graph,
        } = self;
        graph
    }

    /// The term of a type of the graph.
    pub fn term_at(&self, at: TypeId) -> Option<TermId>
        ensures { result ≡ slice_get self.now.reached at.index }
    {
        self.reached.as_slice().get(at.index() as usize).copied()
    }
}
