//! The layers of patterns: each is walked over the walk of the patterns in it.
ghost use Rattle.std.specs.Prelude.{◌≡◌, ◌++◌, ◌∷◌, [], OnOk, map, option_map};
ghost use Rattle.mo_scopes.specs.Findings.{identifier, label};
ghost use Rattle.mo_pattern_names.specs.TypeNames.{in_type};
ghost use Rattle.mo_pattern_names.specs.PatternNames.{in_pattern, in_pattern_field, bound_names, each_binder, optional, field_binder};
ghost use Rattle.mo_pattern_names.specs.Walks.{WalksPatterns};

use crate::walk::Walk;
use mo_name_table::{Names, push_copy};
use mo_num::Memory;
use mo_scopes::{Findings, Scope, identifier, label};
use mo_syntax::{Name, Node, Pattern, PatternField, TypeExpression};
use std::alloc::Global;

// A variable.
pub(crate) fn variable(
    alloc: Global,
    name: &Name,
    names: &mut Names,
    found: &mut Findings,
) -> Result<(), Memory>
    ensures found { OnOk result (found.new ≡ found.old ++ identifier name.now) }
    ensures names { OnOk result (names.new ≡ names.old ++ name.now ∷ []) }
{
    push_copy(alloc, names, name)?;
    identifier(name, found)
}

/// The walk of one layer. That of the patterns in it is a parameter, so that each function is proved by itself.
#[derive(Clone, Copy)]
pub(crate) struct PatternLayers<F> {
    pub walk: Walk,
    pub depth: usize,
    pub inner: F,
}

impl<
    F: Fn(Walk, usize, &Pattern, &Scope, &mut Names, &mut Findings) -> Result<(), Memory>,
> PatternLayers<F> {
    fn part(
        &self,
        p: &Pattern,
        scope: &Scope,
        names: &mut Names,
        found: &mut Findings,
    ) -> Result<(), Memory>
        requires { WalksPatterns self.now.depth (F.pre self.now.inner) (F.post self.now.inner) }
        ensures found { OnOk result (found.new ≡ found.old ++ (in_pattern p.now).finds scope.now) }
        ensures names { OnOk result (names.new ≡ names.old ++ (in_pattern p.now).names) }
    {
        (self.inner)(self.walk, self.depth, p, scope, names, found)
    }

    #[tactic(auto, unfolding(crate::specs::PatternNames::in_pattern, crate::specs::PatternNames::in_pattern_field))]
    pub(crate) fn pattern(
        &self,
        p: &Pattern,
        scope: &Scope,
        names: &mut Names,
        found: &mut Findings,
    ) -> Result<(), Memory>
        requires { WalksPatterns self.now.depth (F.pre self.now.inner) (F.post self.now.inner) }
        ensures found { OnOk result (found.new ≡ found.old ++ (in_pattern p.now).finds scope.now) }
        ensures names { OnOk result (names.new ≡ names.old ++ (in_pattern p.now).names) }
    {
        match p {
            Pattern::Annotated(p, a) => self.annotated(p.get(), a.get(), scope, names, found),
            Pattern::Alternative(p, q) => self.both(p.get(), q.get(), scope, names, found),
            Pattern::Optional(p) => self.part(p.get(), scope, names, found),
            Pattern::Tagged(name, p) => self.tagged(name, p, scope, names, found),
            Pattern::Variable(name) => variable(self.walk.alloc, name, names, found),
            Pattern::Wildcard => Ok(()),
            Pattern::Constant(_, _) => Ok(()),
            Pattern::Parenthesized(items) => self.patterns(items.as_slice(), scope, names, found),
            Pattern::Object(fields, _) => self.fields(fields.as_slice(), scope, names, found),
        }
    }

    fn annotated(
        &self,
        p: &Pattern,
        a: &TypeExpression,
        scope: &Scope,
        names: &mut Names,
        found: &mut Findings,
    ) -> Result<(), Memory>
        requires { WalksPatterns self.now.depth (F.pre self.now.inner) (F.post self.now.inner) }
        ensures found { OnOk result (found.new ≡ found.old ++ ((in_pattern p.now).finds scope.now ++ in_type a.now scope.now)) }
        ensures names { OnOk result (names.new ≡ names.old ++ (in_pattern p.now).names) }
    {
        self.part(p, scope, names, found)?;
        self.walk.type_expression(a, scope, found)
    }

    fn both(
        &self,
        p: &Pattern,
        q: &Pattern,
        scope: &Scope,
        names: &mut Names,
        found: &mut Findings,
    ) -> Result<(), Memory>
        requires { WalksPatterns self.now.depth (F.pre self.now.inner) (F.post self.now.inner) }
        ensures found { OnOk result (found.new ≡ found.old ++ ((in_pattern p.now).finds scope.now ++ (in_pattern q.now).finds scope.now)) }
        ensures names { OnOk result (names.new ≡ names.old ++ ((in_pattern p.now).names ++ (in_pattern q.now).names)) }
    {
        self.part(p, scope, names, found)?;
        self.part(q, scope, names, found)
    }

    fn optional(
        &self,
        p: &Option<Node<Pattern>>,
        scope: &Scope,
        names: &mut Names,
        found: &mut Findings,
    ) -> Result<(), Memory>
        requires { WalksPatterns self.now.depth (F.pre self.now.inner) (F.post self.now.inner) }
        ensures found { OnOk result (found.new ≡ found.old ++ (optional (option_map in_pattern p.now)).finds scope.now) }
        ensures names { OnOk result (names.new ≡ names.old ++ (optional (option_map in_pattern p.now)).names) }
    {
        match p {
            None => Ok(()),
            Some(p) => self.part(p.get(), scope, names, found),
        }
    }

    fn tagged(
        &self,
        name: &Name,
        p: &Option<Node<Pattern>>,
        scope: &Scope,
        names: &mut Names,
        found: &mut Findings,
    ) -> Result<(), Memory>
        requires { WalksPatterns self.now.depth (F.pre self.now.inner) (F.post self.now.inner) }
        ensures found { OnOk result (found.new ≡ found.old ++ (label name.now ++ (optional (option_map in_pattern p.now)).finds scope.now)) }
        ensures names { OnOk result (names.new ≡ names.old ++ (optional (option_map in_pattern p.now)).names) }
    {
        label(name, found)?;
        self.optional(p, scope, names, found)
    }

    pub(crate) fn patterns(
        &self,
        patterns: &[Node<Pattern>],
        scope: &Scope,
        names: &mut Names,
        found: &mut Findings,
    ) -> Result<(), Memory>
        requires { WalksPatterns self.now.depth (F.pre self.now.inner) (F.post self.now.inner) }
        ensures found { OnOk result (found.new ≡ found.old ++ each_binder (map in_pattern patterns.now) scope.now) }
        ensures names { OnOk result (names.new ≡ names.old ++ bound_names (map in_pattern patterns.now)) }
    {
        for one in patterns {
            self.part(one.get(), scope, names, found)?;
        }
        Ok(())
    }

    pub(crate) fn fields(
        &self,
        fields: &[Node<PatternField>],
        scope: &Scope,
        names: &mut Names,
        found: &mut Findings,
    ) -> Result<(), Memory>
        requires { WalksPatterns self.now.depth (F.pre self.now.inner) (F.post self.now.inner) }
        ensures found { OnOk result (found.new ≡ found.old ++ each_binder (map in_pattern_field fields.now) scope.now) }
        ensures names { OnOk result (names.new ≡ names.old ++ bound_names (map in_pattern_field fields.now)) }
    {
        for one in fields {
            self.field(one.get(), scope, names, found)?;
        }
        Ok(())
    }

    #[tactic(auto, unfolding(crate::specs::PatternNames::in_pattern, crate::specs::PatternNames::in_pattern_field))]
    fn field(
        &self,
        field: &PatternField,
        scope: &Scope,
        names: &mut Names,
        found: &mut Findings,
    ) -> Result<(), Memory>
        requires { WalksPatterns self.now.depth (F.pre self.now.inner) (F.post self.now.inner) }
        ensures found { OnOk result (found.new ≡ found.old ++ (in_pattern_field field.now).finds scope.now) }
        ensures names { OnOk result (names.new ≡ names.old ++ (in_pattern_field field.now).names) }
    {
        self.named_field(&field.name, &field.pattern, scope, names, found)
    }

    fn named_field(
        &self,
        name: &Name,
        p: &Option<Node<Pattern>>,
        scope: &Scope,
        names: &mut Names,
        found: &mut Findings,
    ) -> Result<(), Memory>
        requires { WalksPatterns self.now.depth (F.pre self.now.inner) (F.post self.now.inner) }
        ensures found { OnOk result (found.new ≡ found.old ++ (field_binder name.now (option_map in_pattern p.now)).finds scope.now) }
        ensures names { OnOk result (names.new ≡ names.old ++ (field_binder name.now (option_map in_pattern p.now)).names) }
    {
        label(name, found)?;
        match p {
            None => push_copy(self.walk.alloc, names, name),
            Some(p) => self.part(p.get(), scope, names, found),
        }
    }
}
