//! The types of functions and classes (Motoko language manual, "Function declaration", "Class declaration").
ghost use Rattle.std.specs.Prelude.{◌≡◌, IfOk, OnOk, map, option_map};
ghost use Rattle.typing_rules.specs.DeclaredTypes as rules;
ghost use Rattle.typing_rules.specs.TypedTrees.{annotation};
ghost use Rattle.typing_rules.specs.TypeScopes as scoping;
ghost use Rattle.met_types.specs.States.{Kept};
ghost use Rattle.type_scopes.specs.Scopes.{seen};
ghost use Rattle.abstract_types.specs.PatternView.{plain, plain_signature};
ghost use Rattle.abstract_types.specs.TypeView as type_view;
ghost use Rattle.abstract_types.specs.TypeView.{named, type_node};
ghost use Rattle.written_types.specs.Written.{Wrote, WroteEach};
ghost use Rattle.declared_types.specs.Signing.{class_within, function_within, otherwise};

use abstract_types::{Pattern, PatternForm, PlacedName, Signature, TypeNode};
use declared_names::push_generics;
use met_types::Types;
use mo_num::{Memory, Sequence};
use type_scopes::TypeScope;
use type_terms::TermId;
use written_kinds::{any, bottom, class, function, unit};
use written_types::term;

/// What stands for a type that is not written.
#[derive(Clone, Copy)]
pub enum Otherwise {
    Any,
    Bottom,
    Unit,
}

fn stand_in(types: &mut Types, or: Otherwise) -> Result<TermId, Memory>
    requires { Kept types.old }
    ensures { IfOk result (Wrote types.old types.new (otherwise or)) }
{
    match or {
        Otherwise::Any => any(types),
        Otherwise::Bottom => bottom(types),
        Otherwise::Unit => unit(types),
    }
}

/// The type that is written.
pub fn written(scope: &TypeScope, types: &mut Types, node: &TypeNode) -> Result<TermId, Memory>
    requires { Kept types.old }
    ensures { IfOk result (Wrote types.old types.new (scoping.term (seen scope.now) (type_node node.now))) }
{
    match term(scope, types, node) {
        Ok(id) => Ok(id),
        Err(memory) => Err(memory),
    }
}

/// The type that is written, or else this one.
pub fn term_or(
    scope: &TypeScope,
    types: &mut Types,
    node: &Option<TypeNode>,
    or: Otherwise,
) -> Result<TermId, Memory>
    requires { Kept types.old }
    ensures { IfOk result (Wrote types.old types.new (scoping.term_or (seen scope.now) (type_view.annotation node.now) (otherwise or))) }
{
    match node {
        Some(node) => written(scope, types, node),
        None => stand_in(types, or),
    }
}

/// The type that is written at a pattern, where one is: Motoko language manual, section "Patterns".
pub fn annotation(q: &Pattern<u32>) -> Option<&TypeNode>
    ensures { option_map (λ n. type_node n.now) result ≡ annotation (plain q.now) }
{
    match q.form.get() {
        PatternForm::Annotated(_, annotation) => Some(annotation),
        PatternForm::Alternative(_, _) => None,
        PatternForm::Optional(_) => None,
        PatternForm::Tag(_) => None,
        PatternForm::Tagged(_, _) => None,
        PatternForm::Variable(_) => None,
        PatternForm::Wildcard => None,
        PatternForm::Constant(_, _) => None,
        PatternForm::Tuple(_) => None,
        PatternForm::Object(_) => None,
    }
}

/// The type of a pattern that is annotated.
fn pattern_term(scope: &TypeScope, types: &mut Types, q: &Pattern<u32>) -> Result<TermId, Memory>
    requires { Kept types.old }
    ensures { IfOk result (Wrote types.old types.new (rules.pattern_term (seen scope.now) (plain q.now))) }
{
    match annotation(q) {
        Some(node) => written(scope, types, node),
        None => bottom(types),
    }
}

/// The types of parameters that are annotated.
pub fn parameter_terms(
    scope: &TypeScope,
    types: &mut Types,
    patterns: &[Pattern<u32>],
) -> Result<Sequence<TermId>, Memory>
    requires { Kept types.old }
    ensures { IfOk result (WroteEach types.old types.new (map (λ q. rules.pattern_term (seen scope.now) (plain q)) patterns.now)) }
{
    let mut made = Sequence::new(types.terms().allocator());
    for q in patterns {
        made.push(pattern_term(scope, types, q)?)?;
    }
    Ok(made)
}

// Where the type parameters are in scope.
fn function_within(
    scope: &TypeScope,
    types: &mut Types,
    signature: &Signature<u32>,
) -> Result<TermId, Memory>
    requires { Kept types.old }
    ensures { IfOk result (Wrote types.old types.new (function_within (seen scope.now) (plain_signature signature.now))) }
{
    let parameters = parameter_terms(scope, types, signature.parameters.as_slice())?;
    let of = term_or(scope, types, &signature.result, Otherwise::Unit)?;
    match function(types, parameters, of) {
        Ok(id) => Ok(id),
        Err(memory) => Err(memory),
    }
}

/// The type of a function by its signature. The scope is as before, where no memory was wanting.
pub fn function_term(
    scope: &mut TypeScope,
    types: &mut Types,
    signature: &Signature<u32>,
) -> Result<TermId, Memory>
    requires { Kept types.old }
    ensures made { IfOk result (Wrote types.old types.new (rules.function_term (seen scope.old) (plain_signature signature.now))) }
    ensures scope { OnOk result (scope.new ≡ scope.old) }
{
    let len = scope.len();
    push_generics(scope, signature.generics.as_slice())?;
    let made = function_within(scope, types, signature)?;
    scope.truncate(len);
    Ok(made)
}

/// The type of the objects of a class, where its type parameters are in scope.
pub fn class_type(scope: &TypeScope, types: &mut Types, name: &PlacedName) -> Result<TermId, Memory>
    requires { Kept types.old }
    ensures { IfOk result (Wrote types.old types.new (rules.class_type (seen scope.now) (named name.now))) }
{
    class(types, name.at, scope.parameters())
}

// Where the type parameters are in scope.
fn class_within(
    scope: &TypeScope,
    types: &mut Types,
    name: &PlacedName,
    signature: &Signature<u32>,
) -> Result<TermId, Memory>
    requires { Kept types.old }
    ensures { IfOk result (Wrote types.old types.new (class_within (seen scope.now) (named name.now) (plain_signature signature.now))) }
{
    let parameters = parameter_terms(scope, types, signature.parameters.as_slice())?;
    let of = class_type(scope, types, name)?;
    match function(types, parameters, of) {
        Ok(id) => Ok(id),
        Err(memory) => Err(memory),
    }
}

/// The type of the function that a class gives, by the name of the class and its signature. The scope is as before, where no memory
/// was wanting.
pub fn class_term(
    scope: &mut TypeScope,
    types: &mut Types,
    name: &PlacedName,
    signature: &Signature<u32>,
) -> Result<TermId, Memory>
    requires { Kept types.old }
    ensures made { IfOk result (Wrote types.old types.new (rules.class_term (seen scope.old) (named name.now) (plain_signature signature.now))) }
    ensures scope { OnOk result (scope.new ≡ scope.old) }
{
    let len = scope.len();
    push_generics(scope, signature.generics.as_slice())?;
    let made = class_within(scope, types, name, signature)?;
    scope.truncate(len);
    Ok(made)
}
