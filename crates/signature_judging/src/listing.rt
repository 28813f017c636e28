//! The types that a list of declarations defines, and the names that it binds in the whole of it.
ghost use Rattle.std.specs.Prelude.{OnOk, map};
ghost use Rattle.abstract_tree.specs.TreeView.{declarations, plain_declaration};
ghost use Rattle.signatures.specs.Naming.{no_more as none_besides};
ghost use Rattle.judging.specs.declared.site.Site.{Site};
ghost use Rattle.judging.specs.Answers.{Answers};
ghost use Rattle.judging.specs.Parts.{Ready, Sound};
ghost use Rattle.judging.specs.Views.{no_more, nothing};
ghost use Rattle.scope_judging.specs.Binding.{Binds};
ghost use Rattle.signature_judging.specs.Rules.{definitions_of, signatures_of};

use abstract_tree::Declaration;
use judging::Checker;
use type_judgements::Refusal;
use value_scopes::Scopes;

/// Whether the types that a list defines are as they have to be, where they are in scope: Motoko language manual, sections "Type
/// declarations" and "Class declaration". `False` names the first condition that is false, and its place; the names of types are
/// then of no use.
pub fn definitions_of(
    checker: &mut Checker,
    scopes: &mut Scopes,
    list: &[Declaration<u32>],
) -> Result<(), Refusal>
    requires { Sound checker.old scopes.old }
    ensures answer { Answers nothing no_more (definitions_of (declarations (map plain_declaration list.now))) scopes.old checker.old scopes.new checker.new result }
    ensures ready { (x : Site) → Ready checker.old scopes.old x → OnOk result (Ready checker.new scopes.new x) }
{
    list_signatures::definitions_of(
        &mut scopes.types,
        &mut checker.types,
        &mut checker.messages,
        list,
    )
}

/// Whether the signatures of a list's functions, classes and public functions are as they have to be, where the types that it
/// defines are in scope: Motoko language manual, sections "Function declaration", "Class declaration" and "Shared functions". It
/// binds their names in front of the others. `False` names the first condition that is false, and its place; the names of values and
/// of types are then of no use.
pub fn signatures(
    checker: &mut Checker,
    scopes: &mut Scopes,
    list: &[Declaration<u32>],
) -> Result<(), Refusal>
    requires { Sound checker.old scopes.old }
    ensures binds { Binds none_besides (signatures_of (declarations (map plain_declaration list.now))) scopes.old checker.old scopes.new checker.new result }
    ensures ready { (x : Site) → Ready checker.old scopes.old x → OnOk result (Ready checker.new scopes.new x) }
{
    list_signatures::signatures(
        &mut scopes.types,
        &mut checker.types,
        &mut checker.messages,
        &mut scopes.values,
        list,
    )
}
