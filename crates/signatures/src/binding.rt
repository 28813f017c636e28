//! Names bound to the types of functions.
ghost use Rattle.std.specs.Prelude.{◌≡◌, []};
ghost use Rattle.mo_types.specs.Sub.{Each};
ghost use Rattle.typing_rules.specs.Signatures.{method_sort};
ghost use Rattle.type_definitions.specs.Tables.{Within};
ghost use Rattle.proper_types.specs.Passing.{Ready};
ghost use Rattle.typed_patterns.specs.Binding.{Pushes};
ghost use Rattle.signatures.specs.Naming.{bound_to, function_of, no_more, shared_of};

use met_types::Types;
use mo_num::{Bytes, Sequence};
use mo_types::Sort;
use shareable_types::Sharing;
use type_judgements::{Refusal, meets};
use type_terms::TermId;
use value_scopes::{Bound, ValueScope};
use written_kinds::{function, shared};

/// A name of this type, which is met, with these type parameters.
fn bind(
    types: &mut Types,
    sharing: &Sharing,
    names: &mut ValueScope,
    name: &Bytes,
    generics: Sequence<u32>,
    kind: TermId,
) -> Result<(), Refusal>
    requires ready { Ready types.old sharing.now }
    requires within { Within types.old.forms kind }
    ensures { Pushes (bound_to name.now generics kind) types.old types.new sharing.now names.old names.new no_more result }
{
    meets(types, kind)?;
    let bound = Bound {
        kind,
        mutable: false,
        generics,
    };
    names.push(name.as_slice(), bound)?;
    Ok(())
}

/// The name of a function with these parameters and this result.
pub(crate) fn bind_function(
    types: &mut Types,
    sharing: &Sharing,
    names: &mut ValueScope,
    name: &Bytes,
    generics: Sequence<u32>,
    parameters: Sequence<TermId>,
    of: TermId,
) -> Result<(), Refusal>
    requires ready { Ready types.old sharing.now }
    requires parameters { Each (Within types.old.forms) parameters }
    requires within { Within types.old.forms of }
    ensures { Pushes (function_of name.now generics parameters of) types.old types.new sharing.now names.old names.new no_more result }
{
    let kind = function(types, parameters, of)?;
    bind(types, sharing, names, name, generics, kind)
}

/// Whether a public function is a query.
fn method_sort(query: bool) -> Sort
    ensures { result ≡ method_sort query }
{
    if query { Sort::Query } else { Sort::Shared }
}

/// The name of a public function with these parameters and this result.
pub(crate) fn bind_shared(
    types: &mut Types,
    sharing: &Sharing,
    names: &mut ValueScope,
    name: &Bytes,
    query: bool,
    parameters: Sequence<TermId>,
    of: TermId,
) -> Result<(), Refusal>
    requires ready { Ready types.old sharing.now }
    requires parameters { Each (Within types.old.forms) parameters }
    requires within { Within types.old.forms of }
    ensures { Pushes (shared_of name.now query parameters of) types.old types.new sharing.now names.old names.new no_more result }
{
    let nothing = Sequence::new(types.terms().allocator());
    let kind = shared(types, method_sort(query), parameters, of)?;
    bind(types, sharing, names, name, nothing, kind)
}
