//! Methods by their names.
ghost use Rattle.std.specs.Prelude.{◌≡◌, [], map};
ghost use Rattle.mo_types.specs.Heads.{map_option};
ghost use Rattle.mo_meaning.specs.Actor.{method_from};
ghost use Rattle.typed_tree.specs.ProgramView.{method as view_of};
ghost use Rattle.arena_events.specs.Methods.{entry_of, is_method};

use mo_types::{Sort, TypeId};
use typed_tree::Method;
use value_arena::same_bytes;

/// A method that is found: its place in the program (`__resume` has none), and its types.
#[derive(Clone, Copy)]
pub struct Found<'b> {
    pub place: Option<u64>,
    pub parameters: &'b [TypeId],
    pub results: &'b [TypeId],
}

// Whether a method is a query method.
fn query_of(method: &Method) -> bool
    ensures { result ≡ (view_of method.now).query }
{
    match method.function.sort {
        Sort::Query => true,
        Sort::Local => false,
        Sort::Shared => false,
    }
}

// Whether it is the query method or the update method of this name.
fn is_method(method: &Method, query: bool, name: &[u8]) -> bool
    ensures { result ≡ is_method query name.now (view_of method.now) }
{
    if !same_bytes(method.name.as_slice(), name) {
        return false;
    }
    if query {
        query_of(method)
    } else {
        !query_of(method)
    }
}

// `__resume`, which every actor has behind the program's own methods, and which is no query method.
fn resume<'b>(query: bool, name: &[u8]) -> Option<Found<'b>>
    ensures { map_option (λ f. entry_of f) result ≡ method_from 0 query name.now [] }
{
    if query || !same_bytes(b"__resume", name) {
        return None;
    }
    Some(Found {
        place: None,
        parameters: &[],
        results: &[],
    })
}

/// The query method or the update method of a name.
pub(crate) fn find_method<'b>(methods: &'b [Method], query: bool, name: &[u8]) -> Option<Found<'b>>
    ensures { map_option (λ f. entry_of f) result ≡ method_from 0 query name.now (map view_of methods.entry.now) }
{
    for (place, method) in methods.iter().enumerate() {
        if is_method(method, query, name) {
            return Some(Found {
                place: Some(place as u64),
                parameters: method.parameters.as_slice(),
                results: method.results.as_slice(),
            });
        }
    }
    resume(query, name)
}
