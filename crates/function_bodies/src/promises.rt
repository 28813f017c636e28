//! What public functions promise (Motoko language manual, section "Shared functions").
ghost use Rattle.std.specs.Prelude.{◌≡◌};
ghost use Rattle.typing_rules.specs.AsyncPlaces as places;
ghost use Rattle.value_scopes.specs.Places.{body_in};

use value_scopes::Body;

/// The body in which the body of a public function stands.
pub(crate) fn body_of(query: bool) -> Body
    ensures { body_in result ≡ places.body_of query }
{
    if query { Body::Query } else { Body::Update }
}
