//! Where an expression stands.
ghost use Rattle.std.specs.Prelude.{◌≡◌};
ghost use Rattle.typing_rules.specs.AsyncPlaces.{calls, takes_call, takes_name, waits};
ghost use Rattle.value_scopes.specs.Places.{around_in, body_in};

use type_terms::TermId;

/// The body in which an expression stands.
#[derive(Clone, Copy, Drop)]
pub enum Body {
    /// That of an update.
    Update,
    /// That of a query.
    Query,
    /// That of a local function, of a class or of a system function, or none.
    Local,
}

/// What stands directly around an expression.
#[derive(Clone, Copy, Drop)]
pub enum Around {
    /// `await` or `ignore`.
    Awaited,
    /// A `let` whose pattern is one name.
    Named,
    /// A label.
    Labelled,
    Other,
}

impl Body {
    /// Whether the body is async.
    pub fn waits(self) -> bool
        ensures { result ≡ waits (body_in self) }
    {
        match self {
            Body::Update => true,
            Body::Query => true,
            Body::Local => false,
        }
    }

    /// Whether shared functions are called in it.
    pub fn calls(self) -> bool
        ensures { result ≡ calls (body_in self) }
    {
        match self {
            Body::Update => true,
            Body::Query => false,
            Body::Local => false,
        }
    }
}

impl Around {
    /// Whether a call of a shared function stands there.
    pub fn takes_call(self) -> bool
        ensures { result ≡ takes_call (around_in self) }
    {
        match self {
            Around::Awaited => true,
            Around::Named => true,
            Around::Labelled => false,
            Around::Other => false,
        }
    }

    /// Whether the name of such a call stands there.
    pub fn takes_name(self) -> bool
        ensures { result ≡ takes_name (around_in self) }
    {
        match self {
            Around::Awaited => true,
            Around::Named => false,
            Around::Labelled => false,
            Around::Other => false,
        }
    }
}

/// Where an expression stands: the result of the function around it, whether `!` has a `do ?` to end, the body, and what is directly
/// around the expression.
#[derive(Clone, Copy, Drop)]
pub struct Place {
    pub returns: Option<TermId>,
    pub ends: bool,
    pub body: Body,
    pub around: Around,
}

impl Place {
    /// The same with this directly around the expression.
    pub fn directly(self, around: Around) -> Place
        ensures { result ≡ record self { around = around } }
    {
        Place { around, ..self }
    }
}
