//! Which form a type has, and its parts.
ghost use Rattle.std.specs.Prelude.{◌≡◌};
ghost use Rattle.mo_types.specs.Heads.{
  actor_of,
  array_of,
  async_of,
  func_of,
  is_any,
  is_blob,
  is_bool,
  is_bottom,
  is_char,
  is_error,
  is_null,
  is_principal,
  is_text,
  map_option,
  mut_array_of,
  number_of,
  object_of,
  opt_of,
  tuple_of,
  variable_of,
  variant_of,
};

use crate::{Field, Node, Sort};
use mo_num::Kind;

impl<T> Node<T> {
    pub fn number_of(&self) -> Option<Kind>
        ensures { result ≡ number_of self.now }
    {
        match self {
            Node::Number(kind) => Some(*kind),
            _ => None,
        }
    }

    pub fn is_bool(&self) -> bool
        ensures { result ≡ is_bool self.now }
    {
        match self {
            Node::Bool => true,
            _ => false,
        }
    }

    pub fn is_char(&self) -> bool
        ensures { result ≡ is_char self.now }
    {
        match self {
            Node::Char => true,
            _ => false,
        }
    }

    pub fn is_text(&self) -> bool
        ensures { result ≡ is_text self.now }
    {
        match self {
            Node::Text => true,
            _ => false,
        }
    }

    pub fn is_blob(&self) -> bool
        ensures { result ≡ is_blob self.now }
    {
        match self {
            Node::Blob => true,
            _ => false,
        }
    }

    pub fn is_principal(&self) -> bool
        ensures { result ≡ is_principal self.now }
    {
        match self {
            Node::Principal => true,
            _ => false,
        }
    }

    pub fn is_error(&self) -> bool
        ensures { result ≡ is_error self.now }
    {
        match self {
            Node::Error => true,
            _ => false,
        }
    }

    pub fn is_null(&self) -> bool
        ensures { result ≡ is_null self.now }
    {
        match self {
            Node::Null => true,
            _ => false,
        }
    }

    pub fn is_any(&self) -> bool
        ensures { result ≡ is_any self.now }
    {
        match self {
            Node::Any => true,
            _ => false,
        }
    }

    pub fn is_bottom(&self) -> bool
        ensures { result ≡ is_bottom self.now }
    {
        match self {
            Node::Bottom => true,
            _ => false,
        }
    }

    /// The `T` of `?T`.
    pub fn opt_of(&self) -> Option<&T>
        ensures { map_option (λ r. r.now) result ≡ opt_of self.now }
    {
        match self {
            Node::Opt(part) => Some(part),
            _ => None,
        }
    }

    /// The `T` of `[T]`.
    pub fn array_of(&self) -> Option<&T>
        ensures { map_option (λ r. r.now) result ≡ array_of self.now }
    {
        match self {
            Node::Array(part) => Some(part),
            _ => None,
        }
    }

    /// The `T` of `[var T]`.
    pub fn mut_array_of(&self) -> Option<&T>
        ensures { map_option (λ r. r.now) result ≡ mut_array_of self.now }
    {
        match self {
            Node::MutArray(part) => Some(part),
            _ => None,
        }
    }

    /// The types of a tuple.
    pub fn tuple_of(&self) -> Option<&[T]>
        ensures { map_option (λ r. r.now) result ≡ tuple_of self.now }
    {
        match self {
            Node::Tuple(parts) => Some(parts.as_slice()),
            _ => None,
        }
    }

    /// The fields of an object.
    pub fn object_of(&self) -> Option<&[Field<T>]>
        ensures { map_option (λ r. r.now) result ≡ object_of self.now }
    {
        match self {
            Node::Object(fields) => Some(fields.as_slice()),
            _ => None,
        }
    }

    /// The methods of an actor.
    pub fn actor_of(&self) -> Option<&[Field<T>]>
        ensures { map_option (λ r. r.now) result ≡ actor_of self.now }
    {
        match self {
            Node::Actor(fields) => Some(fields.as_slice()),
            _ => None,
        }
    }

    /// The tags of a variant.
    pub fn variant_of(&self) -> Option<&[Field<T>]>
        ensures { map_option (λ r. r.now) result ≡ variant_of self.now }
    {
        match self {
            Node::Variant(tags) => Some(tags.as_slice()),
            _ => None,
        }
    }

    /// The sort, the parameters and the results of a function.
    pub fn func_of(&self) -> Option<(Sort, &[T], &[T])>
        ensures { map_option (λ r. (r.0, r.1.now, r.2.now)) result ≡ func_of self.now }
    {
        match self {
            Node::Func(sort, parameters, results) => {
                Some((*sort, parameters.as_slice(), results.as_slice()))
            }
            _ => None,
        }
    }

    /// The `T` of `async T`.
    pub fn async_of(&self) -> Option<&T>
        ensures { map_option (λ r. r.now) result ≡ async_of self.now }
    {
        match self {
            Node::Async(part) => Some(part),
            _ => None,
        }
    }

    /// The number of a type parameter.
    pub fn variable_of(&self) -> Option<u32>
        ensures { result ≡ variable_of self.now }
    {
        match self {
            Node::Variable(number, _) => Some(*number),
            _ => None,
        }
    }
}
