//! Bounds of type parameters.
ghost use Rattle.std.specs.Prelude.{◌≡◌, suc, length, IfOk, OnOk};
ghost use Rattle.type_definitions.specs.Heads.{MakesNode};
ghost use Rattle.type_definitions.specs.Tables.{Makes, Within};
ghost use Rattle.met_types.specs.States.{Kept};
ghost use Rattle.definition_rules.specs.Bounds.{Ends, FindsBound, IsMembersHead, IsPromoted, Same};

use met_types::Types;
use mo_num::Memory;
use mo_types::Node;
use type_terms::{Form, TermId};

/// The bound of a type that is a type parameter.
fn bound_of(types: &mut Types, id: TermId) -> Result<Option<TermId>, Memory>
    requires kept { Kept types.old }
    requires within { Within types.old.forms id }
    ensures same { OnOk result (Same types.old types.new) }
    ensures found { IfOk result (FindsBound types.old.listed types.new.forms id) }
{
    match types.head(id)? {
        Node::Variable(_, bound) => Ok(Some(bound)),
        _ => Ok(None),
    }
}

/// What the bounds of a type lead to within so many, where it is a type parameter.
pub fn promote(types: &mut Types, id: TermId, turns: usize) -> Result<TermId, Memory>
    requires kept { Kept types.old }
    requires within { Within types.old.forms id }
    ensures same { OnOk result (Same types.old types.new) }
    ensures made { IfOk result (λ made. Makes types.old.forms (IsPromoted turns types.old.listed id made) made types.new.forms) }
{
    let mut id = id;
    for _turn in 0..turns {
        match bound_of(types, id)? {
            Some(bound) => id = bound,
            None => return Ok(id),
        }
    }
    Ok(id)
}

/// The head that members of a type's values go by: that of what its bounds lead to, where it is a type parameter.
pub fn members_head(types: &mut Types, id: TermId) -> Result<Node<TermId>, Memory>
    requires kept { Kept types.old }
    requires within { Within types.old.forms id }
    ensures same { OnOk result (Same types.old types.new) }
    ensures made { IfOk result (λ made. MakesNode types.old.forms (IsMembersHead types.old.listed id made) made types.new.forms) }
{
    let turns = types.definitions().bounds().len();
    let last = promote(types, id, turns)?;
    let last = promote(types, last, 1)?;
    types.head(last)
}

/// Whether the bounds of a type parameter lead to a type that is no type parameter.
pub fn ends(types: &mut Types, at: u32) -> Result<bool, Memory>
    requires kept { Kept types.old }
    ensures same { OnOk result (Same types.old types.new) }
    ensures answer { IfOk result (Ends types.old.listed at types.new.forms) }
{
    let turns = types.definitions().bounds().len();
    let parameter = types.intern(Form::Parameter(at))?;
    let last = promote(types, parameter, turns)?;
    Ok(bound_of(types, last)?.is_none())
}
