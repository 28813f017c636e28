//! Which types' values may be sent is found.
use met_types::Types;
use mo_num::{Kind, Sequence};
use shareable_types::Sharing;
use std::test::Fail;
use type_definitions::{Definitions, Numbers};
use type_terms::{Form, Terms};

#[test]
#[tactic(auto, using(crate::proofs::Below::array_below, crate::proofs::Below::variable_below))]
fn an_array_may_be_sent_where_it_is_no_variable_one(rt: HostRuntime) -> Result<(), Fail> {
    let names = Numbers::new(rt.alloc(), Sequence::new(rt.alloc()))?;
    let bounded = Numbers::new(rt.alloc(), Sequence::new(rt.alloc()))?;
    let definitions = Definitions::new(
        names,
        Sequence::new(rt.alloc()),
        bounded,
        Sequence::new(rt.alloc()),
    );
    let mut types = Types::new(rt.alloc(), Terms::new(rt.alloc()), definitions)?;
    let number = types.intern(Form::Number(Kind::Nat))?;
    let array = types.intern(Form::Array(number))?;
    let variable = types.intern(Form::MutableArray(number))?;
    let mut sharing = Sharing::of_messages(&types)?;
    assert!(rt; sharing.is_so(&types, array)?);
    assert!(rt; !sharing.is_so(&types, variable)?);
    Ok(())
}
