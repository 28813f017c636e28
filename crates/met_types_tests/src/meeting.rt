//! Types without definitions are met, with what they reach.
use met_types::Types;
use mo_num::{Kind, Sequence};
use mo_types::Node;
use std::test::Fail;
use type_definitions::{Definitions, Numbers};
use type_terms::{Form, Terms};

#[test]
#[tactic(auto, using(crate::proofs::Below::option_below))]
fn an_option_is_met(rt: HostRuntime) -> Result<(), Fail> {
    let names = Numbers::new(rt.alloc(), Sequence::new(rt.alloc()))?;
    let bounded = Numbers::new(rt.alloc(), Sequence::new(rt.alloc()))?;
    let definitions = Definitions::new(
        names,
        Sequence::new(rt.alloc()),
        bounded,
        Sequence::new(rt.alloc()),
    );
    let mut types = Types::new(rt.alloc(), Terms::new(rt.alloc()), definitions)?;
    let number = types.intern(Form::Number(Kind::Nat))?;
    let option = types.intern(Form::Optional(number))?;
    types.meet(option)?;
    assert!(rt; matches!(types.node(option), Some(Node::Opt(_))));
    assert!(rt; matches!(types.node(number), Some(Node::Number(Kind::Nat))));
    Ok(())
}
