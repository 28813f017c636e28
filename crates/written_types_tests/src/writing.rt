//! A written type becomes a term.
use abstract_types::{Boxed, TypeForm, TypeNode};
use met_types::Types;
use mo_num::{Bytes, Sequence};
use mo_syntax::Items;
use std::test::Fail;
use type_definitions::{Definitions, Numbers};
use type_scopes::{TypeName, TypeScope};
use type_terms::{Form, Terms};
use written_types::term;

#[test]
fn the_innermost_name_is_found(rt: HostRuntime) -> Result<(), Fail> {
    let mut scope = TypeScope::new(rt.alloc());
    scope.push_definition(b"T".as_slice(), 3, 2)?;
    scope.push_parameter(b"T".as_slice(), 7)?;
    assert!(rt; matches!(scope.find(b"T".as_slice()), Some(TypeName::Parameter(7))));
    scope.truncate(1);
    assert!(rt;
        matches!(
            scope.find(b"T".as_slice()),
            Some(TypeName::Definition(3, _, 2))
        )
    );
    assert!(rt; matches!(scope.find(b"U".as_slice()), None));
    Ok(())
}

#[test]
fn an_optional_parameter_is_written(rt: HostRuntime) -> Result<(), Fail> {
    let names = Numbers::new(rt.alloc(), Sequence::new(rt.alloc()))?;
    let bounded = Numbers::new(rt.alloc(), Sequence::new(rt.alloc()))?;
    let definitions = Definitions::new(
        names,
        Sequence::new(rt.alloc()),
        bounded,
        Sequence::new(rt.alloc()),
    );
    let mut types = Types::new(rt.alloc(), Terms::new(rt.alloc()), definitions)?;
    let mut scope = TypeScope::new(rt.alloc());
    scope.push_parameter(b"T".as_slice(), 7)?;
    let name = Bytes::from_slice(rt.alloc(), b"T".as_slice())?;
    let use_of = TypeForm::Use(name, Items::new(rt.alloc()));
    let of = TypeNode {
        at: 1,
        form: Boxed::new(rt.alloc(), use_of)?,
    };
    let node = TypeNode {
        at: 0,
        form: Boxed::new(rt.alloc(), TypeForm::Optional(of))?,
    };
    let id = term(&scope, &mut types, &node)?;
    assert!(rt; id.index() == 1);
    assert!(rt; matches!(types.terms().get_index(0), Some(Form::Parameter(7))));
    assert!(rt; matches!(types.terms().get_index(1), Some(Form::Optional(_))));
    Ok(())
}
