//! Where the parts of expressions and declarations stand.
use crate::places::Walk;
use mo_syntax::{
    Case, Declaration, DeclarationField, Expression, ExpressionField, Items, Name, Node, Place,
};
use std::alloc::AllocError;

impl Walk<'_> {
    #[cycle(expression)]
    pub(crate) fn expression(
        self,
        place: Place,
        e: &Expression,
        out: &mut String,
    ) -> Result<(), AllocError> {
        self.put("Expression", place, out)?;
        match e {
            Expression::Assign(_, a, b) => {
                self.expression(a.place(), a.get(), out)?;
                self.expression(b.place(), b.get(), out)
            }
            Expression::Annotated(a, annotation) => {
                self.expression(a.place(), a.get(), out)?;
                self.type_expression(annotation.place(), annotation.get(), out)
            }
            Expression::Binary(_, a, b) => {
                self.expression(a.place(), a.get(), out)?;
                self.expression(b.place(), b.get(), out)
            }
            Expression::If(condition, a, None) => {
                self.expression(condition.place(), condition.get(), out)?;
                self.expression(a.place(), a.get(), out)
            }
            Expression::If(condition, a, Some(b)) => {
                self.expression(condition.place(), condition.get(), out)?;
                self.expression(a.place(), a.get(), out)?;
                self.expression(b.place(), b.get(), out)
            }
            Expression::Switch(a, cases, _) => {
                self.expression(a.place(), a.get(), out)?;
                self.cases(cases.as_slice(), out)
            }
            Expression::While(condition, a) => {
                self.expression(condition.place(), condition.get(), out)?;
                self.expression(a.place(), a.get(), out)
            }
            Expression::Loop(a, None) => self.expression(a.place(), a.get(), out),
            Expression::Loop(a, Some(condition)) => {
                self.expression(a.place(), a.get(), out)?;
                self.expression(condition.place(), condition.get(), out)
            }
            Expression::For(p, a, b) => {
                self.pattern(p.place(), p.get(), out)?;
                self.expression(a.place(), a.get(), out)?;
                self.expression(b.place(), b.get(), out)
            }
            Expression::Label(name, annotation, a) => {
                self.name(name, out)?;
                self.annotation(annotation, out)?;
                self.expression(a.place(), a.get(), out)
            }
            Expression::Break(name, None) => self.name(name, out),
            Expression::Break(name, Some(a)) => {
                self.name(name, out)?;
                self.expression(a.place(), a.get(), out)
            }
            Expression::Continue(name) => self.name(name, out),
            Expression::Return(None) => Ok(()),
            Expression::Return(Some(a)) => self.expression(a.place(), a.get(), out),
            Expression::Do(a) => self.expression(a.place(), a.get(), out),
            Expression::DoOptional(a) => self.expression(a.place(), a.get(), out),
            Expression::Await(a) => self.expression(a.place(), a.get(), out),
            Expression::Throw(a) => self.expression(a.place(), a.get(), out),
            Expression::Try(a, p, b) => {
                self.expression(a.place(), a.get(), out)?;
                self.pattern(p.place(), p.get(), out)?;
                self.expression(b.place(), b.get(), out)
            }
            Expression::Assert(a) => self.expression(a.place(), a.get(), out),
            Expression::Ignore(a) => self.expression(a.place(), a.get(), out),
            Expression::Debug(a) => self.expression(a.place(), a.get(), out),
            Expression::Function(parameters, result, _, body) => {
                self.parameters(parameters, out)?;
                self.annotation(result, out)?;
                self.expression(body.place(), body.get(), out)
            }
            Expression::ObjectBlock(fields, _) => self.members(fields.as_slice(), out),
            Expression::Optional(a) => self.expression(a.place(), a.get(), out),
            Expression::Negative(a) => self.expression(a.place(), a.get(), out),
            Expression::Not(a) => self.expression(a.place(), a.get(), out),
            Expression::Tagged(name, None) => self.name(name, out),
            Expression::Tagged(name, Some(a)) => {
                self.name(name, out)?;
                self.expression(a.place(), a.get(), out)
            }
            Expression::Member(a, name) => {
                self.expression(a.place(), a.get(), out)?;
                self.name(name, out)
            }
            Expression::Projection(a, _) => self.expression(a.place(), a.get(), out),
            Expression::Index(a, b) => {
                self.expression(a.place(), a.get(), out)?;
                self.expression(b.place(), b.get(), out)
            }
            Expression::Call(a, types, arguments) => {
                self.expression(a.place(), a.get(), out)?;
                self.type_arguments(types, out)?;
                self.expressions(arguments.as_slice(), out)
            }
            Expression::Bang(a) => self.expression(a.place(), a.get(), out),
            Expression::Constant(_) => Ok(()),
            Expression::Variable(name) => self.name(name, out),
            Expression::Parenthesized(items) => self.expressions(items.as_slice(), out),
            Expression::Array(_, items) => self.expressions(items.as_slice(), out),
            Expression::Object(fields, _) => self.fields(fields.as_slice(), out),
            Expression::ActorReference(_, _) => Ok(()),
            Expression::Block(declarations, _) => self.declarations(declarations.as_slice(), out),
        }
    }

    #[cycle(expression)]
    fn expressions(self, items: &[Node<Expression>], out: &mut String) -> Result<(), AllocError> {
        for one in items {
            self.expression(one.place(), one.get(), out)?;
        }
        Ok(())
    }

    #[cycle(expression)]
    fn cases(self, cases: &[Node<Case>], out: &mut String) -> Result<(), AllocError> {
        for one in cases {
            self.put("Case", one.place(), out)?;
            self.case(one.get(), out)?;
        }
        Ok(())
    }

    #[cycle(expression)]
    fn case(self, case: &Case, out: &mut String) -> Result<(), AllocError> {
        self.pattern(case.pattern.place(), case.pattern.get(), out)?;
        self.expression(case.body.place(), case.body.get(), out)
    }

    #[cycle(expression)]
    fn fields(self, fields: &[Node<ExpressionField>], out: &mut String) -> Result<(), AllocError> {
        for one in fields {
            self.put("ExpressionField", one.place(), out)?;
            self.field(one.get(), out)?;
        }
        Ok(())
    }

    #[cycle(expression)]
    fn field(self, field: &ExpressionField, out: &mut String) -> Result<(), AllocError> {
        self.name(&field.name, out)?;
        self.annotation(&field.annotation, out)?;
        match &field.value {
            None => Ok(()),
            Some(a) => self.expression(a.place(), a.get(), out),
        }
    }

    #[cycle(expression)]
    fn declarations(
        self,
        declarations: &[Node<Declaration>],
        out: &mut String,
    ) -> Result<(), AllocError> {
        for one in declarations {
            self.declaration(one.place(), one.get(), out)?;
        }
        Ok(())
    }

    #[cycle(expression)]
    fn members(
        self,
        fields: &[Node<DeclarationField>],
        out: &mut String,
    ) -> Result<(), AllocError> {
        for one in fields {
            self.put("DeclarationField", one.place(), out)?;
            self.member(one.get(), out)?;
        }
        Ok(())
    }

    #[cycle(expression)]
    fn member(self, field: &DeclarationField, out: &mut String) -> Result<(), AllocError> {
        self.declaration(field.declaration.place(), field.declaration.get(), out)
    }

    #[cycle(expression)]
    pub(crate) fn declaration(
        self,
        place: Place,
        declaration: &Declaration,
        out: &mut String,
    ) -> Result<(), AllocError> {
        self.put("Declaration", place, out)?;
        match declaration {
            Declaration::Let(p, a) => {
                self.pattern(p.place(), p.get(), out)?;
                self.expression(a.place(), a.get(), out)
            }
            Declaration::Var(name, annotation, a) => {
                self.name(name, out)?;
                self.annotation(annotation, out)?;
                self.expression(a.place(), a.get(), out)
            }
            Declaration::Func(name, types, parameters, result, _, body) => {
                self.name(name, out)?;
                self.type_parameters(types, out)?;
                self.parameters(parameters, out)?;
                self.annotation(result, out)?;
                self.expression(body.place(), body.get(), out)
            }
            Declaration::TypeAlias(name, parameters, a) => {
                self.name(name, out)?;
                self.names(parameters, out)?;
                self.type_expression(a.place(), a.get(), out)
            }
            Declaration::Class(name, types, parameters, fields, _) => {
                self.name(name, out)?;
                self.type_parameters(types, out)?;
                self.parameters(parameters, out)?;
                self.members(fields.as_slice(), out)
            }
            Declaration::NamedObject(name, fields, _) => {
                self.name(name, out)?;
                self.members(fields.as_slice(), out)
            }
            Declaration::Evaluate(a) => self.expression(a.place(), a.get(), out),
        }
    }

    fn names(self, names: &Option<Items<Name>>, out: &mut String) -> Result<(), AllocError> {
        if let Some(names) = names {
            for name in names.as_slice() {
                self.name(name, out)?;
            }
        }
        Ok(())
    }
}
