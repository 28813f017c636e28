//! Where the parts of types stand.
use crate::places::Walk;
use mo_syntax::{
    Items, Node, Place, TypeExpression, TypeField, TypeItem, TypeMethod, TypeParameter, TypeTag,
};
use std::alloc::AllocError;

impl Walk<'_> {
    pub(crate) fn annotation(
        self,
        annotation: &Option<Node<TypeExpression>>,
        out: &mut String,
    ) -> Result<(), AllocError> {
        match annotation {
            None => Ok(()),
            Some(a) => self.type_expression(a.place(), a.get(), out),
        }
    }

    pub(crate) fn type_arguments(
        self,
        arguments: &Option<Items<Node<TypeExpression>>>,
        out: &mut String,
    ) -> Result<(), AllocError> {
        match arguments {
            None => Ok(()),
            Some(types) => self.types(types.as_slice(), out),
        }
    }

    pub(crate) fn type_parameters(
        self,
        parameters: &Option<Items<TypeParameter>>,
        out: &mut String,
    ) -> Result<(), AllocError> {
        if let Some(parameters) = parameters {
            for parameter in parameters.as_slice() {
                self.name(&parameter.name, out)?;
                self.annotation(&parameter.bound, out)?;
            }
        }
        Ok(())
    }

    #[cycle(type_expression)]
    pub(crate) fn type_expression(
        self,
        place: Place,
        a: &TypeExpression,
        out: &mut String,
    ) -> Result<(), AllocError> {
        self.put("TypeExpression", place, out)?;
        match a {
            TypeExpression::Function(_, a, b) => {
                self.type_expression(a.place(), a.get(), out)?;
                self.type_expression(b.place(), b.get(), out)
            }
            TypeExpression::Optional(a) => self.type_expression(a.place(), a.get(), out),
            TypeExpression::Async(a) => self.type_expression(a.place(), a.get(), out),
            TypeExpression::Array(_, a) => self.type_expression(a.place(), a.get(), out),
            TypeExpression::Named(name, None) => self.name(name, out),
            TypeExpression::Named(name, Some(arguments)) => {
                self.name(name, out)?;
                self.types(arguments.as_slice(), out)
            }
            TypeExpression::Parenthesized(items) => self.type_items(items.as_slice(), out),
            TypeExpression::Object(_, fields, _) => self.type_fields(fields.as_slice(), out),
            TypeExpression::EmptyVariant => Ok(()),
            TypeExpression::Variant(tags, _) => self.type_tags(tags.as_slice(), out),
            TypeExpression::Actor(methods, _) => self.type_methods(methods.as_slice(), out),
        }
    }

    #[cycle(type_expression)]
    fn types(self, types: &[Node<TypeExpression>], out: &mut String) -> Result<(), AllocError> {
        for one in types {
            self.type_expression(one.place(), one.get(), out)?;
        }
        Ok(())
    }

    #[cycle(type_expression)]
    fn type_items(self, items: &[Node<TypeItem>], out: &mut String) -> Result<(), AllocError> {
        for one in items {
            self.put("TypeItem", one.place(), out)?;
            self.type_item(one.get(), out)?;
        }
        Ok(())
    }

    #[cycle(type_expression)]
    fn type_item(self, item: &TypeItem, out: &mut String) -> Result<(), AllocError> {
        if let Some(name) = &item.name {
            self.name(name, out)?;
        }
        self.type_expression(item.annotation.place(), item.annotation.get(), out)
    }

    #[cycle(type_expression)]
    fn type_fields(self, fields: &[Node<TypeField>], out: &mut String) -> Result<(), AllocError> {
        for one in fields {
            self.put("TypeField", one.place(), out)?;
            self.type_field(one.get(), out)?;
        }
        Ok(())
    }

    #[cycle(type_expression)]
    fn type_field(self, field: &TypeField, out: &mut String) -> Result<(), AllocError> {
        self.name(&field.name, out)?;
        self.type_expression(field.annotation.place(), field.annotation.get(), out)
    }

    #[cycle(type_expression)]
    fn type_tags(self, tags: &[Node<TypeTag>], out: &mut String) -> Result<(), AllocError> {
        for one in tags {
            self.put("TypeTag", one.place(), out)?;
            self.type_tag(one.get(), out)?;
        }
        Ok(())
    }

    #[cycle(type_expression)]
    fn type_tag(self, tag: &TypeTag, out: &mut String) -> Result<(), AllocError> {
        self.name(&tag.name, out)?;
        match &tag.payload {
            None => Ok(()),
            Some(a) => self.type_expression(a.place(), a.get(), out),
        }
    }

    #[cycle(type_expression)]
    fn type_methods(
        self,
        methods: &[Node<TypeMethod>],
        out: &mut String,
    ) -> Result<(), AllocError> {
        for one in methods {
            self.put("TypeMethod", one.place(), out)?;
            self.type_method(one.get(), out)?;
        }
        Ok(())
    }

    #[cycle(type_expression)]
    fn type_method(self, method: &TypeMethod, out: &mut String) -> Result<(), AllocError> {
        self.name(&method.name, out)?;
        self.type_expression(method.annotation.place(), method.annotation.get(), out)
    }
}
