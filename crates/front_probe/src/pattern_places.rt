//! Where the parts of patterns stand.
use crate::places::Walk;
use mo_syntax::{Node, Parameters, Pattern, PatternField, Place};
use std::alloc::AllocError;

impl Walk<'_> {
    pub(crate) fn parameters(
        self,
        parameters: &Parameters,
        out: &mut String,
    ) -> Result<(), AllocError> {
        match parameters {
            Parameters::List(patterns) => self.patterns(patterns.as_slice(), out),
            Parameters::Single(name) => self.name(name, out),
        }
    }

    #[cycle(pattern)]
    pub(crate) fn pattern(
        self,
        place: Place,
        p: &Pattern,
        out: &mut String,
    ) -> Result<(), AllocError> {
        self.put("Pattern", place, out)?;
        match p {
            Pattern::Annotated(p, a) => {
                self.pattern(p.place(), p.get(), out)?;
                self.type_expression(a.place(), a.get(), out)
            }
            Pattern::Alternative(p, q) => {
                self.pattern(p.place(), p.get(), out)?;
                self.pattern(q.place(), q.get(), out)
            }
            Pattern::Optional(p) => self.pattern(p.place(), p.get(), out),
            Pattern::Tagged(name, None) => self.name(name, out),
            Pattern::Tagged(name, Some(p)) => {
                self.name(name, out)?;
                self.pattern(p.place(), p.get(), out)
            }
            Pattern::Variable(name) => self.name(name, out),
            Pattern::Wildcard => Ok(()),
            Pattern::Constant(_, _) => Ok(()),
            Pattern::Parenthesized(patterns) => self.patterns(patterns.as_slice(), out),
            Pattern::Object(fields, _) => self.pattern_fields(fields.as_slice(), out),
        }
    }

    #[cycle(pattern)]
    fn patterns(self, patterns: &[Node<Pattern>], out: &mut String) -> Result<(), AllocError> {
        for one in patterns {
            self.pattern(one.place(), one.get(), out)?;
        }
        Ok(())
    }

    #[cycle(pattern)]
    pub(crate) fn pattern_fields(
        self,
        fields: &[Node<PatternField>],
        out: &mut String,
    ) -> Result<(), AllocError> {
        for one in fields {
            self.put("PatternField", one.place(), out)?;
            self.pattern_field(one.get(), out)?;
        }
        Ok(())
    }

    #[cycle(pattern)]
    fn pattern_field(self, field: &PatternField, out: &mut String) -> Result<(), AllocError> {
        self.name(&field.name, out)?;
        match &field.pattern {
            None => Ok(()),
            Some(p) => self.pattern(p.place(), p.get(), out),
        }
    }
}
