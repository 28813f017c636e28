//! The abstract syntax of expressions, declarations and programs as values.
#![tactic(auto)]

mod declarations;
mod expressions;
mod making;
mod program;

pub use declarations::{Declaration, DeclarationForm};
pub use expressions::{Case, Expression, ExpressionForm, ObjectField};
pub use making::{make_declaration, make_expression};
pub use program::{Import, Program};
