//! Tokens and trees of Motoko, what it means that a text is made of tokens, and that tokens spell a tree.
#![tactic(auto)]

mod before;
mod declarations;
mod expressions;
mod items;
mod literal;
mod mark;
mod name;
mod node;
mod operators;
mod patterns;
mod place;
mod program;
mod text;
mod token;
mod types;
mod word;

pub use before::Before;
pub use declarations::{Declaration, DeclarationField, Visibility};
pub use expressions::{Case, Expression, ExpressionField};
pub use items::Items;
pub use literal::Literal;
pub use mark::Mark;
pub use name::Name;
pub use node::Node;
pub use operators::{AssignmentOperator, BinaryOperator};
pub use patterns::{Parameters, Pattern, PatternField};
pub use place::Place;
pub use program::{
    Actor, ActorField, Context, Import, SharedFunction, SharedPrefix, SharedSort, Tree,
};
pub use text::Text;
pub use token::{Kinds, Token, TokenKind, Tokens};
pub use types::{Sharing, TypeExpression, TypeField, TypeItem, TypeMethod, TypeParameter, TypeTag};
pub use word::Word;
