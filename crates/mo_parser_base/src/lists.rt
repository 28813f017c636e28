//! Lists of items with `,` or `;` between them, whatever an item is.
ghost use Rattle.mo_parser_base.specs.Input as spec;
ghost use Rattle.mo_parser_base.specs.Input.{Parser, Reads};
ghost use Rattle.mo_parser_base.specs.Rules.{IsCallable, Keeps};
ghost use Rattle.mo_syntax.specs.declared.mark.Mark.{Mark};
ghost use Rattle.mo_syntax.specs.declared.token.TokenKind.{TokenKind};

use crate::cursor::Cursor;
use crate::stop::Stop;
use mo_syntax::{Items, Mark};
use std::alloc::Global;

/// Items with `,` between them up to the closing mark, which is taken.
#[tactic(auto, unfolding(crate::specs::Input::commas))]
pub fn read_commas<T: Drop, F: Fn(&mut Cursor<'_>) -> Result<T, Stop>>(
    alloc: Global,
    tokens: &mut Cursor<'_>,
    close: Mark,
    item: F,
) -> Result<Items<T>, Stop>
    requires { IsCallable (F.pre item) }
    ensures { (rule : Parser T) → Keeps rule (F.post item) → Reads (spec.commas rule (TokenKind.Mark close) tokens.old) result tokens.new }
{
    let mut found = Items::new(alloc);
    if tokens.eat_mark(close) {
        return Ok(found);
    }
    for _turn in 0..tokens.left() {
        found.push(item(tokens)?)?;
        if !tokens.eat_mark(Mark::Comma) {
            tokens.expect_mark(close)?;
            return Ok(found);
        }
    }
    Err(Stop::Refused)
}

/// Items, at least one, with `;` between them up to the closing brace, which is taken, and whether a `;` ends them.
#[tactic(auto, unfolding(crate::specs::Input::some_semicolons))]
pub fn read_some_semicolons<T: Drop, F: Fn(&mut Cursor<'_>) -> Result<T, Stop>>(
    alloc: Global,
    tokens: &mut Cursor<'_>,
    item: F,
) -> Result<(Items<T>, bool), Stop>
    requires { IsCallable (F.pre item) }
    ensures { (rule : Parser T) → Keeps rule (F.post item) → Reads (spec.some_semicolons rule tokens.old) result tokens.new }
{
    let mut found = Items::new(alloc);
    for _turn in 0..tokens.left() {
        found.push(item(tokens)?)?;
        if !tokens.eat_mark(Mark::Semicolon) {
            tokens.expect_mark(Mark::BraceClose)?;
            return Ok((found, false));
        }
        if tokens.eat_mark(Mark::BraceClose) {
            return Ok((found, true));
        }
    }
    Err(Stop::Refused)
}

/// The same where there may be no item.
#[tactic(auto, unfolding(crate::specs::Input::semicolons, crate::specs::Input::some_semicolons))]
pub fn read_semicolons<T: Drop, F: Fn(&mut Cursor<'_>) -> Result<T, Stop>>(
    alloc: Global,
    tokens: &mut Cursor<'_>,
    item: F,
) -> Result<(Items<T>, bool), Stop>
    requires { IsCallable (F.pre item) }
    ensures { (rule : Parser T) → Keeps rule (F.post item) → Reads (spec.semicolons rule tokens.old) result tokens.new }
{
    if tokens.eat_mark(Mark::BraceClose) {
        return Ok((Items::new(alloc), false));
    }
    read_some_semicolons(alloc, tokens, item)
}
