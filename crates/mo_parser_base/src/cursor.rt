//! A cursor over tokens.
ghost use Rattle.std.specs.Prelude.{◌≡◌, ◌+◌, IfOk, length};
ghost use Rattle.mo_parser_base.specs.Input as spec;
ghost use Rattle.mo_parser_base.specs.Input.{Reads, kinds};
ghost use Rattle.mo_syntax.specs.declared.token.TokenKind.{TokenKind};

use crate::look::Look;
use crate::stop::Stop;
use mo_num::Memory;
use mo_syntax::{Literal, Mark, Name, Node, Place, Text, Token, TokenKind, Word};
use std::alloc::Global;
use std::marker::Model;

/// The tokens that are left, which contracts see as the list of what they are. Of their places, those of names and texts alone are a part of it.
#[derive(Drop)]
pub struct Cursor<'a> {
    rest: &'a [Token],
    // Where the last token that was taken ends.
    end: u32,
}

impl<'a> Model for Cursor<'a> {
    ghost use Rattle.std.specs.Prelude.{List};
    ghost use Rattle.mo_parser_base.specs.Input.{kinds};
    ghost use Rattle.mo_syntax.specs.declared.token.TokenKind.{TokenKind};

    ghost Value = { List TokenKind };

    ghost view = { λ t. kinds t.rest.now };
}

/// Whether both are the same mark.
#[tactic(auto, unfolding(crate::specs::Input::same_mark))]
pub fn same_mark(a: Mark, b: Mark) -> bool
    ensures { result ≡ spec.same_mark a b }
{
    a == b
}

#[tactic(auto, unfolding(crate::specs::Input::same_word))]
fn same_word(a: Word, b: Word) -> bool
    ensures { result ≡ spec.same_word a b }
{
    a == b
}

fn is_mark(tokens: &[Token], mark: Mark) -> bool
    ensures { result ≡ spec.sees (TokenKind.Mark mark) (kinds tokens.now) }
{
    match tokens {
        [
            Token {
                kind: TokenKind::Mark(next),
                ..
            },
            ..
        ] => same_mark(*next, mark),
        _ => false,
    }
}

fn is_word(tokens: &[Token], word: Word) -> bool
    ensures { result ≡ spec.sees (TokenKind.Reserved word) (kinds tokens.now) }
{
    match tokens {
        [
            Token {
                kind: TokenKind::Reserved(next),
                ..
            },
            ..
        ] => same_word(*next, word),
        _ => false,
    }
}

fn look_at(kind: &TokenKind) -> Look
    ensures { result ≡ spec.look_of kind.now }
{
    match kind {
        TokenKind::Identifier(_) => Look::Identifier,
        TokenKind::Number(_) => Look::Number,
        TokenKind::Character(_) => Look::Character,
        TokenKind::Text(_) => Look::Text,
        TokenKind::Reserved(word) => Look::Reserved(*word),
        TokenKind::Mark(mark) => Look::Mark(*mark),
    }
}

impl<'a> Cursor<'a> {
    /// A cursor before the first of the tokens.
    pub fn new(tokens: &'a [Token]) -> Cursor<'a>
        ensures { result ≡ kinds tokens.now }
    {
        Cursor {
            rest: tokens,
            end: 0,
        }
    }

    /// How many tokens are left.
    pub fn left(&self) -> usize
        ensures { result ≡ length self.now }
    {
        self.rest.len()
    }

    /// One more than the number of tokens that are left: no tree of these tokens is that deep.
    pub fn deepest(&self) -> usize
        ensures { result ≡ length self.now + 1 }
    {
        self.rest.len() + 1
    }

    /// Where the next token starts, or the last one ends.
    pub fn start(&self) -> u32 {
        match self.rest {
            [] => self.end,
            [token, ..] => token.start,
        }
    }

    /// A part of a tree that starts here and ends with the last token that was taken.
    pub fn node<T: Drop>(&self, alloc: Global, start: u32, inner: T) -> Result<Node<T>, Memory>
        ensures { IfOk result (λ made. made ≡ inner) }
    {
        Node::new(
            alloc,
            Place {
                start,
                end: self.end,
            },
            inner,
        )
    }

    /// What the next token is.
    pub fn peek(&self) -> Look
        ensures { result ≡ spec.look self.now }
    {
        match self.rest {
            [] => Look::End,
            [token, ..] => look_at(&token.kind),
        }
    }

    /// What the token behind the next one is.
    pub fn peek_second(&self) -> Look
        ensures { result ≡ spec.look (spec.next self.now) }
    {
        match self.rest {
            [_, token, ..] => look_at(&token.kind),
            _ => Look::End,
        }
    }

    /// What the token behind those two is.
    pub fn peek_third(&self) -> Look
        ensures { result ≡ spec.look (spec.next (spec.next self.now)) }
    {
        match self.rest {
            [_, _, token, ..] => look_at(&token.kind),
            _ => Look::End,
        }
    }

    /// Goes behind the next token, where there is one.
    pub fn skip(&mut self)
        ensures { self.new ≡ spec.next self.old }
    {
        if let [token, rest @ ..] = self.rest {
            self.end = token.end;
            self.rest = rest;
        }
    }

    /// Takes the mark, if it comes next.
    #[tactic(auto, unfolding(crate::specs::Input::after))]
    pub fn eat_mark(&mut self, mark: Mark) -> bool
        ensures found { result ≡ spec.sees (TokenKind.Mark mark) self.old }
        ensures after { self.new ≡ spec.after (TokenKind.Mark mark) self.old }
    {
        let found = is_mark(self.rest, mark);
        if found {
            self.skip();
        }
        found
    }

    /// Takes the word, if it comes next.
    #[tactic(auto, unfolding(crate::specs::Input::after))]
    pub fn eat_word(&mut self, word: Word) -> bool
        ensures found { result ≡ spec.sees (TokenKind.Reserved word) self.old }
        ensures after { self.new ≡ spec.after (TokenKind.Reserved word) self.old }
    {
        let found = is_word(self.rest, word);
        if found {
            self.skip();
        }
        found
    }

    /// Takes the mark, which must come next.
    #[tactic(auto, unfolding(crate::specs::Input::expect))]
    pub fn expect_mark(&mut self, mark: Mark) -> Result<(), Stop>
        ensures { Reads (spec.expect (TokenKind.Mark mark) self.old) result self.new }
    {
        if is_mark(self.rest, mark) {
            self.skip();
            Ok(())
        } else {
            Err(Stop::Refused)
        }
    }

    /// Takes the word, which must come next.
    #[tactic(auto, unfolding(crate::specs::Input::expect))]
    pub fn expect_word(&mut self, word: Word) -> Result<(), Stop>
        ensures { Reads (spec.expect (TokenKind.Reserved word) self.old) result self.new }
    {
        if is_word(self.rest, word) {
            self.skip();
            Ok(())
        } else {
            Err(Stop::Refused)
        }
    }

    /// Takes an identifier, which must come next.
    #[tactic(auto, unfolding(crate::specs::Input::identifier))]
    pub fn identifier(&mut self, alloc: Global) -> Result<Name, Stop>
        ensures { Reads (spec.identifier self.old) result self.new }
    {
        match self.rest {
            [
                Token {
                    kind: TokenKind::Identifier(name),
                    end,
                    ..
                },
                rest @ ..,
            ] => {
                self.rest = rest;
                self.end = *end;
                Ok(name.copy(alloc)?)
            }
            _ => Err(Stop::Refused),
        }
    }

    /// Takes an identifier and a `:`, if they come next.
    #[tactic(auto, unfolding(crate::specs::Input::label))]
    pub fn label(&mut self, alloc: Global) -> Result<Option<Name>, Stop>
        ensures { Reads (spec.label self.old) result self.new }
    {
        match self.rest {
            [
                Token {
                    kind: TokenKind::Identifier(name),
                    ..
                },
                Token {
                    kind: TokenKind::Mark(Mark::Colon),
                    end,
                    ..
                },
                rest @ ..,
            ] => {
                self.rest = rest;
                self.end = *end;
                Ok(Some(name.copy(alloc)?))
            }
            _ => Ok(None),
        }
    }

    /// Takes a number, which must come next.
    #[tactic(auto, unfolding(crate::specs::Input::number))]
    pub fn number(&mut self) -> Result<u64, Stop>
        ensures { Reads (spec.number self.old) result self.new }
    {
        match self.rest {
            [
                Token {
                    kind: TokenKind::Number(number),
                    end,
                    ..
                },
                rest @ ..,
            ] => {
                self.rest = rest;
                self.end = *end;
                Ok(*number)
            }
            _ => Err(Stop::Refused),
        }
    }

    /// Takes a text, which must come next.
    #[tactic(auto, unfolding(crate::specs::Input::text))]
    pub fn text(&mut self, alloc: Global) -> Result<Text, Stop>
        ensures { Reads (spec.text self.old) result self.new }
    {
        match self.rest {
            [
                Token {
                    kind: TokenKind::Text(text),
                    end,
                    ..
                },
                rest @ ..,
            ] => {
                self.rest = rest;
                self.end = *end;
                Ok(text.copy(alloc)?)
            }
            _ => Err(Stop::Refused),
        }
    }

    /// Takes a literal, which must come next.
    #[tactic(auto, unfolding(crate::specs::Input::literal))]
    pub fn literal(&mut self, alloc: Global) -> Result<Literal, Stop>
        ensures { Reads (spec.literal self.old) result self.new }
    {
        let [Token { kind, end, .. }, rest @ ..] = self.rest else {
            return Err(Stop::Refused);
        };
        match literal_of(alloc, kind)? {
            Some(literal) => {
                self.rest = rest;
                self.end = *end;
                Ok(literal)
            }
            None => Err(Stop::Refused),
        }
    }
}

/// The literal that the token is, if it is one.
fn literal_of(alloc: Global, kind: &TokenKind) -> Result<Option<Literal>, Memory>
    ensures { IfOk result (λ found. found ≡ spec.literal_of kind.now) }
{
    match kind {
        TokenKind::Number(number) => Ok(Some(Literal::Number(*number))),
        TokenKind::Character(character) => Ok(Some(Literal::Character(*character))),
        TokenKind::Text(text) => Ok(Some(Literal::Text(text.copy(alloc)?))),
        TokenKind::Reserved(Word::True) => Ok(Some(Literal::True)),
        TokenKind::Reserved(Word::False) => Ok(Some(Literal::False)),
        TokenKind::Reserved(Word::Null) => Ok(Some(Literal::Null)),
        _ => Ok(None),
    }
}
