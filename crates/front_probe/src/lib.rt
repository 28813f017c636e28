//! The commands of `mo_probe` on sources: tokens, trees, their texts and names.
#![tactic(auto)]

mod expression_places;
mod front;
mod lexing;
mod meanings;
mod naming;
mod parsing;
mod pattern_places;
mod places;
mod reading;
mod spelling;
mod type_places;

use mo_num::Bytes;
use probe_base::Stop;
use std::alloc::Global;

/// What the command answers, for `mo_probe`; Usage where it is none of these.
pub fn answer(alloc: Global, command: &str, arguments: &[Bytes]) -> Result<String, Stop> {
    match arguments {
        [source] if command == "lex" => lexing::lex_source(alloc, source.as_slice()),
        [source] if command == "token_places" => lexing::token_places(alloc, source.as_slice()),
        [source] if command == "token_count" => lexing::token_count(alloc, source.as_slice()),
        [source] if command == "columns" => front::columns(alloc, source.as_slice()),
        [source] if command == "parse" => parsing::parse_source(alloc, source.as_slice()),
        [source] if command == "tree_tokens" => parsing::tree_tokens(alloc, source.as_slice()),
        [source] if command == "places" => places::places(alloc, source.as_slice()),
        [source] if command == "unparse" => spelling::unparse_source(alloc, source.as_slice()),
        [source] if command == "back" => spelling::there_and_back(alloc, source.as_slice()),
        [source] if command == "spell" => spelling::spell_source(alloc, source.as_slice()),
        [source] if command == "spell_name" => spelling::spell_name(alloc, source.as_slice()),
        [source] if command == "names" => naming::names_of(alloc, source.as_slice()),
        [source] if command == "name_parts" => naming::name_parts(alloc, source.as_slice()),
        [source] if command == "front" => front::front(alloc, source.as_slice()),
        [source] if command == "front_kind" => front::front_kind(alloc, source.as_slice()),
        _ => Err(Stop::Usage),
    }
}
