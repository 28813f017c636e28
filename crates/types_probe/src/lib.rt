//! The commands of `mo_probe` on numbers, principals, types and Candid messages.
#![tactic(auto)]

mod arithmetic;
mod built_in;
mod graphs;
mod headers;
mod leb;
mod messages;
mod parts;
mod principals;
mod subtyping;
mod type_text;
mod types;
mod values;

use mo_num::Bytes;
use probe_base::Stop;
use std::alloc::Global;

/// What the command answers, for `mo_probe`; Usage where it is none of these.
pub fn answer(alloc: Global, command: &str, arguments: &[Bytes]) -> Result<String, Stop> {
    match arguments {
        _ if command == "arith" => arithmetic::answer(alloc, arguments),
        _ if command == "neg" => arithmetic::negation(alloc, arguments),
        _ if command == "leb" => leb::write_unsigned(alloc, arguments),
        _ if command == "sleb" => leb::write_signed(alloc, arguments),
        _ if command == "read_leb" => leb::read_unsigned(alloc, arguments),
        _ if command == "read_sleb" => leb::read_signed(alloc, arguments),
        _ if command == "principal" => principals::of_text(alloc, arguments),
        _ if command == "principal_of" => principals::of_bytes(alloc, arguments),
        _ if command == "bytes" => principals::grown(alloc, arguments),
        _ if command == "list" => principals::pushed(alloc, arguments),
        _ if command == "label" => subtyping::label(alloc, arguments),
        _ if command == "same" => graphs::are_same(alloc, arguments),
        _ if command == "graph" => graphs::answers(alloc, arguments),
        _ if command == "subtype" => subtyping::answer(alloc, arguments),
        _ if command == "pair_count" => subtyping::pair_count(alloc, arguments),
        _ if command == "shows" => subtyping::shows(alloc, arguments),
        _ if command == "header" => headers::write(alloc, arguments),
        _ if command == "read_header" => headers::read(alloc, arguments),
        _ if command == "equal" => headers::are_equal(alloc, arguments),
        _ if command == "decode" => messages::read(alloc, arguments),
        _ if command == "encode" => messages::write(alloc, arguments),
        _ if command == "are_values" => messages::are_values(alloc, arguments),
        _ if command == "read_values" => messages::read_values(alloc, arguments),
        _ => Err(Stop::Usage),
    }
}
