//! The commands of `mo_probe` on byte kernels, memories and modules: what is read, valid, laid out, calculated, loaded and executed.
#![tactic(auto)]

mod calculation;
mod execution;
mod kernels;
mod laying;
mod loading;
mod memories;
mod number;
mod reading;
mod unwritten;
mod validity;
mod writing;

use mo_num::Bytes;
use probe_base::Stop;
use std::alloc::Global;

/// What the command answers, for `mo_probe`; Usage where it is none of these.
pub fn answer(alloc: Global, command: &str, arguments: &[Bytes]) -> Result<String, Stop> {
    match arguments {
        [left, right] if command == "differences" => kernels::find_differences(
            alloc,
            left.as_slice(),
            right.as_slice(),
        ),
        [bytes] if command == "prefixes" => kernels::find_prefixes(alloc, bytes.as_slice()),
        [bytes] if command == "starts" => kernels::find_starts(alloc, bytes.as_slice()),
        [bytes] if command == "read" => reading::read_module(alloc, bytes.as_slice()),
        [bytes] if command == "write" => writing::write_module(alloc, bytes.as_slice()),
        [bytes] if command == "validate" => validity::validate_module(alloc, bytes.as_slice()),
        [bytes] if command == "layout" => laying::lay_module(alloc, bytes.as_slice()),
        counts if command == "locals" => unwritten::validate_locals(alloc, counts),
        [count] if command == "ends" => unwritten::validate_ends(alloc, count.as_slice()),
        [name, operands @ ..] if command == "calculate" => calculation::calculate(
            alloc,
            name.as_slice(),
            operands,
        ),
        [limits, script, files @ ..] if command == "execute" => execution::play_under(
            alloc,
            limits.as_slice(),
            script.as_slice(),
            files,
        ),
        [pages, files @ ..] if command == "load" => loading::load_modules(
            alloc,
            pages.as_slice(),
            files,
        ),
        [limit, words @ ..] if command == "pages" => memories::try_pages(
            alloc,
            limit.as_slice(),
            words,
        ),
        _ => Err(Stop::Usage),
    }
}
