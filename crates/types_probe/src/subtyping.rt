//! Subtyping, and the numbers of labels.
use crate::types::Types;
use mo_num::{Bytes, Sequence};
use mo_subtype::{Pair, Pairs, Verdict, subtype};
use mo_types::label_id;
use probe_base::{Stop, yes_or_no};
use std::alloc::Global;

// Whether one type is a subtype of another, by definitions.
fn verdict(alloc: Global, words: &[Bytes]) -> Result<Verdict, Stop> {
    let [definitions, low, high] = words else {
        return Err(Stop::Usage);
    };
    let mut types = Types::new(alloc, definitions.as_slice())?;
    let low = types.one(low.as_slice())?;
    let high = types.one(high.as_slice())?;
    Ok(subtype(alloc, &types.graph, low, high)?)
}

/// DEFINITIONS LOW HIGH: `yes`, or `no` and the least depth at which LOW is no subtype of HIGH.
pub(crate) fn answer(alloc: Global, words: &[Bytes]) -> Result<String, Stop> {
    match verdict(alloc, words)? {
        Verdict::Yes(_) => yes_or_no(alloc, true),
        Verdict::No(depth) => Ok(format!(in alloc; "no {depth}\n")?),
    }
}

/// DEFINITIONS LOW HIGH: how many pairs show that LOW is below HIGH.
pub(crate) fn pair_count(alloc: Global, words: &[Bytes]) -> Result<String, Stop> {
    match verdict(alloc, words)? {
        Verdict::Yes(pairs) => {
            let count = pairs.len();
            Ok(format!(in alloc; "{count}\n")?)
        }
        Verdict::No(_) => yes_or_no(alloc, false),
    }
}

// Pairs of types, of which none stands twice.
fn pairs_of(alloc: Global, types: &mut Types, written: &[Bytes]) -> Result<Sequence<Pair>, Stop> {
    let mut pairs = Sequence::new(alloc);
    for pair in written.chunks(2) {
        let [low, high] = pair else {
            return Err(Stop::Usage);
        };
        let low = types.one(low.as_slice())?;
        let high = types.one(high.as_slice())?;
        pairs.push(Pair { low, high })?;
    }
    Ok(pairs)
}

fn are_pairs(list: &Pairs, pairs: &[Pair]) -> bool {
    for pair in pairs {
        if !list.contains(*pair) {
            return false;
        }
    }
    list.len() == pairs.len()
}

/// DEFINITIONS LOW HIGH ..: `yes` where the first of these pairs is one of subtypes, and exactly these pairs show it, in
/// any order.
pub(crate) fn shows(alloc: Global, words: &[Bytes]) -> Result<String, Stop> {
    let [definitions, written @ ..] = words else {
        return Err(Stop::Usage);
    };
    let mut types = Types::new(alloc, definitions.as_slice())?;
    let pairs = pairs_of(alloc, &mut types, written)?;
    let [first, ..] = pairs.as_slice() else {
        return Err(Stop::Usage);
    };
    match subtype(alloc, &types.graph, first.low, first.high)? {
        Verdict::Yes(list) => yes_or_no(alloc, are_pairs(&list, pairs.as_slice())),
        Verdict::No(_) => yes_or_no(alloc, false),
    }
}

/// LABEL: its number.
pub(crate) fn label(alloc: Global, words: &[Bytes]) -> Result<String, Stop> {
    let [label] = words else {
        return Err(Stop::Usage);
    };
    let number = label_id(label.as_slice());
    Ok(format!(in alloc; "{number}\n")?)
}
