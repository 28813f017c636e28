//! What uses of names mean, as text.
use mo_names::{BuiltInType, Meaning, Member};
use std::alloc::{AllocError, Global};

fn built_in_name(kind: BuiltInType) -> &'static str {
    match kind {
        BuiltInType::Nat => "Nat",
        BuiltInType::Int => "Int",
        BuiltInType::Nat8 => "Nat8",
        BuiltInType::Nat16 => "Nat16",
        BuiltInType::Nat32 => "Nat32",
        BuiltInType::Nat64 => "Nat64",
        BuiltInType::Int8 => "Int8",
        BuiltInType::Int16 => "Int16",
        BuiltInType::Int32 => "Int32",
        BuiltInType::Int64 => "Int64",
        BuiltInType::Bool => "Bool",
        BuiltInType::Char => "Char",
        BuiltInType::Text => "Text",
        BuiltInType::Blob => "Blob",
        BuiltInType::Principal => "Principal",
        BuiltInType::Null => "Null",
        BuiltInType::Any => "Any",
        BuiltInType::None => "None",
        BuiltInType::Error => "Error",
    }
}

fn member_name(member: Member) -> &'static str {
    match member {
        Member::DebugPrint => "DebugPrint",
        Member::DebugTrap => "DebugTrap",
        Member::ErrorReject => "ErrorReject",
        Member::ErrorMessage => "ErrorMessage",
        Member::ErrorCode => "ErrorCode",
        Member::NatToText => "NatToText",
        Member::IntToText => "IntToText",
        Member::ArrayTabulate => "ArrayTabulate",
        Member::ArrayInit => "ArrayInit",
        Member::ArrayFreeze => "ArrayFreeze",
        Member::ArrayThaw => "ArrayThaw",
        Member::PrincipalFromActor => "PrincipalFromActor",
    }
}

fn text_of(alloc: Global, meaning: Meaning) -> Result<String, AllocError> {
    match meaning {
        Meaning::Value(level) => format!(in alloc; "Value({level})\n"),
        Meaning::Member(member) => format!(in alloc; "Member({})\n", member_name(member)),
        Meaning::Type(level) => format!(in alloc; "Type({level})\n"),
        Meaning::BuiltIn(kind) => format!(in alloc; "BuiltIn({})\n", built_in_name(kind)),
        Meaning::Loop(level) => format!(in alloc; "Loop({level})\n"),
    }
}

/// A line for each meaning.
pub(crate) fn meaning_lines(alloc: Global, meanings: &[Meaning]) -> Result<String, AllocError> {
    let mut out = String::new(alloc);
    for meaning in meanings {
        out.push_str(text_of(alloc, *meaning)?.as_str())?;
    }
    Ok(out)
}
