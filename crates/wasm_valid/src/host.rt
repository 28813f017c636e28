//! The functions of the host that a module may import (IC interface specification, section "System API").
ghost use Rattle.std.specs.Prelude.{◌≡◌, ◌&&◌, drop};
ghost use Rattle.std.specs.Str.{bytes_eq};
ghost use Rattle.wasm_tree.specs.Imports.{ic0};
ghost use Rattle.wasm_valid.specs.Parts.{same_kinds, knows};

use crate::operands::same;
use wasm_tree::{FunctionType, ValueType};

fn same_kinds(kinds: &[ValueType], others: &[ValueType]) -> bool
    ensures { result ≡ same_kinds kinds.now others.now }
{
    if kinds.len() != others.len() {
        return false;
    }
    for place in 0..kinds.len() {
        if !same(kinds[place], others[place]) {
            return false;
        }
    }
    true
}

fn is(
    name: &[u8],
    signature: &FunctionType,
    known: &[u8],
    params: &[ValueType],
    results: &[ValueType],
) -> bool
    ensures { result ≡ (bytes_eq known.now name.now && (same_kinds params.now signature.now.params && same_kinds results.now signature.now.results)) }
{
    known == name
        && same_kinds(params, signature.params.as_slice())
        && same_kinds(results, signature.results.as_slice())
}

// The functions of stable memory and of tests, which `ic0` lists last.
fn is_known_storage(name: &[u8], signature: &FunctionType) -> bool
    ensures { result ≡ knows (drop 16 ic0) name.now signature.now }
{
    is(name, signature, b"stable64_size", &[], &[ValueType::I64])
        | (is(
            name,
            signature,
            b"stable64_grow",
            &[ValueType::I64],
            &[ValueType::I64],
        ) | (is(
            name,
            signature,
            b"stable64_read",
            &[ValueType::I64, ValueType::I64, ValueType::I64],
            &[],
        ) | (is(
            name,
            signature,
            b"stable64_write",
            &[ValueType::I64, ValueType::I64, ValueType::I64],
            &[],
        ) | (is(
            name,
            signature,
            b"debug_print",
            &[ValueType::I32, ValueType::I32],
            &[],
        ) | (is(
            name,
            signature,
            b"trap",
            &[ValueType::I32, ValueType::I32],
            &[],
        ) | false)))))
}

// The functions that make calls, and those that `ic0` lists after them.
fn is_known_call(name: &[u8], signature: &FunctionType) -> bool
    ensures { result ≡ knows (drop 12 ic0) name.now signature.now }
{
    is(
        name,
        signature,
        b"call_new",
        &[
            ValueType::I32,
            ValueType::I32,
            ValueType::I32,
            ValueType::I32,
            ValueType::I32,
            ValueType::I32,
            ValueType::I32,
            ValueType::I32,
        ],
        &[],
    ) | (is(
        name,
        signature,
        b"call_on_cleanup",
        &[ValueType::I32, ValueType::I32],
        &[],
    ) | (is(
        name,
        signature,
        b"call_data_append",
        &[ValueType::I32, ValueType::I32],
        &[],
    ) | (is(name, signature, b"call_perform", &[], &[ValueType::I32])
        | is_known_storage(name, signature))))
}

// The functions that answer or name the canister, and those that `ic0` lists after them.
fn is_known_answer(name: &[u8], signature: &FunctionType) -> bool
    ensures { result ≡ knows (drop 6 ic0) name.now signature.now }
{
    is(name, signature, b"msg_reply", &[], &[])
        | (is(name, signature, b"msg_reject_code", &[], &[ValueType::I32])
            | (is(
                name,
                signature,
                b"msg_reject_msg_size",
                &[],
                &[ValueType::I32],
            ) | (is(
                name,
                signature,
                b"msg_reject_msg_copy",
                &[ValueType::I32, ValueType::I32, ValueType::I32],
                &[],
            ) | (is(
                name,
                signature,
                b"canister_self_size",
                &[],
                &[ValueType::I32],
            ) | (is(
                name,
                signature,
                b"canister_self_copy",
                &[ValueType::I32, ValueType::I32, ValueType::I32],
                &[],
            ) | is_known_call(name, signature))))))
}

/// Whether the host has this function with this type.
pub(crate) fn is_known(name: &[u8], signature: &FunctionType) -> bool
    ensures { result ≡ knows ic0 name.now signature.now }
{
    is(
        name,
        signature,
        b"msg_arg_data_size",
        &[],
        &[ValueType::I32],
    ) | (is(
        name,
        signature,
        b"msg_arg_data_copy",
        &[ValueType::I32, ValueType::I32, ValueType::I32],
        &[],
    ) | (is(name, signature, b"msg_caller_size", &[], &[ValueType::I32])
        | (is(
            name,
            signature,
            b"msg_caller_copy",
            &[ValueType::I32, ValueType::I32, ValueType::I32],
            &[],
        ) | (is(
            name,
            signature,
            b"msg_reply_data_append",
            &[ValueType::I32, ValueType::I32],
            &[],
        ) | (is(
            name,
            signature,
            b"msg_reject",
            &[ValueType::I32, ValueType::I32],
            &[],
        ) | is_known_answer(name, signature))))))
}
