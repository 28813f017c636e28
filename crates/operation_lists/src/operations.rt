//! The codes of operations.
ghost use Rattle.std.specs.Prelude.{◌≡◌, ◌++◌, ◌∷◌, [], ◌<◌, ◌+◌, ◌^◌, ℕ, IfOk, OnOk, length, pos};
ghost use Rattle.low_ir.specs.Flat.{flat};
ghost use Rattle.low_ir.specs.Tree.{Code};
ghost use Rattle.low_ir.specs.declared.op.Operand.TheVariants as low;
ghost use Rattle.mo_num.specs.Kinds.{IsFixed};
ghost use Rattle.number_routines.specs.Codes as numbers;
ghost use Rattle.operation_codes.specs.Codes as codes;
ghost use Rattle.operation_lists.specs.Linked.{links_of};

use crate::inline::{at_once, push_one, push_spare, push_two};
use crate::links::ModuleLinks;
use crate::words::{
    push_all, push_loads, push_negates, push_tells, push_unit, words_address, words_offset,
};
use low_ir::{LowOp, Operand, Operation as Low};
use mo_num::{Kind, Memory, Operator, Sequence};
use mo_types::label_id;
use mo_values::{Comparison, Operation, Scalar, Wrapping};
use number_routines::{TrapPlaces, add, div, mul, negate, rem, sub, wrap};
use std::alloc::Global;
use wasm_tree::{Comparison as Test, Conversion, StoreKind, ValueType};

// ---- arithmetic

fn calculated(
    alloc: Global,
    traps: TrapPlaces,
    operator: Operator,
    kind: Kind,
) -> Result<Sequence<LowOp>, Memory>
    ensures { IfOk result (λ body. body ≡ flat (numbers.calculate traps 2 3 4 5 6 operator kind (low.Local 0) (low.Local 1) (codes.returns 2))) }
{
    let routine = match operator {
        Operator::Add => add(alloc, 0, traps, kind)?,
        Operator::Sub => sub(alloc, 0, traps, kind)?,
        Operator::Mul => mul(alloc, 0, traps, kind)?,
        Operator::Div => div(alloc, 0, traps, kind)?,
        Operator::Rem => rem(alloc, 0, traps, kind)?,
        Operator::Pow => return Ok(Sequence::new(alloc)),
    };
    Ok(routine.body)
}

fn push_call(
    links: &ModuleLinks,
    operator: Operator,
    kind: Kind,
    to: u32,
    a: Operand,
    b: Operand,
    list: &mut Sequence<LowOp>,
) -> Result<(), Memory>
    ensures { OnOk result (list.new ≡ list.old ++ flat (codes.calls ((links_of links.now).calculation operator kind) to (a ∷ b ∷ []))) }
{
    push_all(
        list,
        &[
            LowOp::Argument(a),
            LowOp::Argument(b),
            LowOp::Call(Some(to), links.calculation(operator, kind)),
        ],
    )
}

fn push_inlined(
    alloc: Global,
    links: &ModuleLinks,
    operator: Operator,
    kind: Kind,
    to: u32,
    free: u32,
    a: Operand,
    b: Operand,
    list: &mut Sequence<LowOp>,
) -> Result<(), Memory>
    requires { free + 3 < 2 ^ 32 }
    ensures { OnOk result (list.new ≡ list.old ++ flat (codes.calculate_by (links_of links.now) codes.Inline operator kind to free a b)) }
{
    let ops = calculated(alloc, links.traps(), operator, kind)?;
    push_two(to, free, a, b, ops.as_slice(), list)
}

fn push_spared(
    alloc: Global,
    links: &ModuleLinks,
    operator: Operator,
    kind: Kind,
    to: u32,
    free: u32,
    a: Operand,
    b: Operand,
    list: &mut Sequence<LowOp>,
) -> Result<(), Memory>
    requires { free + 3 < 2 ^ 32 }
    ensures { OnOk result (list.new ≡ list.old ++ flat (codes.calculate_by (links_of links.now) codes.Spare operator kind to free a b)) }
{
    if at_once(to, free, &[a, b]) {
        let ops = calculated(alloc, links.traps(), operator, kind)?;
        push_spare(to, free, a, b, ops.as_slice(), list)
    } else {
        push_call(links, operator, kind, to, a, b, list)
    }
}

fn push_sum(
    alloc: Global,
    links: &ModuleLinks,
    operator: Operator,
    kind: Kind,
    to: u32,
    free: u32,
    a: Operand,
    b: Operand,
    list: &mut Sequence<LowOp>,
) -> Result<(), Memory>
    requires { free + 3 < 2 ^ 32 }
    ensures { OnOk result (list.new ≡ list.old ++ flat (codes.calculate_by (links_of links.now) (codes.sum_way kind) operator kind to free a b)) }
{
    match kind {
        Kind::Int8 | Kind::Int16 | Kind::Int32 => {
            push_spared(alloc, links, operator, kind, to, free, a, b, list)
        }
        Kind::Nat
        | Kind::Int
        | Kind::Nat8
        | Kind::Nat16
        | Kind::Nat32
        | Kind::Nat64
        | Kind::Int64 => push_inlined(alloc, links, operator, kind, to, free, a, b, list),
    }
}

fn push_product(
    alloc: Global,
    links: &ModuleLinks,
    operator: Operator,
    kind: Kind,
    to: u32,
    free: u32,
    a: Operand,
    b: Operand,
    list: &mut Sequence<LowOp>,
) -> Result<(), Memory>
    requires { free + 3 < 2 ^ 32 }
    ensures { OnOk result (list.new ≡ list.old ++ flat (codes.calculate_by (links_of links.now) (codes.product_way kind) operator kind to free a b)) }
{
    match kind {
        Kind::Int8 | Kind::Int16 | Kind::Int32 => {
            push_spared(alloc, links, operator, kind, to, free, a, b, list)
        }
        Kind::Int | Kind::Int64 => push_call(links, operator, kind, to, a, b, list),
        Kind::Nat | Kind::Nat8 | Kind::Nat16 | Kind::Nat32 | Kind::Nat64 => {
            push_inlined(alloc, links, operator, kind, to, free, a, b, list)
        }
    }
}

fn push_calculated(
    alloc: Global,
    links: &ModuleLinks,
    operator: Operator,
    kind: Kind,
    to: u32,
    free: u32,
    a: Operand,
    b: Operand,
    list: &mut Sequence<LowOp>,
) -> Result<(), Memory>
    requires { free + 3 < 2 ^ 32 }
    ensures { OnOk result (list.new ≡ list.old ++ flat (codes.calculate_by (links_of links.now) (codes.way operator kind) operator kind to free a b)) }
{
    match operator {
        Operator::Add | Operator::Sub => {
            push_sum(alloc, links, operator, kind, to, free, a, b, list)
        }
        Operator::Mul => push_product(alloc, links, operator, kind, to, free, a, b, list),
        Operator::Div | Operator::Rem => {
            push_inlined(alloc, links, operator, kind, to, free, a, b, list)
        }
        Operator::Pow => push_call(links, operator, kind, to, a, b, list),
    }
}

fn push_negated(
    alloc: Global,
    links: &ModuleLinks,
    kind: Kind,
    to: u32,
    free: u32,
    a: Operand,
    list: &mut Sequence<LowOp>,
) -> Result<(), Memory>
    requires { free + 3 < 2 ^ 32 }
    ensures { OnOk result (list.new ≡ list.old ++ flat (codes.inline_one to free a (numbers.negate (links_of links.now).traps 1 2 3 4 5 kind))) }
{
    let routine = negate(alloc, 0, links.traps(), kind)?;
    push_one(to, free, a, routine.body.as_slice(), list)
}

fn push_fixed(
    alloc: Global,
    wrapping: Wrapping,
    kind: Kind,
    to: u32,
    free: u32,
    a: Operand,
    b: Operand,
    list: &mut Sequence<LowOp>,
) -> Result<(), Memory>
    requires fixed { IsFixed kind }
    requires room { free + 3 < 2 ^ 32 }
    ensures { OnOk result (list.new ≡ list.old ++ flat (codes.inline_two to free a b (numbers.wrap 2 wrapping kind))) }
{
    let routine = wrap(alloc, 0, wrapping, kind)?;
    push_two(to, free, a, b, routine.body.as_slice(), list)
}

fn push_wrapped(
    alloc: Global,
    wrapping: Wrapping,
    kind: Kind,
    to: u32,
    free: u32,
    a: Operand,
    b: Operand,
    list: &mut Sequence<LowOp>,
) -> Result<(), Memory>
    requires { free + 3 < 2 ^ 32 }
    ensures { OnOk result (list.new ≡ list.old ++ flat (codes.inline_two to free a b (numbers.wrap 2 wrapping kind))) }
{
    match kind {
        Kind::Nat | Kind::Int => Ok(()),
        Kind::Nat8
        | Kind::Nat16
        | Kind::Nat32
        | Kind::Nat64
        | Kind::Int8
        | Kind::Int16
        | Kind::Int32
        | Kind::Int64 => push_fixed(alloc, wrapping, kind, to, free, a, b, list),
    }
}

fn unsigned_test(comparison: Comparison) -> Test
    ensures { result ≡ numbers.unsigned_test comparison }
{
    match comparison {
        Comparison::Less => Test::LtU,
        Comparison::LessOrEqual => Test::LeU,
        Comparison::Greater => Test::GtU,
        Comparison::GreaterOrEqual => Test::GeU,
    }
}

fn signed_test(comparison: Comparison) -> Test
    ensures { result ≡ numbers.signed_test comparison }
{
    match comparison {
        Comparison::Less => Test::LtS,
        Comparison::LessOrEqual => Test::LeS,
        Comparison::Greater => Test::GtS,
        Comparison::GreaterOrEqual => Test::GeS,
    }
}

fn test_of(kind: Kind, comparison: Comparison) -> Test
    ensures { result ≡ numbers.test_of kind comparison }
{
    match kind {
        Kind::Nat64 => unsigned_test(comparison),
        Kind::Nat
        | Kind::Nat8
        | Kind::Nat16
        | Kind::Nat32
        | Kind::Int
        | Kind::Int8
        | Kind::Int16
        | Kind::Int32
        | Kind::Int64 => signed_test(comparison),
    }
}

fn order_test(scalar: Scalar, comparison: Comparison) -> Test
    ensures { result ≡ codes.order_test scalar comparison }
{
    match scalar {
        Scalar::Number(kind) => test_of(kind, comparison),
        Scalar::Bool | Scalar::Char | Scalar::Text | Scalar::Blob => unsigned_test(comparison),
    }
}

// ---- ends

fn push_fails(links: &ModuleLinks, text: &[u8], list: &mut Sequence<LowOp>) -> Result<(), Memory>
    ensures { OnOk result (list.new ≡ list.old ++ flat (codes.fails (links_of links.now) text.now)) }
{
    let address = links.block_address(text)?;
    push_all(
        list,
        &[
            LowOp::Argument(Operand::Word(address)),
            LowOp::Call(None, 23),
        ],
    )
}

fn push_asserts(
    links: &ModuleLinks,
    to: u32,
    free: u32,
    a: Operand,
    list: &mut Sequence<LowOp>,
) -> Result<(), Memory>
    ensures { OnOk result (list.new ≡ list.old ++ flat (codes.asserts (links_of links.now) to free a)) }
{
    let address = links.block_address(b"assertion failed")?;
    push_all(
        list,
        &[
            LowOp::Set(free, Low::IsZero(ValueType::I64, a)),
            LowOp::If(Operand::Local(free)),
            LowOp::Argument(Operand::Word(address)),
            LowOp::Call(None, 23),
            LowOp::Else,
            LowOp::End,
            LowOp::Set(to, Low::Copy(Operand::Long(0))),
        ],
    )
}

fn push_traps_with(
    _links: &ModuleLinks,
    free: u32,
    a: Operand,
    list: &mut Sequence<LowOp>,
) -> Result<(), Memory>
    ensures { OnOk result (list.new ≡ list.old ++ flat (codes.traps_with (links_of _links.now) free a)) }
{
    push_all(
        list,
        &[
            LowOp::Set(free, Low::Convert(Conversion::Wrap, a)),
            LowOp::Argument(Operand::Local(free)),
            LowOp::Call(None, 23),
        ],
    )
}

// ---- blocks

fn push_stores(free: u32, words: &[Operand], list: &mut Sequence<LowOp>) -> Result<(), Memory>
    ensures { OnOk result ((rest : Code) → list.new ++ flat rest ≡ list.old ++ flat (codes.stores free 0 words.now rest)) }
{
    for (place, word) in words.iter().enumerate() {
        let offset = words_offset(place)?;
        list.push(LowOp::Store(StoreKind::I64, Operand::Local(free), offset, *word))?;
    }
    Ok(())
}

// A new block of these words, whose address is the value.
fn push_new_block(
    links: &ModuleLinks,
    to: u32,
    free: u32,
    words: &[Operand],
    list: &mut Sequence<LowOp>,
) -> Result<(), Memory>
    ensures { OnOk result (list.new ≡ list.old ++ flat (codes.new_block (links_of links.now) to free words.now)) }
{
    let size = words_address(words.len())?;
    push_all(
        list,
        &[
            LowOp::Argument(Operand::Word(size)),
            LowOp::Call(Some(free), 22),
        ],
    )?;
    push_stores(free, words, list)?;
    push_all(
        list,
        &[LowOp::Set(to, Low::Convert(Conversion::ExtendU, Operand::Local(free)))],
    )
}

/// A block of these words, or the end for want of memory where there are more than a memory has.
pub(crate) fn push_block(
    links: &ModuleLinks,
    to: u32,
    free: u32,
    words: &[Operand],
    list: &mut Sequence<LowOp>,
) -> Result<(), Memory>
    ensures { OnOk result (list.new ≡ list.old ++ flat (codes.block (links_of links.now) to free words.now)) }
{
    if words.len() < 0x1000_0000 {
        push_new_block(links, to, free, words, list)
    } else {
        push_all(list, &[LowOp::Grow(Operand::Word(65537))])
    }
}

fn sized(alloc: Global, words: &[Operand]) -> Result<Vec<Operand>, Memory>
    ensures { IfOk result (λ all. all.items ≡ low.Long (pos (length words.now)) ∷ words.now) }
{
    let Ok(count) = u32::try_from(words.len()) else {
        return Err(Memory);
    };
    let mut all = Vec::new(alloc);
    all.push(Operand::Long(count as i64))?;
    all.extend_from_slice(words)?;
    Ok(all)
}

fn push_tuple(
    alloc: Global,
    links: &ModuleLinks,
    to: u32,
    free: u32,
    words: &[Operand],
    list: &mut Sequence<LowOp>,
) -> Result<(), Memory>
    ensures { OnOk result (list.new ≡ list.old ++ flat (codes.tuple (links_of links.now) to free words.now)) }
{
    if words.is_empty() {
        push_unit(to, list)
    } else {
        let all = sized(alloc, words)?;
        push_block(links, to, free, &all, list)
    }
}

// ---- all of them

fn push_without(
    links: &ModuleLinks,
    operation: &Operation,
    to: u32,
    list: &mut Sequence<LowOp>,
) -> Result<(), Memory>
    ensures { (free : ℕ) → OnOk result (list.new ≡ list.old ++ flat (codes.operation_of (links_of links.now) operation.now to free [])) }
{
    match operation {
        Operation::MakeTuple => push_unit(to, list),
        Operation::Fail(text) => push_fails(links, text.as_slice(), list),
        Operation::Arithmetic(_, _)
        | Operation::Wrap(_, _)
        | Operation::Negate(_)
        | Operation::Compare(_, _)
        | Operation::Same(_)
        | Operation::Equal(_)
        | Operation::Unequal(_)
        | Operation::Not
        | Operation::Assert
        | Operation::Concat
        | Operation::TextSize
        | Operation::ToText(_)
        | Operation::MakeOption
        | Operation::MakeTag(_)
        | Operation::MakeArray
        | Operation::MakeObject(_)
        | Operation::Project(_)
        | Operation::Field(_)
        | Operation::Element
        | Operation::ArraySize
        | Operation::Method(_)
        | Operation::PrincipalOf
        | Operation::RejectError
        | Operation::Message
        | Operation::Code
        | Operation::Trap => Ok(()),
    }
}

fn push_unary(
    alloc: Global,
    links: &ModuleLinks,
    operation: &Operation,
    to: u32,
    free: u32,
    a: Operand,
    list: &mut Sequence<LowOp>,
) -> Result<(), Memory>
    requires { free + 3 < 2 ^ 32 }
    ensures { OnOk result (list.new ≡ list.old ++ flat (codes.operation_of (links_of links.now) operation.now to free (a ∷ []))) }
{
    match operation {
        Operation::Negate(kind) => push_negated(alloc, links, *kind, to, free, a, list),
        Operation::Not => push_negates(to, free, a, list),
        Operation::Assert => push_asserts(links, to, free, a, list),
        Operation::MakeTuple => push_tuple(alloc, links, to, free, &[a], list),
        Operation::MakeOption => push_block(links, to, free, &[a], list),
        Operation::MakeTag(label) => {
            let tag = Operand::Long(label_id(label.as_slice()) as i64);
            push_block(links, to, free, &[tag, a], list)
        }
        Operation::Project(place) => push_loads(to, free, 1 + *place as usize, a, list),
        Operation::Trap => push_traps_with(links, free, a, list),
        Operation::Arithmetic(_, _)
        | Operation::Wrap(_, _)
        | Operation::Compare(_, _)
        | Operation::Same(_)
        | Operation::Equal(_)
        | Operation::Unequal(_)
        | Operation::Concat
        | Operation::TextSize
        | Operation::ToText(_)
        | Operation::MakeArray
        | Operation::MakeObject(_)
        | Operation::Field(_)
        | Operation::Element
        | Operation::ArraySize
        | Operation::Method(_)
        | Operation::PrincipalOf
        | Operation::RejectError
        | Operation::Message
        | Operation::Code
        | Operation::Fail(_) => Ok(()),
    }
}

fn push_binary(
    alloc: Global,
    links: &ModuleLinks,
    operation: &Operation,
    to: u32,
    free: u32,
    a: Operand,
    b: Operand,
    list: &mut Sequence<LowOp>,
) -> Result<(), Memory>
    requires { free + 3 < 2 ^ 32 }
    ensures { OnOk result (list.new ≡ list.old ++ flat (codes.operation_of (links_of links.now) operation.now to free (a ∷ b ∷ []))) }
{
    match operation {
        Operation::Arithmetic(operator, kind) => {
            push_calculated(alloc, links, *operator, *kind, to, free, a, b, list)
        }
        Operation::Wrap(wrapping, kind) => {
            push_wrapped(alloc, *wrapping, *kind, to, free, a, b, list)
        }
        Operation::Compare(comparison, scalar) => {
            push_tells(order_test(*scalar, *comparison), to, free, a, b, list)
        }
        Operation::Same(_) | Operation::Equal(_) => push_tells(Test::Eq, to, free, a, b, list),
        Operation::Unequal(_) => push_tells(Test::Ne, to, free, a, b, list),
        Operation::MakeTuple => push_tuple(alloc, links, to, free, &[a, b], list),
        Operation::Negate(_)
        | Operation::Not
        | Operation::Assert
        | Operation::Concat
        | Operation::TextSize
        | Operation::ToText(_)
        | Operation::MakeOption
        | Operation::MakeTag(_)
        | Operation::MakeArray
        | Operation::MakeObject(_)
        | Operation::Project(_)
        | Operation::Field(_)
        | Operation::Element
        | Operation::ArraySize
        | Operation::Method(_)
        | Operation::PrincipalOf
        | Operation::RejectError
        | Operation::Message
        | Operation::Code
        | Operation::Trap
        | Operation::Fail(_) => Ok(()),
    }
}

fn push_many(
    alloc: Global,
    links: &ModuleLinks,
    operation: &Operation,
    to: u32,
    free: u32,
    operands: &[Operand],
    list: &mut Sequence<LowOp>,
) -> Result<(), Memory>
    requires { 2 < length operands.now }
    ensures { OnOk result (list.new ≡ list.old ++ flat (codes.operation_of (links_of links.now) operation.now to free operands.now)) }
{
    match operation {
        Operation::MakeTuple => push_tuple(alloc, links, to, free, operands, list),
        Operation::Arithmetic(_, _)
        | Operation::Wrap(_, _)
        | Operation::Negate(_)
        | Operation::Compare(_, _)
        | Operation::Same(_)
        | Operation::Equal(_)
        | Operation::Unequal(_)
        | Operation::Not
        | Operation::Assert
        | Operation::Concat
        | Operation::TextSize
        | Operation::ToText(_)
        | Operation::MakeOption
        | Operation::MakeTag(_)
        | Operation::MakeArray
        | Operation::MakeObject(_)
        | Operation::Project(_)
        | Operation::Field(_)
        | Operation::Element
        | Operation::ArraySize
        | Operation::Method(_)
        | Operation::PrincipalOf
        | Operation::RejectError
        | Operation::Message
        | Operation::Code
        | Operation::Trap
        | Operation::Fail(_) => Ok(()),
    }
}

/// The code of an operation on operands.
pub(crate) fn push_operation(
    alloc: Global,
    links: &ModuleLinks,
    operation: &Operation,
    to: u32,
    free: u32,
    operands: &[Operand],
    list: &mut Sequence<LowOp>,
) -> Result<(), Memory>
    requires { free + 3 < 2 ^ 32 }
    ensures { OnOk result (list.new ≡ list.old ++ flat (codes.operation_of (links_of links.now) operation.now to free operands.now)) }
{
    match operands {
        [] => push_without(links, operation, to, list),
        [a] => push_unary(alloc, links, operation, to, free, *a, list),
        [a, b] => push_binary(alloc, links, operation, to, free, *a, *b, list),
        _ => push_many(alloc, links, operation, to, free, operands, list),
    }
}
