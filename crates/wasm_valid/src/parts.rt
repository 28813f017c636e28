//! The checks of a module besides its functions (WebAssembly Core 1.0, section 3.4).
ghost use Rattle.std.specs.Prelude.{◌≡◌, cond, true, false};
ghost use Rattle.wasm_valid.specs.Verdict.{Verdict, Sees};
ghost use Rattle.wasm_valid.specs.Parts.{each, max_within, within, table_check, memory_check, type_check, constant_plain, is_constant, global_check, import_kind_check, import_check, is_plain, entry_check, is_there, is_visible, is_method, is_entry_name, export_entry_check, export_check, start_check, index_check, element_check, data_check, size_check, stores_check, parts_check};

use crate::body::{type_of, type_with};
use crate::check::{Check, FunctionIndex, Itself, Table, check_each};
use crate::fault::Fault;
use crate::host::is_known;
use crate::operands::{require, same};
use wasm_tree::{
    DataSegment, ElementSegment, Export, ExportKind, FunctionType, Global, Import, ImportKind,
    Limits, Module, Op, Plain, Rule, ValueType,
};

/// The number of functions of a module, imported ones counted, that the profile admits.
pub const MOST_FUNCTIONS: usize = 100_000;

/// The number of globals of a module that the profile admits.
pub const MOST_GLOBALS: usize = 10_000;

/// The number of entries of a table that the profile admits at first.
pub const MOST_ENTRIES: u32 = 100_000;

/// The greatest number of pages of a memory.
pub const MOST_PAGES: u32 = 65_536;

fn max_within(bound: u32, min: u32, max: Option<u32>) -> bool
    ensures { result ≡ max_within bound min max }
{
    match max {
        None => true,
        Some(max) => min <= max && max <= bound,
    }
}

fn within_bound(bound: u32, limits: &Limits) -> bool
    ensures { result ≡ within bound limits.now }
{
    limits.min <= bound && max_within(bound, limits.min, limits.max)
}

impl Check<Table> for Limits {
    ghost use Rattle.wasm_valid.specs.Parts.{table_check};

    ghost checked = { λ m indices l next. table_check l next };

    fn check(&self, _within: &Module, _indices: &[u32]) -> Result<(), Fault> {
        require(Rule::Table, within_bound(u32::MAX, self))?;
        require(Rule::Size, self.min <= MOST_ENTRIES)?;
        Ok(())
    }
}

impl Check<Itself> for Limits {
    ghost use Rattle.wasm_valid.specs.Parts.{memory_check};

    ghost checked = { λ m indices l next. memory_check l next };

    fn check(&self, _within: &Module, _indices: &[u32]) -> Result<(), Fault> {
        require(Rule::Memory, within_bound(MOST_PAGES, self))
    }
}

impl Check<Itself> for FunctionType {
    ghost use Rattle.wasm_valid.specs.Parts.{type_check};

    ghost checked = { λ m indices t next. type_check t next };

    fn check(&self, _within: &Module, _indices: &[u32]) -> Result<(), Fault> {
        require(Rule::Result, self.results.len() <= 1)
    }
}

fn constant_plain(kind: ValueType, plain: Plain) -> bool
    ensures { result ≡ constant_plain kind plain }
{
    match plain {
        Plain::I32Const(_) => same(kind, ValueType::I32),
        Plain::I64Const(_) => same(kind, ValueType::I64),
        _ => false,
    }
}

/// Whether the initialiser is a constant of this type.
fn is_constant(kind: ValueType, ops: &[Op]) -> bool
    ensures { result ≡ is_constant kind ops.now }
{
    match ops {
        [Op::Plain(plain)] => constant_plain(kind, *plain),
        _ => false,
    }
}

impl Check<Itself> for Global {
    ghost use Rattle.wasm_valid.specs.Parts.{global_check};

    ghost checked = { λ m indices g next. global_check g next };

    fn check(&self, _within: &Module, _indices: &[u32]) -> Result<(), Fault> {
        require(
            Rule::Constant,
            is_constant(self.kind.kind, self.init.as_slice()),
        )
    }
}

fn is_plain(signature: &FunctionType) -> bool
    ensures { result ≡ is_plain signature.now }
{
    signature.params.is_empty() && signature.results.is_empty()
}

/// A function that the host enters is from nothing to nothing.
fn check_start(function: u32, within: &Module, indices: &[u32]) -> Result<(), Fault>
    ensures { (rest : Verdict) → Sees result (entry_check within.now indices.now true function rest) (λ _. rest) }
{
    let signature = type_of(within, indices, function)?;
    require(Rule::Start, is_plain(signature))?;
    Ok(())
}

/// A function that the host enters is from nothing to nothing.
fn check_entry(function: u32, within: &Module, indices: &[u32]) -> Result<(), Fault>
    ensures { (rest : Verdict) → Sees result (entry_check within.now indices.now false function rest) (λ _. rest) }
{
    let signature = type_of(within, indices, function)?;
    require(Rule::Export, is_plain(signature))?;
    Ok(())
}

fn check_export_entry(kind: ExportKind, within: &Module, indices: &[u32]) -> Result<(), Fault>
    ensures { (rest : Verdict) → Sees result (export_entry_check within.now indices.now kind rest) (λ _. rest) }
{
    match kind {
        ExportKind::Function(function) => check_entry(function, within, indices),
        _ => Err(Fault::Broken(Rule::Export)),
    }
}

fn is_visible(bytes: &[u8]) -> bool
    ensures { result ≡ is_visible bytes.now }
{
    for byte in bytes {
        if *byte < 33 || *byte > 126 {
            return false;
        }
    }
    true
}

/// Whether some visible bytes follow these ones.
fn is_method(front: &[u8], name: &[u8]) -> bool
    ensures { result ≡ is_method front.now name.now }
{
    if front.len() >= name.len() {
        return false;
    }
    let head = &name[..front.len()];
    let rest = &name[front.len()..];
    head == front && is_visible(rest)
}

/// Whether the host enters by this name.
fn is_entry_name(name: &[u8]) -> bool
    ensures { result ≡ is_entry_name name.now }
{
    name == b"canister_init".as_slice()
        || name == b"canister_pre_upgrade".as_slice()
        || name == b"canister_post_upgrade".as_slice()
        || is_method(b"canister_update ", name)
        || is_method(b"canister_query ", name)
}

impl Check<Itself> for Export {
    ghost use Rattle.wasm_valid.specs.Parts.{export_check};

    ghost checked = { λ m indices e next. export_check m indices e next };

    fn check(&self, within: &Module, indices: &[u32]) -> Result<(), Fault> {
        require(Rule::Index, is_there(self.kind, within, indices))?;
        if is_entry_name(self.name.as_slice()) {
            return check_export_entry(self.kind, within, indices);
        }
        Ok(())
    }
}

fn check_import_kind(name: &[u8], kind: ImportKind, within: &Module) -> Result<(), Fault>
    ensures { (rest : Verdict) → Sees result (import_kind_check within.now name.now kind rest) (λ _. rest) }
{
    match kind {
        ImportKind::Function(signature) => {
            let signature = type_with(within, signature)?;
            require(Rule::Import, is_known(name, signature))?;
            Ok(())
        }
        _ => Err(Fault::Broken(Rule::Import)),
    }
}

impl Check<Itself> for Import {
    ghost use Rattle.wasm_valid.specs.Parts.{import_check};

    ghost checked = { λ m indices i next. import_check m i next };

    fn check(&self, within: &Module, _indices: &[u32]) -> Result<(), Fault> {
        require(Rule::Import, self.module.as_slice() == b"ic0".as_slice())?;
        check_import_kind(self.name.as_slice(), self.kind, within)?;
        Ok(())
    }
}

fn is_there(kind: ExportKind, within: &Module, indices: &[u32]) -> bool
    ensures { result ≡ is_there within.now indices.now kind }
{
    match kind {
        ExportKind::Function(function) => (function as usize) < indices.len(),
        ExportKind::Table(table) => (table as usize) < within.tables.len(),
        ExportKind::Memory(memory) => (memory as usize) < within.memories.len(),
        ExportKind::Global(global) => (global as usize) < within.globals.len(),
    }
}

impl Check<FunctionIndex> for u32 {
    ghost use Rattle.wasm_valid.specs.Parts.{index_check};

    ghost checked = { λ m indices f next. index_check indices f next };

    fn check(&self, _within: &Module, indices: &[u32]) -> Result<(), Fault> {
        require(Rule::Index, (*self as usize) < indices.len())
    }
}

fn check_functions(functions: &[u32], within: &Module, indices: &[u32]) -> Result<(), Fault>
    ensures { (rest : Verdict) → Sees result (each (index_check indices.now) functions.now rest) (λ _. rest) }
{
    check_each::<FunctionIndex, u32>(functions, within, indices)
}

impl Check<Itself> for ElementSegment {
    ghost use Rattle.wasm_valid.specs.Parts.{element_check};

    ghost checked = { λ m indices s next. element_check m indices s next };

    fn check(&self, within: &Module, indices: &[u32]) -> Result<(), Fault> {
        require(Rule::Index, (self.table as usize) < within.tables.len())?;
        require(
            Rule::Constant,
            is_constant(ValueType::I32, self.offset.as_slice()),
        )?;
        check_functions(self.functions.as_slice(), within, indices)?;
        Ok(())
    }
}

impl Check<Itself> for DataSegment {
    ghost use Rattle.wasm_valid.specs.Parts.{data_check};

    ghost checked = { λ m indices s next. data_check m s next };

    fn check(&self, within: &Module, _indices: &[u32]) -> Result<(), Fault> {
        require(Rule::Index, (self.memory as usize) < within.memories.len())?;
        require(
            Rule::Constant,
            is_constant(ValueType::I32, self.offset.as_slice()),
        )?;
        Ok(())
    }
}

fn check_sizes(within: &Module, indices: &[u32]) -> Result<(), Fault>
    ensures { (rest : Verdict) → Sees result (size_check within.now indices.now rest) (λ _. rest) }
{
    require(Rule::Size, indices.len() <= MOST_FUNCTIONS)?;
    require(Rule::Size, within.globals.len() <= MOST_GLOBALS)?;
    Ok(())
}

fn check_tables(tables: &[Limits], within: &Module, indices: &[u32]) -> Result<(), Fault>
    ensures { (rest : Verdict) → Sees result (each (table_check) tables.now rest) (λ _. rest) }
{
    check_each::<Table, Limits>(tables, within, indices)
}

fn check_memories(memories: &[Limits], within: &Module, indices: &[u32]) -> Result<(), Fault>
    ensures { (rest : Verdict) → Sees result (each (memory_check) memories.now rest) (λ _. rest) }
{
    check_each::<Itself, Limits>(memories, within, indices)
}

fn check_globals(globals: &[Global], within: &Module, indices: &[u32]) -> Result<(), Fault>
    ensures { (rest : Verdict) → Sees result (each (global_check) globals.now rest) (λ _. rest) }
{
    check_each::<Itself, Global>(globals, within, indices)
}

fn check_types(types: &[FunctionType], within: &Module, indices: &[u32]) -> Result<(), Fault>
    ensures { (rest : Verdict) → Sees result (each (type_check) types.now rest) (λ _. rest) }
{
    check_each::<Itself, FunctionType>(types, within, indices)
}

fn check_elements(
    elements: &[ElementSegment],
    within: &Module,
    indices: &[u32],
) -> Result<(), Fault>
    ensures { (rest : Verdict) → Sees result (each (element_check within.now indices.now) elements.now rest) (λ _. rest) }
{
    check_each::<Itself, ElementSegment>(elements, within, indices)
}

fn check_segments(segments: &[DataSegment], within: &Module, indices: &[u32]) -> Result<(), Fault>
    ensures { (rest : Verdict) → Sees result (each (data_check within.now) segments.now rest) (λ _. rest) }
{
    check_each::<Itself, DataSegment>(segments, within, indices)
}

fn check_imports(imports: &[Import], within: &Module, indices: &[u32]) -> Result<(), Fault>
    ensures { (rest : Verdict) → Sees result (each (import_check within.now) imports.now rest) (λ _. rest) }
{
    check_each::<Itself, Import>(imports, within, indices)
}

fn check_exports(exports: &[Export], within: &Module, indices: &[u32]) -> Result<(), Fault>
    ensures { (rest : Verdict) → Sees result (each (export_check within.now indices.now) exports.now rest) (λ _. rest) }
{
    check_each::<Itself, Export>(exports, within, indices)
}

fn check_stores(within: &Module, indices: &[u32]) -> Result<(), Fault>
    ensures { (rest : Verdict) → Sees result (stores_check within.now rest) (λ _. rest) }
{
    require(Rule::Table, within.tables.len() <= 1)?;
    check_tables(within.tables.as_slice(), within, indices)?;
    require(Rule::Memory, within.memories.len() <= 1)?;
    check_memories(within.memories.as_slice(), within, indices)?;
    check_globals(within.globals.as_slice(), within, indices)?;
    Ok(())
}

fn check_entered(start: Option<u32>, within: &Module, indices: &[u32]) -> Result<(), Fault>
    ensures { (rest : Verdict) → Sees result (start_check within.now indices.now start rest) (λ _. rest) }
{
    match start {
        None => Ok(()),
        Some(function) => check_start(function, within, indices),
    }
}

/// All that is asked besides the functions, but that the names of exports differ.
pub(crate) fn check_parts(within: &Module, indices: &[u32]) -> Result<(), Fault>
    ensures { (rest : Verdict) → Sees result (parts_check within.now indices.now rest) (λ _. rest) }
{
    check_sizes(within, indices)?;
    check_types(within.types.as_slice(), within, indices)?;
    check_imports(within.imports.as_slice(), within, indices)?;
    check_stores(within, indices)?;
    check_exports(within.exports.as_slice(), within, indices)?;
    check_entered(within.start, within, indices)?;
    check_elements(within.elements.as_slice(), within, indices)?;
    check_segments(within.segments.as_slice(), within, indices)?;
    Ok(())
}
