//! The parts of a low module. Functions and types are numbered with those of the host's interface first, in its order.
use crate::LowOp;
use mo_num::{Bytes, Sequence};
use wasm_tree::{FunctionType, ValueType};

/// A function: the number of its type, its locals besides the parameters, each 0 at first, and its body.
#[derive(Drop)]
pub struct LowFunction {
    pub signature: u32,
    pub locals: Sequence<ValueType>,
    pub body: Sequence<LowOp>,
}

/// A global with what it is at first.
#[derive(Clone, Copy)]
pub enum LowGlobal {
    Word(i32),
    Long(i64),
}

/// A function that the host may enter, by its name.
#[derive(Drop)]
pub struct LowExport {
    pub name: Bytes,
    pub function: u32,
}

/// A module.
pub struct LowModule {
    /// The types besides those of the host's functions.
    pub types: Sequence<FunctionType>,
    /// The functions besides the host's.
    pub functions: Sequence<LowFunction>,
    /// The functions that indirect calls find.
    pub table: Sequence<u32>,
    pub globals: Sequence<LowGlobal>,
    /// The pages of the memory at first.
    pub pages: u32,
    /// What the memory begins with; its other bytes are 0.
    pub bytes: Bytes,
    pub exports: Sequence<LowExport>,
}

// Written here, so that it is proved here, and not again in each crate that lets a module go.
impl Drop for LowModule {
    fn drop(self) {
        let LowModule {
            types: _types,
            functions: _functions,
            table: _table,
            globals: _globals,
            pages: _pages,
            bytes: _bytes,
            exports: _exports,
        } = self;
    }
}
