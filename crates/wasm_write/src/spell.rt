//! How parts are spelled one after another, each in its shortest spelling.
ghost use Rattle.std.specs.Prelude.{◌≡◌, List, ℕ, ◌<◌, ◌^◌, [], ◌∷◌, length, OnOk};
ghost use Rattle.wasm_tree.specs.Spelling.{AppendsLeast, HasSpelling, IsU32, IsS32, IsS64, IsVector, IsEach, IsSized, IsSection, IsVectorSection, IsByteVector, IsByte, Exactly, Then};

use mo_num::{Bytes, Memory, Sequence, leb_write, sleb_write};
use std::alloc::Global;

/// A part that is spelled as itself.
pub(crate) struct Itself;

/// A function that is spelled as its signature alone.
pub(crate) struct Signature;

/// Limits that are spelled as those of a table.
pub(crate) struct Table;

/// A part of a module that has a spelling, in this role.
pub(crate) trait Spell<Role> {
    ghost spelled: { Self → List ℕ → Type 0 };

    /// Adds the shortest spelling.
    fn put(&self, alloc: Global, out: &mut Bytes) -> Result<(), Memory>
        requires { HasSpelling (spelled self.now) }
        ensures { OnOk result (AppendsLeast (spelled self.now) out.old out.new) };
}

pub(crate) fn put_u32(number: u32, out: &mut Bytes) -> Result<(), Memory>
    ensures { OnOk result (AppendsLeast (IsU32 number) out.old out.new) }
{
    leb_write(number as u128, out)
}

pub(crate) fn put_s32(number: &i32, out: &mut Bytes) -> Result<(), Memory>
    ensures { OnOk result (AppendsLeast (IsS32 number.now) out.old out.new) }
{
    sleb_write(*number as i128, out)
}

pub(crate) fn put_s64(number: &i64, out: &mut Bytes) -> Result<(), Memory>
    ensures { OnOk result (AppendsLeast (IsS64 number.now) out.old out.new) }
{
    sleb_write(*number as i128, out)
}

pub(crate) fn put_exactly(bytes: &[u8], out: &mut Bytes) -> Result<(), Memory>
    ensures { OnOk result (AppendsLeast (Exactly bytes.now) out.old out.new) }
{
    out.extend(bytes)
}

/// A byte that says what kind of thing the index counts, and the index.
pub(crate) fn put_index(kind: u8, index: u32, out: &mut Bytes) -> Result<(), Memory>
    ensures { OnOk result (AppendsLeast (Then (IsByte kind) (IsU32 index)) out.old out.new) }
{
    put_exactly(&[kind], out)?;
    put_u32(index, out)?;
    Ok(())
}

fn put_list<Role, T: Spell<Role>>(alloc: Global, items: &[T], out: &mut Bytes) -> Result<(), Memory>
    requires { HasSpelling (IsEach T.spelled items.now) }
    ensures { OnOk result (AppendsLeast (IsEach T.spelled items.now) out.old out.new) }
{
    for item in items {
        item.put(alloc, out)?;
    }
    Ok(())
}

/// Each item in turn.
pub(crate) fn put_each<Role, T: Spell<Role>>(
    alloc: Global,
    items: &Sequence<T>,
    out: &mut Bytes,
) -> Result<(), Memory>
    requires { HasSpelling (IsEach T.spelled items.now) }
    ensures { OnOk result (AppendsLeast (IsEach T.spelled items.now) out.old out.new) }
{
    put_list(alloc, items.as_slice(), out)
}

/// How many items there are, and each in turn.
pub(crate) fn put_vector<Role, T: Spell<Role>>(
    alloc: Global,
    items: &Sequence<T>,
    out: &mut Bytes,
) -> Result<(), Memory>
    requires { HasSpelling (IsVector T.spelled items.now) }
    ensures { OnOk result (AppendsLeast (IsVector T.spelled items.now) out.old out.new) }
{
    put_u32(items.len() as u32, out)?;
    put_each(alloc, items, out)?;
    Ok(())
}

/// How many bytes there are, and the bytes.
pub(crate) fn put_bytes(these: &Bytes, out: &mut Bytes) -> Result<(), Memory>
    requires { HasSpelling (IsByteVector these.now) }
    ensures { OnOk result (AppendsLeast (IsByteVector these.now) out.old out.new) }
{
    put_u32(these.len() as u32, out)?;
    put_exactly(these.as_slice(), out)?;
    Ok(())
}

/// The number of bytes of the contents, and the contents.
pub(crate) fn put_sized(contents: &Bytes, out: &mut Bytes) -> Result<(), Memory>
    requires { length contents.now < 2 ^ 32 }
    ensures { OnOk result (AppendsLeast (IsSized (Exactly contents.now)) out.old out.new) }
{
    put_u32(contents.len() as u32, out)?;
    put_exactly(contents.as_slice(), out)?;
    Ok(())
}

/// The number of the section, its size, and its contents.
pub(crate) fn put_section(number: u8, contents: &Bytes, out: &mut Bytes) -> Result<(), Memory>
    requires { length contents.now < 2 ^ 32 }
    ensures { OnOk result (AppendsLeast (IsSection number (Exactly contents.now)) out.old out.new) }
{
    put_exactly(&[number], out)?;
    put_sized(contents, out)?;
    Ok(())
}

/// The section of a vector, which is left out where there are no items.
pub(crate) fn put_vector_section<Role, T: Spell<Role>>(
    alloc: Global,
    number: u8,
    items: &Sequence<T>,
    out: &mut Bytes,
) -> Result<(), Memory>
    requires { HasSpelling (IsVectorSection number T.spelled items.now) }
    ensures { OnOk result (AppendsLeast (IsVectorSection number T.spelled items.now) out.old out.new) }
{
    if items.is_empty() {
        return Ok(());
    }
    let mut contents = Bytes::new(alloc);
    put_vector(alloc, items, &mut contents)?;
    put_section(number, &contents, out)?;
    Ok(())
}
