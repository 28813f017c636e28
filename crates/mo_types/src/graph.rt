//! Graphs of types.
ghost use Rattle.std.specs.Prelude.{◌++◌, ◌∷◌, ◌≡◌, ◌+◌, ◌<◌, ◌≤◌, [], length, slice_get, slice_set, IfOk, IfErr, OnOk, OnErr, IsSome, IfSome, IfNone, IsTrue, IsFalse, ◌==◌, ◌≢◌, Some, None, ◌⊎◌};
ghost use Rattle.mo_types.specs.Graph.{Defined, Fits, IfTooMany, Interned, Interns, IsAdded, IsNewNode, Open, node_at, memory_fault, node_of, node_of_slot, slot_of, too_many, total};
ghost use Rattle.std.specs.List.{position};
ghost use Rattle.indexmap.specs.IndexMap.{get, keys, set_value_at};
ghost use Rattle.mo_types.specs.Keys.{same_key};
ghost use Rattle.mo_types.specs.Heads.{map_option};
ghost use Rattle.mo_types.specs.Layout.{entries};

use crate::key::Key;
use crate::{Node, TypeId, TypesFault};
use indexmap::IndexMap;
use std::alloc::Global;
use std::marker::Model;

/// The most nodes of a graph.
const MOST_NODES: usize = 4_096;

/// The most fields and parts of a graph.
const MOST_ENTRIES: usize = 65_536;

/// Types by number, which contracts see as the list of what stands under each number.
pub struct TypeGraph {
    slots: IndexMap<Key, Option<Node>>,
    entries: usize,
}

// Written here, so that it is proved here, and not again in each crate that lets a graph go.
impl Drop for TypeGraph {
    fn drop(self) {
        let TypeGraph {
            slots: _slots,
            entries: _entries,
        } = self;
    }
}

impl Model for TypeGraph {
    ghost use Rattle.std.specs.Prelude.{◌++◌, ◌∷◌, List};
    ghost use Rattle.mo_types.specs.Graph.{Slot, Kept, slots_of};

    ghost Value = { List Slot };

    ghost view = { λ g. slots_of g.slots.entries };

    ghost invariant = { λ g. Kept g.slots.entries g.entries };
}

/// The node of an entry.
fn node_in<'a>(key: &'a Key, defined: &'a Option<Node>) -> Option<&'a Node>
    ensures { map_option (λ n. n.now) result ≡ node_of (slot_of (key.now, defined.now)) }
{
    match key {
        Key::Interned(node) => Some(node),
        Key::Fresh(_) => match defined {
            Some(node) => Some(node),
            None => None,
        },
    }
}

/// Whether the entry is of a type that is yet to be defined.
fn is_open_entry(key: &Key, defined: &Option<Node>) -> bool
    ensures open { IsTrue result → slot_of (key.now, defined.now) ≡ Open }
    ensures other { IsFalse result → slot_of (key.now, defined.now) ≢ Open }
{
    match (key, defined) {
        (Key::Fresh(_), None) => true,
        _ => false,
    }
}

/// Where the key stands.
fn place_of(slots: &IndexMap<Key, Option<Node>>, key: &Key) -> Option<usize>
    ensures found { IfSome result (λ i. position (same_key key.now) (keys slots.now) ≡ Some i) }
    ensures missing { IfNone result (get same_key slots.now key.now ≡ None) }
    ensures within { IfSome result (λ i. i < length slots.now.entries) }
{
    slots.get_index_of(key)
}

/// Adds a key that is not there.
fn add(slots: &mut IndexMap<Key, Option<Node>>, key: Key) -> Result<(), TypesFault>
    requires { get same_key slots.old key ≡ None }
    ensures ok { OnOk result (slots.new.entries ≡ slots.old.entries ++ (key, None) ∷ []) }
    ensures err { OnErr result (slots.new.entries ≡ slots.old.entries) }
    ensures memory { IfErr result (λ fault. fault ≡ memory_fault) }
{
    slots.insert(key, None)?;
    Ok(())
}

/// Puts a node at a place.
fn put(slots: &mut IndexMap<Key, Option<Node>>, place: usize, node: Node)
    requires { place < length slots.old.entries }
    ensures { slots.new.entries ≡ set_value_at slots.old.entries place (Some node) }
{
    slots[place] = Some(node);
}

impl TypeGraph {
    /// A graph without types. Takes no memory.
    pub fn new(alloc: Global) -> TypeGraph
        ensures { result ≡ [] }
    {
        TypeGraph {
            slots: IndexMap::new(alloc),
            entries: 0,
        }
    }

    /// How many types there are.
    pub fn len(&self) -> usize
        ensures { result ≡ length self.now }
    {
        self.slots.len()
    }

    /// Whether there are none.
    pub fn is_empty(&self) -> bool
        ensures { result ≡ (length self.now == 0) }
    {
        self.slots.len() == 0
    }

    /// A type that is yet to be defined.
    pub fn fresh(&mut self) -> Result<TypeId, TypesFault>
        ensures ok { IfOk result (λ id. IsAdded self.old Open id self.new) }
        ensures full { IfErr result (λ fault. IfTooMany fault (4096 < length self.old + 1)) }
        ensures err { OnErr result (self.new ≡ self.old) }
    {
        let index = self.slots.len();
        if index >= MOST_NODES {
            return Err(TypesFault::TooManyTypes);
        }
        let index = index as u32;
        add(&mut self.slots, Key::Fresh(index))?;
        Ok(TypeId { index })
    }

    /// The node of the type of this number, where it is defined.
    pub fn get_index(&self, index: usize) -> Option<&Node>
        ensures { map_option (λ n. n.now) result ≡ node_of_slot (slice_get self.now index) }
    {
        match self.slots.get_index(index) {
            Some((key, defined)) => node_in(key, defined),
            None => None,
        }
    }

    /// The node of a type, where it is defined.
    pub fn get(&self, id: TypeId) -> Option<&Node>
        ensures { map_option (λ n. n.now) result ≡ node_at self.now id }
    {
        self.get_index(id.index as usize)
    }

    /// The node of a type that is defined.
    pub fn node(&self, id: TypeId) -> &Node
        requires { IsSome (node_at self.now id) }
        ensures { node_at self.now id ≡ Some result.now }
    {
        match self.get(id) {
            Some(node) => node,
            None => unreachable!(),
        }
    }

    /// Whether `fresh` gave the type and it is not defined yet.
    pub fn is_open(&self, id: TypeId) -> bool
        ensures open { IsTrue result → slice_get self.now id.index ≡ Some Open }
        ensures other { IsFalse result → slice_get self.now id.index ≢ Some Open }
    {
        match self.slots.get_index(id.index as usize) {
            Some((key, defined)) => is_open_entry(key, defined),
            None => false,
        }
    }

    /// Defines a type that `fresh` gave and that is not defined yet. Takes no memory.
    pub fn define(&mut self, id: TypeId, node: Node) -> Result<(), TypesFault>
        requires { slice_get self.old id.index ≡ Some Open }
        ensures ok { OnOk result (self.new ≡ slice_set self.old id.index (Defined node)) }
        ensures fits { OnOk result (total self.old + entries node ≤ 65536) }
        ensures full { IfErr result (λ fault. (fault ≡ too_many) × (65536 < total self.old + entries node)) }
        ensures err { OnErr result (self.new ≡ self.old) }
    {
        let more = node.entries();
        if more > MOST_ENTRIES - self.entries {
            return Err(TypesFault::TooManyTypes);
        }
        put(&mut self.slots, id.index as usize, node);
        self.entries += more;
        Ok(())
    }

    /// The type of a node: the one that an earlier `intern` of an equal node gave, or else a new one.
    pub fn intern(&mut self, node: Node) -> Result<TypeId, TypesFault>
        ensures ok { IfOk result (λ id. Interns self.old node id self.new) }
        ensures full { IfErr result (λ fault. IfTooMany fault ((4096 < length self.old + 1) ⊎ (65536 < total self.old + entries node))) }
        ensures missing { OnErr result (IsNewNode self.old node) }
        ensures err { OnErr result (self.new ≡ self.old) }
    {
        let more = node.entries();
        let key = Key::Interned(node);
        if let Some(index) = place_of(&self.slots, &key) {
            return Ok(TypeId {
                index: index as u32,
            });
        }
        let index = self.slots.len();
        if index >= MOST_NODES || more > MOST_ENTRIES - self.entries {
            return Err(TypesFault::TooManyTypes);
        }
        add(&mut self.slots, key)?;
        self.entries += more;
        Ok(TypeId {
            index: index as u32,
        })
    }
}
