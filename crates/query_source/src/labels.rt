//! The ids of labels. Candid specification, section Shorthand: Symbolic Field Ids.
ghost use Rattle.std.specs.Prelude.{◌≡◌, ◌≢◌, ◌↔◌, IsTrue};
ghost use Rattle.std.specs.List.{AllPairs};
ghost use Rattle.query_source.specs.Labels.{label_id};

use crate::query::Method;

/// The Candid id of the label.
pub fn label_id(name: &[u8]) -> u32
    ensures { result ≡ label_id name.now }
{
    let mut id: u64 = 0;
    for byte in name {
        id = (id * 223 + *byte as u64) % (1 << 32);
    }
    id as u32
}

/// No two of the names have one id, so that no two are equal either.
pub fn have_distinct_ids(methods: &[Method]) -> bool
    ensures { IsTrue result ↔ AllPairs (λ m n. label_id m.name ≢ label_id n.name) methods.now }
{
    for later in 0..methods.len() {
        let id = label_id(methods[later].name.as_slice());
        for earlier in 0..later {
            if label_id(methods[earlier].name.as_slice()) == id {
                return false;
            }
        }
    }
    true
}
