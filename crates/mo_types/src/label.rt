//! The numbers of labels on the wire.
ghost use Rattle.std.specs.Prelude.{◌≡◌};
ghost use Rattle.mo_types.specs.Label.{label_id};

/// The number that stands for a label in Candid: Candid specification, section "Shorthand: Symbolic Field Ids".
pub fn label_id(label: &[u8]) -> u32
    ensures { result ≡ label_id label.now }
{
    let mut id: u64 = 0;
    for byte in label {
        id = (id * 223 + *byte as u64) % 0x1_0000_0000;
    }
    id as u32
}
