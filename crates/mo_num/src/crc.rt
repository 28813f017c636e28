//! The checksum CRC-32.
ghost use Rattle.std.specs.Prelude.{◌≡◌, ◌<◌, List, Bool, ◌∷◌, ◌++◌};
ghost use Rattle.mo_num.specs.Crc.{bits, remainder, crc32_of};

/// The checksum of the bytes: ISO 3309, ITU-T V.42.
pub fn crc32(bytes: &[u8]) -> u32
    ensures { result ≡ crc32_of bytes.now }
{
    let mut register = 0xffff_ffff;
    for byte in bytes {
        register = after_byte(register, *byte);
    }
    !register
}

// The lowest bit of the register stands for the highest power.
fn after_byte(register: u32, byte: u8) -> u32
    ensures { (more : List Bool) → remainder (bits 32 register) (bits 8 byte ++ more) ≡ remainder (bits 32 result) more }
{
    let register = after_bit(register, byte % 2 == 1);
    let register = after_bit(register, byte / 2 % 2 == 1);
    let register = after_bit(register, byte / 4 % 2 == 1);
    let register = after_bit(register, byte / 8 % 2 == 1);
    let register = after_bit(register, byte / 16 % 2 == 1);
    let register = after_bit(register, byte / 32 % 2 == 1);
    let register = after_bit(register, byte / 64 % 2 == 1);
    after_bit(register, byte / 128 % 2 == 1)
}

fn after_bit(register: u32, bit: bool) -> u32
    ensures { (more : List Bool) → remainder (bits 32 register) (bit ∷ more) ≡ remainder (bits 32 result) more }
{
    if (register % 2 == 1) == bit {
        register / 2
    } else {
        register / 2 ^ 0xedb8_8320
    }
}
