//! Classes of bytes, and the longest front of a text that is of one class.
ghost use Rattle.std.specs.Prelude.{◌≡◌, ◌≤◌, length};
ghost use Rattle.std.specs.List.{prefix_len};
ghost use Rattle.mo_syntax.specs.Characters as bytes;
ghost use Rattle.std.specs.Char.{digit_value as value_of_digit};
ghost use Rattle.mo_lexer.specs.Reading.{is_in};

/// A class of bytes that runs on to the first byte outside.
#[derive(Clone, Copy, Debug, PartialEq, Eq)]
pub enum Class {
    /// Letters, digits and `_`.
    Name,
    /// Hexadecimal digits.
    Hexadecimal,
    /// All bytes but a newline.
    Line,
}

impl Class {
    fn has(self, byte: u8) -> bool
        ensures { result ≡ is_in self byte }
    {
        match self {
            Class::Name => is_name_byte(byte),
            Class::Hexadecimal => is_digit(16, byte),
            Class::Line => byte != b'\n',
        }
    }

    /// How many bytes at the front are of the class.
    pub fn run_len(self, text: &[u8]) -> usize
        ensures value { result ≡ prefix_len (is_in self) text.now }
        ensures within { result ≤ length text.now }
    {
        let mut len = 0;
        while len < text.len() && self.has(text[len]) {
            len += 1;
        }
        len
    }
}

/// Whether the byte is a space, tab, carriage return or newline.
pub fn is_blank(byte: u8) -> bool
    ensures { result ≡ bytes.is_blank byte }
{
    matches!(byte, b' ' | b'\t' | b'\r' | b'\n')
}

/// Whether a name may begin with the byte.
pub fn is_name_start(byte: u8) -> bool
    ensures { result ≡ bytes.is_name_start byte }
{
    byte.is_ascii_alphabetic() || byte == b'_'
}

fn is_name_byte(byte: u8) -> bool
    ensures { result ≡ bytes.is_name_byte byte }
{
    is_name_start(byte) || byte.is_ascii_digit()
}

/// The value of a digit or letter, and 36 for any other byte.
pub fn digit_value(byte: u8) -> u8
    ensures value { result ≡ value_of_digit byte }
    ensures small { result ≤ 36 }
{
    match byte {
        b'0'..=b'9' => byte - b'0',
        b'A'..=b'Z' => byte - b'A' + 10,
        b'a'..=b'z' => byte - b'a' + 10,
        _ => 36,
    }
}

/// Whether the byte is a digit in the base.
pub fn is_digit(base: u8, byte: u8) -> bool
    ensures { result ≡ bytes.is_digit base byte }
{
    digit_value(byte) < base
}
