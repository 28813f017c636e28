//! What the program ends with where something fails.
use std::io;
use std::io::ErrorKind;

/// Memory is lacking.
pub fn lacking() -> io::Error {
    io::Error::from(ErrorKind::OutOfMemory)
}

/// An input is no valid module.
pub fn invalid() -> io::Error {
    io::Error::from(ErrorKind::InvalidData)
}
