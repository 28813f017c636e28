//! A source of nearly 1 MiB, of functions like those that people write.
use mo_num::{Bytes, Memory};
use std::alloc::Global;

// The most bytes that a source has.
const SIZE: usize = 1_048_576;

const FUNCTION: &[u8] = b"
  // Moves an amount from one account to another.
  public func transfer(from : Text, to : Text, amount : Nat) : async { #ok : Nat; #err : Text } {
    let balance = get(book, from);
    if (balance < amount) return #err \"not enough money\";
    var steps = 0;
    while (steps < 10 and not done) {
      steps += 1;
      total := total * 31 + steps % 7;
    };
    switch (lookup(to)) {
      case null { #err(\"no account \" # to) };
      case (?account) {
        book := put(put(book, from, balance - amount), to, account.balance + amount);
        #ok(balance - amount)
      };
    }
  };
";

/// An actor of as many functions as fit.
pub fn large_source(alloc: Global) -> Result<Bytes, Memory> {
    let mut source = Bytes::from_slice(alloc, b"actor {")?;
    for _ in 0..(SIZE - 16) / FUNCTION.len() {
        source.extend(FUNCTION)?;
    }
    source.extend(b"}\n")?;
    Ok(source)
}
