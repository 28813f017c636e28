//! Laws of the LEB128 writers and readers. Each function does nothing: its contract is a theorem about the definitions
//! that the writers' and readers' contracts cite.
ghost use Rattle.std.specs.Prelude.{◌≡◌, ℕ, ◌-◌, ◌^◌, ◌<◌, ◌≤◌, List, ◌++◌, length, drop, ℤ, Result};
ghost use Rattle.mo_num.specs.declared.leb_reader.LebFault.{LebFault};
ghost use Rattle.mo_num.specs.Leb.{IsLeb, IsSleb, AppendsLeb, AppendsSleb};
ghost use Rattle.mo_num.specs.LebRead.{ReadsLeb, ReadsSleb, IsSigned};

/// What `leb_write` appends, `leb_read` reads back with its length, whatever follows.
pub fn leb_round_trip()
    ensures { (bits value : ℕ) (old new rest : List ℕ) → 1 ≤ bits → value < 2 ^ bits → AppendsLeb old new value → ReadsLeb bits (drop (length old) new ++ rest) (Ok (value, length new - length old)) }
{}

/// What `sleb_write` appends, `sleb_read` reads back with its length, whatever follows.
pub fn sleb_round_trip()
    ensures { (bits : ℕ) (value : ℤ) (old new rest : List ℕ) → 1 ≤ bits → IsSigned bits value → AppendsSleb old new value → ReadsSleb bits (drop (length old) new ++ rest) (Ok (value, length new - length old)) }
{}

/// Bytes spell one unsigned number, and reading has one answer: so a number that fits is read wherever it stands, and
/// no two of the answers `Ok`, `Short` and `TooWide` are right at once.
pub fn leb_one_answer()
    ensures value { (bytes : List ℕ) (n m : ℕ) → IsLeb bytes n → IsLeb bytes m → n ≡ m }
    ensures answer { (bits : ℕ) (bytes : List ℕ) (x y : Result (ℕ × ℕ) LebFault) → ReadsLeb bits bytes x → ReadsLeb bits bytes y → x ≡ y }
{}

/// The same of signed numbers.
pub fn sleb_one_answer()
    ensures value { (bytes : List ℕ) (n m : ℤ) → IsSleb bytes n → IsSleb bytes m → n ≡ m }
    ensures answer { (bits : ℕ) (bytes : List ℕ) (x y : Result (ℤ × ℕ) LebFault) → ReadsSleb bits bytes x → ReadsSleb bits bytes y → x ≡ y }
{}
