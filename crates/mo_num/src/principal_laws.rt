//! Laws of the texts of principals. Each function does nothing: its contract is a theorem about the definitions that
//! `principal_read` cites.
ghost use Rattle.std.specs.Prelude.{◌≡◌, List, ℕ};
ghost use Rattle.mo_num.specs.PrincipalText.{IsPrincipal, IsTextOf};

/// Two principals with one text are equal, and a principal has one text.
pub fn principal_text_one()
    ensures principal { (p q text : List ℕ) → IsPrincipal p → IsPrincipal q → IsTextOf p text → IsTextOf q text → p ≡ q }
    ensures text { (p s t : List ℕ) → IsTextOf p s → IsTextOf p t → s ≡ t }
{}

/// Every principal has a text.
pub fn principal_text_some()
    ensures { (p : List ℕ) → IsPrincipal p → (text : List ℕ) × IsTextOf p text }
{}
