//! The first words of a list.
ghost use Rattle.std.specs.Prelude.{◌≡◌, ◌∷◌, ◌<◌, List, ℕ, IfSome, IfNone, map, string_bytes, length};

/// The first word, and those behind it.
pub(crate) fn split_one(words: &[String]) -> Option<(&str, &[String])>
    ensures found { IfSome result (λ f. map string_bytes words.now ≡ f.0.now ∷ map string_bytes f.1.now) }
    ensures none { IfNone result ((a : List ℕ) → (rest : List (List ℕ)) → map string_bytes words.now ≡ a ∷ rest → ⊥) }
    ensures shorter { IfSome result (λ f. length f.1.now < length words.now) }
{
    match words {
        [first, rest @ ..] => Some((first.as_str(), rest)),
        _ => None,
    }
}

/// The first two words, and those behind them.
pub(crate) fn split_two(words: &[String]) -> Option<(&str, &str, &[String])>
    ensures found { IfSome result (λ f. map string_bytes words.now ≡ f.0.now ∷ f.1.now ∷ map string_bytes f.2.now) }
    ensures none { IfNone result ((a b : List ℕ) → (rest : List (List ℕ)) → map string_bytes words.now ≡ a ∷ b ∷ rest → ⊥) }
    ensures shorter { IfSome result (λ f. length f.2.now < length words.now) }
{
    let Some((first, others)) = split_one(words) else {
        return None;
    };
    match split_one(others) {
        Some((second, rest)) => Some((first, second, rest)),
        None => None,
    }
}
