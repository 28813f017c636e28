//! Words and lines of a text.
ghost use Rattle.std.specs.Prelude.{◌≡◌, ◌≢◌, ◌∷◌, ◌<◌, ◌≤◌, [], List, ℕ, IfSome, IfNone, length, slice_index};
ghost use Rattle.std.specs.Option.{option_copied};
ghost use Rattle.play_script.specs.Words.{words_of, words_behind, lines_of};

/// The place of the first such byte, or the text's length where there is none.
pub(crate) fn find(text: &[u8], mark: u8) -> usize
    ensures within { result ≤ length text.now }
    ensures before { (k : ℕ) → k < result → slice_index text.now k ≢ mark }
    ensures found { result < length text.now → slice_index text.now result ≡ mark }
{
    for (at, byte) in text.iter().enumerate() {
        if *byte == mark {
            return at;
        }
    }
    text.len()
}

/// The first line, without its newline, and the text behind it.
pub(crate) fn split_line(text: &[u8]) -> (&[u8], &[u8])
    requires { 0 < length text.now }
    ensures lines { lines_of text.now ≡ result.0.now ∷ lines_of result.1.now }
    ensures less { length result.1.now < length text.now }
{
    let end = find(text, b'\n');
    if end < text.len() {
        (&text[..end], &text[end + 1..])
    } else {
        (text, &text[end..])
    }
}

/// The first word, and what stands behind the space after it, if one does.
pub(crate) fn split_word(line: &[u8]) -> (&[u8], Option<&[u8]>)
    ensures { words_of line.now ≡ result.0.now ∷ words_behind (option_copied result.1) }
{
    let end = find(line, b' ');
    if end < line.len() {
        (&line[..end], Some(&line[end + 1..]))
    } else {
        (line, None)
    }
}

/// The word, where there is just one.
pub(crate) fn one_word(rest: Option<&[u8]>) -> Option<&[u8]>
    ensures found { IfSome result (λ a. words_behind (option_copied rest.entry) ≡ a.now ∷ []) }
    ensures none { IfNone result ((a : List ℕ) → words_behind (option_copied rest.entry) ≡ a ∷ [] → ⊥) }
{
    let Some(text) = rest else {
        return None;
    };
    let (first, others) = split_word(text);
    match others {
        None => Some(first),
        Some(_) => None,
    }
}

/// The words, where there are just two.
pub(crate) fn two_words(rest: Option<&[u8]>) -> Option<(&[u8], &[u8])>
    ensures found { IfSome result (λ p. words_behind (option_copied rest.entry) ≡ p.0.now ∷ p.1.now ∷ []) }
    ensures none { IfNone result ((a b : List ℕ) → words_behind (option_copied rest.entry) ≡ a ∷ b ∷ [] → ⊥) }
{
    let Some(text) = rest else {
        return None;
    };
    let (first, others) = split_word(text);
    match one_word(others) {
        Some(second) => Some((first, second)),
        None => None,
    }
}

/// The words, where there are just three.
pub(crate) fn three_words(rest: Option<&[u8]>) -> Option<(&[u8], &[u8], &[u8])>
    ensures found { IfSome result (λ p. words_behind (option_copied rest.entry) ≡ p.0.now ∷ p.1.now ∷ p.2.now ∷ []) }
    ensures none { IfNone result ((a b c : List ℕ) → words_behind (option_copied rest.entry) ≡ a ∷ b ∷ c ∷ [] → ⊥) }
{
    let Some(text) = rest else {
        return None;
    };
    let (first, others) = split_word(text);
    match two_words(others) {
        Some((second, third)) => Some((first, second, third)),
        None => None,
    }
}
