//! Divides a line into words.
ghost use Rattle.std.specs.Prelude.{◌≡◌, ◌≢◌, ℕ, List, [], ◌∷◌, ◌++◌, MatchOption};
ghost use Rattle.tree_lines.specs.Spelling.{behind_spaces};
ghost use Rattle.tree_lines.specs.Words.{IsWord, IsBehindWord};

/// Returns the bytes before the first space, and the rest from that space on.
pub fn first_word(text: &[u8]) -> (&[u8], &[u8])
    ensures word { IsWord result.0.now }
    ensures behind { IsBehindWord result.1.now }
    ensures whole { text.now ≡ result.0.now ++ result.1.now }
{
    for (i, byte) in text.iter().enumerate() {
        if *byte == b' ' {
            return text.split_at(i);
        }
    }
    text.split_at(text.len())
}

/// Returns what follows the first byte if that is a space, else `None`.
pub fn behind_space(text: &[u8]) -> Option<&[u8]>
    ensures { MatchOption result ((rest : List ℕ) → text.now ≢ 32 ∷ rest)
        (λ rest. text.now ≡ 32 ∷ rest.now) }
{
    match text {
        [b' ', rest @ ..] => Some(rest),
        _ => None,
    }
}

/// Returns the first word and what follows the second space, if the text has two spaces and one is
/// its first byte, else `None`.
pub fn two_words_of(text: &[u8]) -> Option<(&[u8], &[u8])>
    ensures { MatchOption result
        ((first second : List ℕ) → IsWord first → text.now ≢ behind_spaces (first ∷ second ∷ []))
        (λ words. IsWord words.0.now × (text.now ≡ behind_spaces (words.0.now ∷ words.1.now ∷ []))) }
{
    let (first, rest) = first_word(behind_space(text)?);
    Some((first, behind_space(rest)?))
}
