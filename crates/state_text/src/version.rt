//! What a stored text begins with.
ghost use Rattle.std.specs.Prelude.{◌≡◌, ◌∷◌, ◌++◌, ℕ, List, MatchOption};

/// The version and what follows it, where a text begins with these four letters and a version: the letters name what the text is of.
pub fn split_version<'a>(letters: &[u8; 4], text: &'a [u8]) -> Option<(u8, &'a [u8])>
    ensures { MatchOption result
        ((v : ℕ) (body : List ℕ) → text.now ≡ letters.now ++ v ∷ body → ⊥)
        (λ parts. text.now ≡ letters.now ++ parts.0 ∷ parts.1.now) }
{
    let [a, b, c, d, version, body @ ..] = text else {
        return None;
    };
    if [*a, *b, *c, *d] == *letters {
        Some((*version, body))
    } else {
        None
    }
}
