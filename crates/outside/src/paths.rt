//! Paths: a folder, `/` and a name.

ghost use Rattle.std.specs.Prelude.{◌≡◌, ◌≢◌, ◌==◌, ◌∷◌, ◌++◌, List, ℕ, MatchOption, option_copied};
ghost use Rattle.outside.specs.Content.{below, name_in, has_slash};

/// What a path has behind a folder and `/`, or none where it does not lie in the folder.
pub(crate) fn below<'a>(folder: &str, path: &'a str) -> Option<&'a str>
    ensures { option_copied result ≡ below folder.now path.now }
{
    match behind_folder(folder, path) {
        Some(rest) => behind_slash(rest),
        None => None,
    }
}

// What a path has behind the text of a folder.
fn behind_folder<'a>(folder: &str, path: &'a str) -> Option<&'a str>
    ensures { MatchOption result ((x : List ℕ) → path.now ≢ folder.now ++ x) (λ rest. path.now ≡ folder.now ++ rest.now) }
{
    path.strip_prefix(folder)
}

// What a text has behind a first `/`.
fn behind_slash(text: &str) -> Option<&str>
    ensures { MatchOption result ((x : List ℕ) → text.now ≢ 47 ∷ x) (λ rest. text.now ≡ 47 ∷ rest.now) }
{
    text.strip_prefix('/')
}

/// The name that a path has in a folder, or none where it is not of the folder itself.
pub(crate) fn name_in<'a>(folder: &str, path: &'a str) -> Option<&'a str>
    ensures { option_copied result ≡ name_in folder.now path.now }
{
    let name = below(folder, path)?;
    if has_slash(name.as_bytes()) {
        None
    } else {
        Some(name)
    }
}

// Whether a text has a `/`.
fn has_slash(text: &[u8]) -> bool
    ensures { result ≡ has_slash text.now }
{
    text.iter().any(|b| *b == b'/')
}
