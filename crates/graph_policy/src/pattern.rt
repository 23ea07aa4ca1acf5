//! Patterns of text.
ghost use Rattle.std.specs.Prelude.{◌≡◌, bytes_eq};
ghost use Rattle.std.specs.List.{list_any};
ghost use Rattle.std.specs.Option.{option_copied};
ghost use Rattle.graph_policy.specs.Pattern.{some_end};
ghost use Rattle.graph_policy.specs.Pattern as spec;
ghost use Rattle.graph_policy.specs.Steps.{HasNoStar, SplitsAtStar, IsAfterFirst};

use base::Text;

/// Whether the text matches the pattern: a `*` stands for any text, each other byte for itself. Linear in the text for each
/// `*`, and at worst in the product of both where what stands between two of them repeats itself.
pub fn matches(pattern: &str, text: &str) -> bool
    ensures { result ≡ spec.matches pattern.now text.now }
{
    match split_star(pattern) {
        Some((front, rest)) => match text.strip_prefix(front) {
            Some(behind) => end_matches(rest, behind),
            None => false,
        },
        None => is_same(pattern, text),
    }
}

// What precedes and what follows the first `*`.
fn split_star(pattern: &str) -> Option<(&str, &str)>
    ensures { SplitsAtStar pattern.now result }
{
    pattern.split_once('*')
}

// Each `*` may stand for as little as possible: what follows is looked for in all that is left.
fn end_matches(pattern: &str, text: &str) -> bool
    ensures { result ≡ some_end (spec.matches pattern.now) text.now }
{
    let mut ahead = pattern;
    let mut left = text;
    while let Some((front, rest)) = split_star(ahead) {
        match after_first(left, front) {
            Some(behind) => {
                ahead = rest;
                left = behind;
            }
            None => return false,
        }
    }
    ends_so(ahead, left)
}

fn after_first<'a>(text: &'a str, front: &str) -> Option<&'a str>
    ensures { IsAfterFirst front.now text.now (option_copied result) }
{
    match text.split_once(front) {
        Some((_, behind)) => Some(behind),
        None => None,
    }
}

fn ends_so(pattern: &str, text: &str) -> bool
    requires { HasNoStar pattern.now }
    ensures { result ≡ some_end (spec.matches pattern.now) text.now }
{
    text.ends_with(pattern)
}

fn is_same(pattern: &str, text: &str) -> bool
    requires { HasNoStar pattern.now }
    ensures { result ≡ spec.matches pattern.now text.now }
{
    are_equal(text, pattern)
}

fn are_equal(text: &str, other: &str) -> bool
    ensures { result ≡ bytes_eq text.now other.now }
{
    text == other
}

/// Whether one of the patterns matches the text.
pub fn one_matches(patterns: &[Text], text: &str) -> bool
    ensures { result ≡ list_any (λ p. spec.matches p text.now) patterns.now }
{
    for pattern in patterns {
        if matches(pattern.as_str(), text) {
            return true;
        }
    }
    false
}
