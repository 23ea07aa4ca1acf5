//! Tests of the front of a specifier.
ghost use Rattle.std.specs.Prelude.{◌≡◌};
ghost use Rattle.std.specs.List.{prefix_len};
ghost use Rattle.lexical_path.specs.Specifiers as spec;

/// Whether the text begins with `/`, `./` or `../`.
pub fn has_relative_prefix(text: &str) -> bool
    ensures { result ≡ spec.has_relative_prefix text.now }
{
    begins(text, "/") || begins(text, "./") || begins(text, "../")
}

/// Whether the text is `.` or `..`, or begins with `./` or `../`.
pub fn is_relative_specifier(specifier: &str) -> bool
    ensures { result ≡ spec.is_relative_specifier specifier.now }
{
    specifier == "." || specifier == ".." || begins(specifier, "./") || begins(specifier, "../")
}

/// Whether the text begins with a scheme and `:`. One letter alone is no scheme, but a drive letter.
pub fn specifier_has_uri_scheme(specifier: &str) -> bool
    ensures { result ≡ spec.has_uri_scheme specifier.now }
{
    let Some((first, rest)) = specifier.as_bytes().split_first() else {
        return false;
    };
    let len = scheme_rest(rest);
    first.is_ascii_alphabetic() && len > 0 && len < rest.len() && rest[len] == b':'
}

// How many bytes at the front may follow the first one of a scheme.
fn scheme_rest(rest: &[u8]) -> usize
    ensures { result ≡ prefix_len spec.is_scheme_byte rest.now }
{
    rest.iter().take_while(|b| is_scheme_byte(**b)).count()
}

fn is_scheme_byte(b: u8) -> bool
    ensures { result ≡ spec.is_scheme_byte b }
{
    b.is_ascii_alphanumeric() || b == b'+' || b == b'-' || b == b'.'
}

/// Whether the text begins with this one.
pub fn begins(text: &str, front: &str) -> bool
    ensures { result ≡ spec.begins text.now front.now }
{
    text.starts_with(front)
}
