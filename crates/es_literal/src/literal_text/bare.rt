//! Literals without escapes.
ghost use Rattle.std.specs.Prelude.{◌≡◌, ◌<◌, ◌∷◌, ◌++◌, [], true, IfSome};
ghost use Rattle.es_literal.specs.Strings.{is_plain};
ghost use Rattle.es_literal.specs.Values.{value_of};
ghost use Rattle.es_literal.specs.literal_text.Bare.{AreBare};

/// What a literal in these quotes stands for, where each byte between them stands for itself.
#[tactic(auto, using(crate::proofs::literal_text_lemmas::BareLemmas::bare_value))]
pub fn as_written(quote: char, literal: &str) -> Option<&str>
    requires { quote < 128 }
    ensures { IfSome result (λ text. text.now ≡ value_of literal.now) }
{
    let text = between(quote, literal)?;
    if are_bare(text.as_bytes()) {
        Some(text)
    } else {
        None
    }
}

/// What is between two of these quotes.
fn between(quote: char, literal: &str) -> Option<&str>
    requires { quote < 128 }
    ensures { IfSome result (λ text. literal.now ≡ quote ∷ (text.now ++ quote ∷ [])) }
{
    let rest = literal.strip_prefix(quote)?;
    rest.strip_suffix(quote)
}

/// Whether each of these bytes stands for itself in either quotes.
fn are_bare(bytes: &[u8]) -> bool
    ensures { result ≡ true → AreBare bytes.now }
{
    for byte in bytes {
        if !is_bare(*byte) {
            return false;
        }
    }
    true
}

#[tactic(auto, unfolding(crate::specs::Strings::is_plain))]
fn is_bare(byte: u8) -> bool
    ensures { result ≡ is_plain 34 byte }
{
    !(byte == b'"' || byte == b'\\' || byte == b'\n' || byte == b'\r')
}
