ghost use Rattle.std.specs.Prelude.{◌≡◌, ◌++◌, false, OnOk, IfOk, chars, encode_utf8_all, string_bytes};
ghost use Rattle.es_literal.specs.Strings.{IsString};
ghost use Rattle.es_literal.specs.Values.{value_of, is_lone};
ghost use Rattle.es_literal.specs.Quotes.{escaped, quoted};

use base::Text;
use std::alloc::{AllocError, Global};

/// A string literal for the text, in double quotes.
pub fn quote(alloc: Global, value: &str) -> Result<Text, AllocError>
    ensures characters { IfOk result (λ literal. literal ≡ encode_utf8_all (quoted (chars value.now))) }
    ensures whole { IfOk result (λ literal. IsString literal) }
    ensures text { IfOk result (λ literal. value_of literal ≡ value.now) }
    ensures lone { IfOk result (λ literal. is_lone literal ≡ false) }
{
    Ok(Text::from_string(quoted(alloc, value)?))
}

fn quoted(alloc: Global, value: &str) -> Result<String, AllocError>
    ensures { IfOk result (λ literal. string_bytes literal ≡ encode_utf8_all (quoted (chars value.now))) }
{
    let mut literal = String::new(alloc);
    literal.push('"')?;
    for c in value.chars() {
        push_escaped(&mut literal, c)?;
    }
    literal.push('"')?;
    Ok(literal)
}

#[tactic(auto, unfolding(crate::specs::Quotes::escaped))]
fn push_escaped(literal: &mut String, c: char) -> Result<(), AllocError>
    ensures { OnOk result (string_bytes literal.new ≡ string_bytes literal.old ++ encode_utf8_all (escaped c)) }
{
    match c {
        '"' => literal.push_str("\\\""),
        '\\' => literal.push_str("\\\\"),
        '\n' => literal.push_str("\\n"),
        '\r' => literal.push_str("\\r"),
        _ => literal.push(c),
    }
}
