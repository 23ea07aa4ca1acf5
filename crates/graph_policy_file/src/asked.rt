//! What may stand at a key.
ghost use Rattle.std.specs.Prelude.{◌≡◌, ◌∷◌, [], List, ℕ, Result, Ok, Some, IfOk};
ghost use Rattle.serde_json.specs.Data.{Data};
ghost use Rattle.serde_json.specs.View.{view};
ghost use Rattle.import_map.specs.json_reading.Reading as reading;
ghost use Rattle.graph_policy_file.specs.PolicyFile as spec;

use base::{Items, Text};
use graph_bundle::Part;
use import_map::json_reading::{Reading, said, under};
use serde_json::Value;
use std::alloc::{AllocError, Global};

/// A type that a JSON value can say of rules.
pub trait Said: Sized + Drop {
    /// what a value says
    ghost says: { Data → Result Self (List ℕ) };

    fn read(alloc: Global, value: &Value) -> Result<Reading<Self>, AllocError>
        ensures { IfOk result (λ r. r ≡ says (view value.now)) };
}

/// What is asked at a key, if something is. The key has neither `~` nor `/`.
pub fn asked<S: Said>(
    alloc: Global,
    value: &Value,
    key: &str,
) -> Result<Reading<Option<S>>, AllocError>
    ensures { IfOk result (λ r. r ≡ spec.asked S.says key.now (view value.now)) }
{
    match value.get(key) {
        Some(part) => {
            let reading = S::read(alloc, part)?;
            under(alloc, key, some(reading))
        }
        None => Ok(Ok(None)),
    }
}

/// What stands at a key, or the default where nothing does. The key has neither `~` nor `/`.
pub fn given<S: Said>(
    alloc: Global,
    value: &Value,
    key: &str,
    default: S,
) -> Result<Reading<S>, AllocError>
    ensures { IfOk result (λ r. r ≡ reading.optional S.says default key.now (view value.now)) }
{
    match value.get(key) {
        Some(part) => {
            let reading = S::read(alloc, part)?;
            under(alloc, key, reading)
        }
        None => Ok(Ok(default)),
    }
}

fn some<T: Drop>(part: Reading<T>) -> Reading<Option<T>>
    ensures { result ≡ reading.and_then (λ x. Ok (Some x)) part }
{
    match part {
        Ok(there) => Ok(Some(there)),
        Err(at) => Err(at),
    }
}

impl Said for bool {
    ghost says = { reading.bool_of };

    fn read(alloc: Global, value: &Value) -> Result<Reading<bool>, AllocError> {
        Ok(said(alloc, value.as_bool()))
    }
}

/// Patterns: a text, or a list of texts.
impl Said for Items<Text> {
    ghost says = { spec.patterns_of };

    fn read(alloc: Global, value: &Value) -> Result<Reading<Items<Text>>, AllocError> {
        match value.as_str() {
            Some(text) => one_text(alloc, text),
            None => <Items<Text> as Part>::read(alloc, value),
        }
    }
}

fn one_text(alloc: Global, text: &str) -> Result<Reading<Items<Text>>, AllocError>
    ensures { IfOk result (λ r. r ≡ Ok (text.now ∷ [])) }
{
    let mut texts = Items::new(alloc);
    texts.push(Text::from_str(alloc, text)?)?;
    Ok(Ok(texts))
}
