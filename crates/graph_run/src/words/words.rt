//! The words that the program is started with.
ghost use Rattle.std.specs.Prelude.{◌≡◌, ◌↔◌, ℕ, ◌≤◌, [], ◌∷◌, Some, MatchOption, IfSome, map, string_bytes};
ghost use Rattle.graph_run.specs.words.Words.{IsForm, IsNoForm, IsWithin, IsCount, is_plain};

/// The most modules that a form names.
pub const MOST_MODULES: u32 = 100_000;

/// The most answers that a batch takes.
pub const MOST_BATCH: u32 = 1_000_000;

/// So many answers a batch takes where no word says how many.
pub const BATCH: u32 = 64;

/// A form of the program.
#[derive(Clone, Copy)]
pub enum Form {
    /// `build`, `build --batch N`: the report of the bundle that is read, whose modules come in batches of so many.
    Build { batch: u32 },
    /// `order`: the order of the modules of the bundle that is read, or a cycle of them.
    Order,
    /// `make N`: the bundle of so many modules.
    Make(u32),
    /// `sum N`: the counts of that bundle's graph.
    Sum(u32),
}

/// The form of the program that the words are.
pub fn form_of(words: &[String]) -> Option<Form>
    ensures within { IfSome result IsWithin }
    ensures form { MatchOption result (IsNoForm (map string_bytes words.now)) (λ form. IsForm form (map string_bytes words.now)) }
{
    match words {
        [word] => plain_form(word.as_str()),
        [word, count] => counted_form(word.as_str(), count.as_str()),
        [word, option, batch] => batched_form(word.as_str(), option.as_str(), batch.as_str()),
        _ => None,
    }
}

fn plain_form(word: &str) -> Option<Form>
    ensures within { IfSome result IsWithin }
    ensures form { MatchOption result (IsNoForm (word.now ∷ [])) (λ form. IsForm form (word.now ∷ [])) }
{
    match word {
        "build" => Some(Form::Build { batch: BATCH }),
        "order" => Some(Form::Order),
        _ => None,
    }
}

fn counted_form(word: &str, count: &str) -> Option<Form>
    ensures within { IfSome result IsWithin }
    ensures form { MatchOption result (IsNoForm (word.now ∷ count.now ∷ [])) (λ form. IsForm form (word.now ∷ count.now ∷ [])) }
{
    let number = count_of(count, MOST_MODULES)?;
    match word {
        "make" => Some(Form::Make(number)),
        "sum" => Some(Form::Sum(number)),
        _ => None,
    }
}

fn batched_form(word: &str, option: &str, batch: &str) -> Option<Form>
    ensures within { IfSome result IsWithin }
    ensures form { MatchOption result (IsNoForm (word.now ∷ option.now ∷ batch.now ∷ []))
        (λ form. IsForm form (word.now ∷ option.now ∷ batch.now ∷ [])) }
{
    let batch = count_of(batch, MOST_BATCH)?;
    match (word, option) {
        ("build", "--batch") => Some(Form::Build { batch }),
        _ => None,
    }
}

/// The number from 1 to the most that a word is in decimal digits, without a zero in front.
fn count_of(word: &str, most: u32) -> Option<u32>
    requires { most ≤ 1000000 }
    ensures { (n : ℕ) → (result ≡ Some n) ↔ IsCount most n word.now }
{
    if !is_plain(word) {
        return None;
    }
    match word.parse::<u32>() {
        Ok(number) if number <= most => Some(number),
        _ => None,
    }
}

/// Whether a word begins neither with a sign nor with a zero.
fn is_plain(word: &str) -> bool
    ensures { result ≡ is_plain word.now }
{
    match word.as_bytes().first() {
        Some(first) => *first != b'+' && *first != b'0',
        None => true,
    }
}
