//! Tests of the kind of a token.

ghost use Rattle.std.specs.Prelude.{◌≡◌};
ghost use Rattle.es_grammar.specs.types.Words.{is_name, is_word, is_name_or_this, is_numeric, is_accessor_word};
ghost use Rattle.es_grammar.specs.types.Expressions.{is_prefix, is_update, is_product, is_sum, is_equality, is_relation, is_assignment, is_property_name, is_literal_word};
ghost use Rattle.es_grammar.specs.types.Statements.{is_variable_word};

use es_token::TokenKind;

/// A name: a plain one, or a contextual word.
#[tactic(auto, unfolding(es_grammar::specs::types::Words::is_name))]
pub fn is_name(kind: TokenKind) -> bool
    ensures { result ≡ is_name kind }
{
    let number = kind as u8;
    kind == TokenKind::Name
        || (TokenKind::AbstractWord as u8 <= number && number <= TokenKind::UsingWord as u8)
}

/// A word: a name or a keyword.
#[tactic(auto, unfolding(es_grammar::specs::types::Words::is_word))]
pub fn is_word(kind: TokenKind) -> bool
    ensures { result ≡ is_word kind }
{
    let number = kind as u8;
    kind == TokenKind::Name
        || (TokenKind::AwaitWord as u8 <= number && number <= TokenKind::UsingWord as u8)
}

/// A name or `this`.
#[tactic(auto, unfolding(es_grammar::specs::types::Words::is_name_or_this))]
pub fn is_name_or_this(kind: TokenKind) -> bool
    ensures { result ≡ is_name_or_this kind }
{
    is_name(kind) || kind == TokenKind::ThisWord
}

/// A number or a bigint.
#[tactic(auto, unfolding(es_grammar::specs::types::Words::is_numeric))]
pub fn is_numeric(kind: TokenKind) -> bool
    ensures { result ≡ is_numeric kind }
{
    kind == TokenKind::Number || kind == TokenKind::BigInt
}

/// `get` or `set`
#[tactic(auto, unfolding(es_grammar::specs::types::Words::is_accessor_word))]
pub fn is_accessor_word(kind: TokenKind) -> bool
    ensures { result ≡ is_accessor_word kind }
{
    kind == TokenKind::GetWord || kind == TokenKind::SetWord
}

/// `delete`, `void`, `typeof`, `+`, `-`, `~`, `!`
#[tactic(auto, unfolding(es_grammar::specs::types::Expressions::is_prefix))]
pub fn is_prefix(kind: TokenKind) -> bool
    ensures { result ≡ is_prefix kind }
{
    kind == TokenKind::DeleteWord
        || kind == TokenKind::VoidWord
        || kind == TokenKind::TypeofWord
        || kind == TokenKind::Plus
        || kind == TokenKind::Minus
        || kind == TokenKind::Tilde
        || kind == TokenKind::Exclamation
}

/// `++` or `--`
#[tactic(auto, unfolding(es_grammar::specs::types::Expressions::is_update))]
pub fn is_update(kind: TokenKind) -> bool
    ensures { result ≡ is_update kind }
{
    kind == TokenKind::PlusPlus || kind == TokenKind::MinusMinus
}

/// `*`, `/`, `%`
#[tactic(auto, unfolding(es_grammar::specs::types::Expressions::is_product))]
pub fn is_product(kind: TokenKind) -> bool
    ensures { result ≡ is_product kind }
{
    kind == TokenKind::Star || kind == TokenKind::Slash || kind == TokenKind::Percent
}

/// `+` or `-` between operands
#[tactic(auto, unfolding(es_grammar::specs::types::Expressions::is_sum))]
pub fn is_sum(kind: TokenKind) -> bool
    ensures { result ≡ is_sum kind }
{
    kind == TokenKind::Plus || kind == TokenKind::Minus
}

/// `==`, `!=`, `===`, `!==`
#[tactic(auto, unfolding(es_grammar::specs::types::Expressions::is_equality))]
pub fn is_equality(kind: TokenKind) -> bool
    ensures { result ≡ is_equality kind }
{
    let number = kind as u8;
    TokenKind::EqualEqual as u8 <= number && number <= TokenKind::NotEqualEqual as u8
}

/// `<`, `<=`, `instanceof`, `in`
#[tactic(auto, unfolding(es_grammar::specs::types::Expressions::is_relation))]
pub fn is_relation(kind: TokenKind) -> bool
    ensures { result ≡ is_relation kind }
{
    kind == TokenKind::Less
        || kind == TokenKind::LessEqual
        || kind == TokenKind::InstanceofWord
        || kind == TokenKind::InWord
}

/// An assignment operator of one token.
#[tactic(auto, unfolding(es_grammar::specs::types::Expressions::is_assignment))]
pub fn is_assignment(kind: TokenKind) -> bool
    ensures { result ≡ is_assignment kind }
{
    let number = kind as u8;
    kind == TokenKind::Equal
        || (TokenKind::PlusEqual as u8 <= number
            && number <= TokenKind::QuestionQuestionEqual as u8)
}

/// A name, or a private one.
#[tactic(auto, unfolding(es_grammar::specs::types::Expressions::is_property_name))]
pub fn is_property_name(kind: TokenKind) -> bool
    ensures { result ≡ is_property_name kind }
{
    is_name(kind) || kind == TokenKind::PrivateName
}

/// `this`, `null`, `true`, `false`
#[tactic(auto, unfolding(es_grammar::specs::types::Expressions::is_literal_word))]
pub fn is_literal_word(kind: TokenKind) -> bool
    ensures { result ≡ is_literal_word kind }
{
    kind == TokenKind::ThisWord
        || kind == TokenKind::NullWord
        || kind == TokenKind::TrueWord
        || kind == TokenKind::FalseWord
}

/// `var`, `let`, `const`
#[tactic(auto, unfolding(es_grammar::specs::types::Statements::is_variable_word))]
pub fn is_variable_word(kind: TokenKind) -> bool
    ensures { result ≡ is_variable_word kind }
{
    kind == TokenKind::VarWord || kind == TokenKind::LetWord || kind == TokenKind::ConstWord
}
