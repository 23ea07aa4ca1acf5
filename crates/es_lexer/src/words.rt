ghost use Rattle.std.specs.Prelude.{◌≡◌, length};
ghost use Rattle.es_lexer.specs.Words.{kind_in, word_kind, is_keyword, kind_at};
ghost use Rattle.es_lexer.specs.Words.{words_of_two, words_of_three, words_of_four, words_of_five, words_of_six, words_of_seven, words_of_eight, words_of_nine, words_of_ten, words_of_eleven};

use es_token::TokenKind;

/// The kind of a word: its own where it is a keyword or a contextual word, else `Name`.
#[tactic(auto, unfolding(crate::specs::Words::word_kind, crate::specs::Words::words_of, crate::specs::Words::kind_in))]
fn kind_of_word(word: &[u8]) -> TokenKind
    ensures { result ≡ word_kind word.now }
{
    match word.len() {
        2 => two_letters(word),
        3 => three_letters(word),
        4 => four_letters(word),
        5 => five_letters(word),
        6 => six_letters(word),
        7 => seven_letters(word),
        8 => eight_letters(word),
        9 => nine_letters(word),
        10 => ten_letters(word),
        11 => eleven_letters(word),
        _ => TokenKind::Name,
    }
}

#[tactic(auto, unfolding(crate::specs::Words::kind_in, crate::specs::Words::words_of_two))]
fn two_letters(word: &[u8]) -> TokenKind
    ensures { result ≡ kind_in words_of_two word.now }
{
    match word {
        [b'a', ..] => {
            if word == b"as".as_slice() {
                TokenKind::AsWord
            } else {
                TokenKind::Name
            }
        }
        [b'd', ..] => {
            if word == b"do".as_slice() {
                TokenKind::DoWord
            } else {
                TokenKind::Name
            }
        }
        [b'i', ..] => {
            if word == b"if".as_slice() {
                TokenKind::IfWord
            } else if word == b"in".as_slice() {
                TokenKind::InWord
            } else if word == b"is".as_slice() {
                TokenKind::IsWord
            } else {
                TokenKind::Name
            }
        }
        [b'o', ..] => {
            if word == b"of".as_slice() {
                TokenKind::OfWord
            } else {
                TokenKind::Name
            }
        }
        _ => TokenKind::Name,
    }
}

#[tactic(auto, unfolding(crate::specs::Words::kind_in, crate::specs::Words::words_of_three))]
fn three_letters(word: &[u8]) -> TokenKind
    ensures { result ≡ kind_in words_of_three word.now }
{
    match word {
        [b'a', ..] => {
            if word == b"any".as_slice() {
                TokenKind::AnyWord
            } else {
                TokenKind::Name
            }
        }
        [b'f', ..] => {
            if word == b"for".as_slice() {
                TokenKind::ForWord
            } else {
                TokenKind::Name
            }
        }
        [b'g', ..] => {
            if word == b"get".as_slice() {
                TokenKind::GetWord
            } else {
                TokenKind::Name
            }
        }
        [b'l', ..] => {
            if word == b"let".as_slice() {
                TokenKind::LetWord
            } else {
                TokenKind::Name
            }
        }
        [b'n', ..] => {
            if word == b"new".as_slice() {
                TokenKind::NewWord
            } else {
                TokenKind::Name
            }
        }
        [b'o', ..] => {
            if word == b"out".as_slice() {
                TokenKind::OutWord
            } else {
                TokenKind::Name
            }
        }
        [b's', ..] => {
            if word == b"set".as_slice() {
                TokenKind::SetWord
            } else {
                TokenKind::Name
            }
        }
        [b't', ..] => {
            if word == b"try".as_slice() {
                TokenKind::TryWord
            } else {
                TokenKind::Name
            }
        }
        [b'v', ..] => {
            if word == b"var".as_slice() {
                TokenKind::VarWord
            } else {
                TokenKind::Name
            }
        }
        _ => TokenKind::Name,
    }
}

#[tactic(auto, unfolding(crate::specs::Words::kind_in, crate::specs::Words::words_of_four))]
fn four_letters(word: &[u8]) -> TokenKind
    ensures { result ≡ kind_in words_of_four word.now }
{
    match word {
        [b'c', ..] => {
            if word == b"case".as_slice() {
                TokenKind::CaseWord
            } else {
                TokenKind::Name
            }
        }
        [b'e', ..] => {
            if word == b"else".as_slice() {
                TokenKind::ElseWord
            } else if word == b"enum".as_slice() {
                TokenKind::EnumWord
            } else {
                TokenKind::Name
            }
        }
        [b'f', ..] => {
            if word == b"from".as_slice() {
                TokenKind::FromWord
            } else {
                TokenKind::Name
            }
        }
        [b'm', ..] => {
            if word == b"meta".as_slice() {
                TokenKind::MetaWord
            } else {
                TokenKind::Name
            }
        }
        [b'n', ..] => {
            if word == b"null".as_slice() {
                TokenKind::NullWord
            } else {
                TokenKind::Name
            }
        }
        [b't', ..] => {
            if word == b"this".as_slice() {
                TokenKind::ThisWord
            } else if word == b"true".as_slice() {
                TokenKind::TrueWord
            } else if word == b"type".as_slice() {
                TokenKind::TypeWord
            } else {
                TokenKind::Name
            }
        }
        [b'v', ..] => {
            if word == b"void".as_slice() {
                TokenKind::VoidWord
            } else {
                TokenKind::Name
            }
        }
        [b'w', ..] => {
            if word == b"with".as_slice() {
                TokenKind::WithWord
            } else {
                TokenKind::Name
            }
        }
        _ => TokenKind::Name,
    }
}

#[tactic(auto, unfolding(crate::specs::Words::kind_in, crate::specs::Words::words_of_five))]
fn five_letters(word: &[u8]) -> TokenKind
    ensures { result ≡ kind_in words_of_five word.now }
{
    match word {
        [b'a', ..] => {
            if word == b"async".as_slice() {
                TokenKind::AsyncWord
            } else if word == b"await".as_slice() {
                TokenKind::AwaitWord
            } else {
                TokenKind::Name
            }
        }
        [b'b', ..] => {
            if word == b"break".as_slice() {
                TokenKind::BreakWord
            } else {
                TokenKind::Name
            }
        }
        [b'c', ..] => {
            if word == b"catch".as_slice() {
                TokenKind::CatchWord
            } else if word == b"class".as_slice() {
                TokenKind::ClassWord
            } else if word == b"const".as_slice() {
                TokenKind::ConstWord
            } else {
                TokenKind::Name
            }
        }
        [b'd', ..] => {
            if word == b"defer".as_slice() {
                TokenKind::DeferWord
            } else {
                TokenKind::Name
            }
        }
        [b'f', ..] => {
            if word == b"false".as_slice() {
                TokenKind::FalseWord
            } else {
                TokenKind::Name
            }
        }
        [b'i', ..] => {
            if word == b"infer".as_slice() {
                TokenKind::InferWord
            } else {
                TokenKind::Name
            }
        }
        [b'k', ..] => {
            if word == b"keyof".as_slice() {
                TokenKind::KeyofWord
            } else {
                TokenKind::Name
            }
        }
        [b'n', ..] => {
            if word == b"never".as_slice() {
                TokenKind::NeverWord
            } else {
                TokenKind::Name
            }
        }
        [b's', ..] => {
            if word == b"super".as_slice() {
                TokenKind::SuperWord
            } else {
                TokenKind::Name
            }
        }
        [b't', ..] => {
            if word == b"throw".as_slice() {
                TokenKind::ThrowWord
            } else {
                TokenKind::Name
            }
        }
        [b'u', ..] => {
            if word == b"using".as_slice() {
                TokenKind::UsingWord
            } else {
                TokenKind::Name
            }
        }
        [b'w', ..] => {
            if word == b"while".as_slice() {
                TokenKind::WhileWord
            } else {
                TokenKind::Name
            }
        }
        [b'y', ..] => {
            if word == b"yield".as_slice() {
                TokenKind::YieldWord
            } else {
                TokenKind::Name
            }
        }
        _ => TokenKind::Name,
    }
}

#[tactic(auto, unfolding(crate::specs::Words::kind_in, crate::specs::Words::words_of_six))]
fn six_letters(word: &[u8]) -> TokenKind
    ensures { result ≡ kind_in words_of_six word.now }
{
    match word {
        [b'b', ..] => {
            if word == b"bigint".as_slice() {
                TokenKind::BigintWord
            } else {
                TokenKind::Name
            }
        }
        [b'd', ..] => {
            if word == b"delete".as_slice() {
                TokenKind::DeleteWord
            } else {
                TokenKind::Name
            }
        }
        [b'e', ..] => {
            if word == b"export".as_slice() {
                TokenKind::ExportWord
            } else {
                TokenKind::Name
            }
        }
        [b'g', ..] => {
            if word == b"global".as_slice() {
                TokenKind::GlobalWord
            } else {
                TokenKind::Name
            }
        }
        [b'i', ..] => {
            if word == b"import".as_slice() {
                TokenKind::ImportWord
            } else {
                TokenKind::Name
            }
        }
        [b'm', ..] => {
            if word == b"module".as_slice() {
                TokenKind::ModuleWord
            } else {
                TokenKind::Name
            }
        }
        [b'n', ..] => {
            if word == b"number".as_slice() {
                TokenKind::NumberWord
            } else {
                TokenKind::Name
            }
        }
        [b'o', ..] => {
            if word == b"object".as_slice() {
                TokenKind::ObjectWord
            } else {
                TokenKind::Name
            }
        }
        [b'p', ..] => {
            if word == b"public".as_slice() {
                TokenKind::PublicWord
            } else {
                TokenKind::Name
            }
        }
        [b'r', ..] => {
            if word == b"return".as_slice() {
                TokenKind::ReturnWord
            } else {
                TokenKind::Name
            }
        }
        [b's', ..] => {
            if word == b"source".as_slice() {
                TokenKind::SourceWord
            } else if word == b"static".as_slice() {
                TokenKind::StaticWord
            } else if word == b"string".as_slice() {
                TokenKind::StringWord
            } else if word == b"switch".as_slice() {
                TokenKind::SwitchWord
            } else if word == b"symbol".as_slice() {
                TokenKind::SymbolWord
            } else {
                TokenKind::Name
            }
        }
        [b't', ..] => {
            if word == b"target".as_slice() {
                TokenKind::TargetWord
            } else if word == b"typeof".as_slice() {
                TokenKind::TypeofWord
            } else {
                TokenKind::Name
            }
        }
        [b'u', ..] => {
            if word == b"unique".as_slice() {
                TokenKind::UniqueWord
            } else {
                TokenKind::Name
            }
        }
        _ => TokenKind::Name,
    }
}

#[tactic(auto, unfolding(crate::specs::Words::kind_in, crate::specs::Words::words_of_seven))]
fn seven_letters(word: &[u8]) -> TokenKind
    ensures { result ≡ kind_in words_of_seven word.now }
{
    match word {
        [b'a', ..] => {
            if word == b"asserts".as_slice() {
                TokenKind::AssertsWord
            } else {
                TokenKind::Name
            }
        }
        [b'b', ..] => {
            if word == b"boolean".as_slice() {
                TokenKind::BooleanWord
            } else {
                TokenKind::Name
            }
        }
        [b'd', ..] => {
            if word == b"declare".as_slice() {
                TokenKind::DeclareWord
            } else if word == b"default".as_slice() {
                TokenKind::DefaultWord
            } else {
                TokenKind::Name
            }
        }
        [b'e', ..] => {
            if word == b"extends".as_slice() {
                TokenKind::ExtendsWord
            } else {
                TokenKind::Name
            }
        }
        [b'f', ..] => {
            if word == b"finally".as_slice() {
                TokenKind::FinallyWord
            } else {
                TokenKind::Name
            }
        }
        [b'p', ..] => {
            if word == b"private".as_slice() {
                TokenKind::PrivateWord
            } else {
                TokenKind::Name
            }
        }
        [b'r', ..] => {
            if word == b"require".as_slice() {
                TokenKind::RequireWord
            } else {
                TokenKind::Name
            }
        }
        [b'u', ..] => {
            if word == b"unknown".as_slice() {
                TokenKind::UnknownWord
            } else {
                TokenKind::Name
            }
        }
        _ => TokenKind::Name,
    }
}

#[tactic(auto, unfolding(crate::specs::Words::kind_in, crate::specs::Words::words_of_eight))]
fn eight_letters(word: &[u8]) -> TokenKind
    ensures { result ≡ kind_in words_of_eight word.now }
{
    match word {
        [b'a', ..] => {
            if word == b"abstract".as_slice() {
                TokenKind::AbstractWord
            } else if word == b"accessor".as_slice() {
                TokenKind::AccessorWord
            } else {
                TokenKind::Name
            }
        }
        [b'c', ..] => {
            if word == b"continue".as_slice() {
                TokenKind::ContinueWord
            } else {
                TokenKind::Name
            }
        }
        [b'd', ..] => {
            if word == b"debugger".as_slice() {
                TokenKind::DebuggerWord
            } else {
                TokenKind::Name
            }
        }
        [b'f', ..] => {
            if word == b"function".as_slice() {
                TokenKind::FunctionWord
            } else {
                TokenKind::Name
            }
        }
        [b'o', ..] => {
            if word == b"override".as_slice() {
                TokenKind::OverrideWord
            } else {
                TokenKind::Name
            }
        }
        [b'r', ..] => {
            if word == b"readonly".as_slice() {
                TokenKind::ReadonlyWord
            } else {
                TokenKind::Name
            }
        }
        _ => TokenKind::Name,
    }
}

#[tactic(auto, unfolding(crate::specs::Words::kind_in, crate::specs::Words::words_of_nine))]
fn nine_letters(word: &[u8]) -> TokenKind
    ensures { result ≡ kind_in words_of_nine word.now }
{
    match word {
        [b'i', ..] => {
            if word == b"interface".as_slice() {
                TokenKind::InterfaceWord
            } else {
                TokenKind::Name
            }
        }
        [b'n', ..] => {
            if word == b"namespace".as_slice() {
                TokenKind::NamespaceWord
            } else {
                TokenKind::Name
            }
        }
        [b'p', ..] => {
            if word == b"protected".as_slice() {
                TokenKind::ProtectedWord
            } else {
                TokenKind::Name
            }
        }
        [b's', ..] => {
            if word == b"satisfies".as_slice() {
                TokenKind::SatisfiesWord
            } else {
                TokenKind::Name
            }
        }
        [b'u', ..] => {
            if word == b"undefined".as_slice() {
                TokenKind::UndefinedWord
            } else {
                TokenKind::Name
            }
        }
        _ => TokenKind::Name,
    }
}

#[tactic(auto, unfolding(crate::specs::Words::kind_in, crate::specs::Words::words_of_ten))]
fn ten_letters(word: &[u8]) -> TokenKind
    ensures { result ≡ kind_in words_of_ten word.now }
{
    match word {
        [b'i', ..] => {
            if word == b"implements".as_slice() {
                TokenKind::ImplementsWord
            } else if word == b"instanceof".as_slice() {
                TokenKind::InstanceofWord
            } else {
                TokenKind::Name
            }
        }
        _ => TokenKind::Name,
    }
}

#[tactic(auto, unfolding(crate::specs::Words::kind_in, crate::specs::Words::words_of_eleven))]
fn eleven_letters(word: &[u8]) -> TokenKind
    ensures { result ≡ kind_in words_of_eleven word.now }
{
    if word == b"constructor".as_slice() {
        TokenKind::ConstructorWord
    } else {
        TokenKind::Name
    }
}

/// Whether the kind is that of a keyword.
#[tactic(auto, unfolding(crate::specs::Words::is_keyword))]
fn is_keyword(kind: TokenKind) -> bool
    ensures { result ≡ is_keyword kind }
{
    match kind {
        TokenKind::AwaitWord => true,
        TokenKind::BreakWord => true,
        TokenKind::CaseWord => true,
        TokenKind::CatchWord => true,
        TokenKind::ClassWord => true,
        TokenKind::ConstWord => true,
        TokenKind::ContinueWord => true,
        TokenKind::DebuggerWord => true,
        TokenKind::DefaultWord => true,
        TokenKind::DeleteWord => true,
        TokenKind::DoWord => true,
        TokenKind::ElseWord => true,
        TokenKind::EnumWord => true,
        TokenKind::ExportWord => true,
        TokenKind::ExtendsWord => true,
        TokenKind::FalseWord => true,
        TokenKind::FinallyWord => true,
        TokenKind::ForWord => true,
        TokenKind::FunctionWord => true,
        TokenKind::IfWord => true,
        TokenKind::ImportWord => true,
        TokenKind::InWord => true,
        TokenKind::InstanceofWord => true,
        TokenKind::LetWord => true,
        TokenKind::NewWord => true,
        TokenKind::NullWord => true,
        TokenKind::ReturnWord => true,
        TokenKind::SuperWord => true,
        TokenKind::SwitchWord => true,
        TokenKind::ThisWord => true,
        TokenKind::ThrowWord => true,
        TokenKind::TrueWord => true,
        TokenKind::TryWord => true,
        TokenKind::TypeofWord => true,
        TokenKind::VarWord => true,
        TokenKind::VoidWord => true,
        TokenKind::WhileWord => true,
        TokenKind::WithWord => true,
        TokenKind::YieldWord => true,
        _ => false,
    }
}

/// The kind of a word, right after `.` or not: no keyword is one there.
#[tactic(auto, unfolding(crate::specs::Words::kind_at))]
pub fn kind_at(member: bool, word: &[u8]) -> TokenKind
    ensures { result ≡ kind_at member word.now }
{
    let kind = kind_of_word(word);
    if member && is_keyword(kind) {
        TokenKind::Name
    } else {
        kind
    }
}
