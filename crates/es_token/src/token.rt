ghost use Rattle.std.specs.Prelude.{◌≡◌, Some, IfOk, OnOk, OnErr};
ghost use Rattle.es_token.specs.Plain.{number_of, partner_in};

use base::{Items, Range, Text};
use std::alloc::AllocError;
use std::marker::Model;

/// What a token is: one variant for each kind, keyword, contextual word and punctuator of JavaScript and TypeScript.
#[derive(Clone, Copy, Debug, PartialEq, Eq)]
pub enum TokenKind {
    // Kinds with many spellings.
    Shebang,
    Name,
    PrivateName,
    Number,
    BigInt,
    Str,
    TemplateWhole,
    TemplateHead,
    TemplateMiddle,
    TemplateTail,
    RegExp,
    // Keywords.
    AwaitWord,
    BreakWord,
    CaseWord,
    CatchWord,
    ClassWord,
    ConstWord,
    ContinueWord,
    DebuggerWord,
    DefaultWord,
    DeleteWord,
    DoWord,
    ElseWord,
    EnumWord,
    ExportWord,
    ExtendsWord,
    FalseWord,
    FinallyWord,
    ForWord,
    FunctionWord,
    IfWord,
    ImportWord,
    InWord,
    InstanceofWord,
    LetWord,
    NewWord,
    NullWord,
    ReturnWord,
    SuperWord,
    SwitchWord,
    ThisWord,
    ThrowWord,
    TrueWord,
    TryWord,
    TypeofWord,
    VarWord,
    VoidWord,
    WhileWord,
    WithWord,
    YieldWord,
    // Contextual words: names whose spelling counts as their kind.
    AbstractWord,
    AccessorWord,
    AnyWord,
    AsWord,
    AssertsWord,
    AsyncWord,
    BigintWord,
    BooleanWord,
    ConstructorWord,
    DeclareWord,
    DeferWord,
    FromWord,
    GetWord,
    GlobalWord,
    ImplementsWord,
    InferWord,
    InterfaceWord,
    IsWord,
    KeyofWord,
    MetaWord,
    ModuleWord,
    NamespaceWord,
    NeverWord,
    NumberWord,
    ObjectWord,
    OfWord,
    OutWord,
    OverrideWord,
    PrivateWord,
    ProtectedWord,
    PublicWord,
    ReadonlyWord,
    RequireWord,
    SatisfiesWord,
    SetWord,
    SourceWord,
    StaticWord,
    StringWord,
    SymbolWord,
    TargetWord,
    TypeWord,
    UndefinedWord,
    UniqueWord,
    UnknownWord,
    UsingWord,
    // Punctuators.
    /// `{`
    OpenBrace,
    /// `}`
    CloseBrace,
    /// `(`
    OpenParen,
    /// `)`
    CloseParen,
    /// `[`
    OpenBracket,
    /// `]`
    CloseBracket,
    /// `;`
    Semicolon,
    /// `,`
    Comma,
    /// `.`
    Dot,
    /// `...`
    Ellipsis,
    /// `<`
    Less,
    /// `<=`
    LessEqual,
    /// `>`
    Greater,
    /// `=`
    Equal,
    /// `==`
    EqualEqual,
    /// `!=`
    NotEqual,
    /// `===`
    EqualEqualEqual,
    /// `!==`
    NotEqualEqual,
    /// `+`
    Plus,
    /// `-`
    Minus,
    /// `*`
    Star,
    /// `/`
    Slash,
    /// `%`
    Percent,
    /// `**`
    StarStar,
    /// `++`
    PlusPlus,
    /// `--`
    MinusMinus,
    /// `<<`
    LessLess,
    /// `&`
    Ampersand,
    /// `|`
    Bar,
    /// `^`
    Caret,
    /// `!`
    Exclamation,
    /// `~`
    Tilde,
    /// `&&`
    AmpersandAmpersand,
    /// `||`
    BarBar,
    /// `??`
    QuestionQuestion,
    /// `?`
    Question,
    /// `?.`
    QuestionDot,
    /// `:`
    Colon,
    /// `+=`
    PlusEqual,
    /// `-=`
    MinusEqual,
    /// `*=`
    StarEqual,
    /// `/=`
    SlashEqual,
    /// `%=`
    PercentEqual,
    /// `**=`
    StarStarEqual,
    /// `<<=`
    LessLessEqual,
    /// `&=`
    AmpersandEqual,
    /// `|=`
    BarEqual,
    /// `^=`
    CaretEqual,
    /// `&&=`
    AmpersandAmpersandEqual,
    /// `||=`
    BarBarEqual,
    /// `??=`
    QuestionQuestionEqual,
    /// `=>`
    Arrow,
}

/// A token of a text, in 16 bytes.
#[derive(Clone, Copy, Debug)]
pub struct Token {
    start: u32,
    end: u32,
    /// One more than the number of the token that it matches; 0 where there is none.
    partner: u32,
    kind: TokenKind,
    line_before: bool,
}

const _: () = prove!(size_of::<Token>() == 16);

impl Model for Token {
    ghost use Rattle.es_token.specs.Plain.{Plain, number_of, partner_in, partner_back};

    ghost Value = { Plain };

    ghost view = { λ t. record {
      kind = t.kind;
      range = record { start = t.start; end = t.end };
      line_before = t.line_before;
      partner = partner_in t.partner;
    } };

    ghost inverse = { λ t. record {
      start = t.range.start;
      end = t.range.end;
      partner = number_of t.partner;
      kind = t.kind;
      line_before = t.line_before;
    } };

    ghost inverse_ok = { λ t h i. record {
      start = t.start;
      end = t.end;
      partner = partner_back t.partner i;
      kind = t.kind;
      line_before = t.line_before;
    } };
}

impl Token {
    /// A token. Fails with `AllocError` where a place or a number doesn't fit 32 bits.
    #[inline(always)]
    pub fn new(
        kind: TokenKind,
        range: Range,
        line_before: bool,
        partner: Option<usize>,
    ) -> Result<Token, AllocError>
        ensures { IfOk result (λ t. t ≡ record { kind = kind; range = range; line_before = line_before; partner = partner }) }
    {
        let start = narrowed(range.start)?;
        let end = narrowed(range.end)?;
        let partner = numbered(partner)?;
        Ok(Token {
            start,
            end,
            partner,
            kind,
            line_before,
        })
    }

    #[inline(always)]
    pub fn kind(&self) -> TokenKind
        ensures { result ≡ self.now.kind }
    {
        self.kind
    }

    /// Its bytes in the text.
    #[inline(always)]
    pub fn range(&self) -> Range
        ensures { result ≡ self.now.range }
    {
        Range {
            start: self.start as usize,
            end: self.end as usize,
        }
    }

    /// Whether a line end is between the token before and this one. Never so for the first token.
    #[inline(always)]
    pub fn line_before(&self) -> bool
        ensures { result ≡ self.now.line_before }
    {
        self.line_before
    }

    /// For a bracket, the number of the token that it matches.
    #[inline(always)]
    pub fn partner(&self) -> Option<usize>
        ensures { result ≡ self.now.partner }
    {
        partner_in(self.partner)
    }

    /// Matches it to the token of this number.
    #[inline(always)]
    pub fn set_partner(&mut self, partner: usize) -> Result<(), AllocError>
        ensures set { OnOk result (self.new ≡ record self.old { partner = Some partner }) }
        ensures kept { OnErr result (self.new ≡ self.old) }
    {
        self.partner = numbered(Some(partner))?;
        Ok(())
    }
}

/// A number in 32 bits; `AllocError` for a greater one.
#[inline(always)]
fn narrowed(number: usize) -> Result<u32, AllocError>
    ensures { IfOk result (λ n. n ≡ number) }
{
    match u32::try_from(number) {
        Ok(n) => Ok(n),
        Err(_) => Err(AllocError),
    }
}

/// A partner as one number.
#[inline(always)]
fn numbered(partner: Option<usize>) -> Result<u32, AllocError>
    ensures { IfOk result (λ n. n ≡ number_of partner) }
{
    match partner {
        None => Ok(0),
        Some(partner) => {
            let number = narrowed(partner)?;
            if number == u32::MAX {
                return Err(AllocError);
            }
            Ok(number + 1)
        }
    }
}

/// The partner that is kept as one number.
#[inline(always)]
fn partner_in(number: u32) -> Option<usize>
    ensures { result ≡ partner_in number }
{
    if number == 0 {
        return None;
    }
    Some((number - 1) as usize)
}

#[derive(Clone, Copy, Debug, PartialEq, Eq)]
pub enum CommentKind {
    /// From `//` up to the line's end.
    Line,
    /// From `/*` through `*/`.
    Block,
}

/// A comment of a text.
#[derive(Debug, Drop, PartialEq, Eq)]
pub struct Comment {
    pub kind: CommentKind,
    /// Its bytes in the text, delimiters included.
    pub range: Range,
    /// What is within its delimiters.
    pub text: Text,
}

/// The tokens and comments of a text, each in the order of the text.
#[derive(Debug, Drop)]
pub struct Lexed {
    pub tokens: Items<Token>,
    pub comments: Items<Comment>,
}
