use base::{Items, Range, Text};

/// A name: a binding, a reference, a label or a property's name.
pub struct Ident {
    pub sym: Text,
    /// The number of the scope that declares the name, or 0.
    pub ctxt: u32,
    /// Whether a `?` follows where the name is a parameter or the label of a tuple's element.
    pub optional: bool,
    pub span: Range,
}

/// A string literal (ECMA-262, "StringLiteral").
pub struct Str {
    /// The text that the literal stands for, with U+FFFD for each lone surrogate.
    pub value: Text,
    /// Whether there is a lone surrogate.
    pub lone: bool,
    /// The literal as it is spelled, with its quotes; none where no text holds it.
    pub raw: Option<Text>,
    /// The literal with its quotes.
    pub span: Range,
}

/// A number literal, as it is spelled.
pub struct Number {
    pub raw: Text,
    pub span: Range,
}

/// A BigInt literal, as it is spelled.
pub struct BigInt {
    pub raw: Text,
    pub span: Range,
}

/// A piece of a template between its backticks and substitutions, as it is spelled.
pub struct TplElement {
    pub raw: Text,
    pub span: Range,
}

/// `this` or a name.
pub enum TsThisTypeOrIdent {
    This(Range),
    Ident(Ident),
}

/// `a`, `this` or `a.b.c`.
pub struct TsEntityName {
    pub left: TsThisTypeOrIdent,
    /// The names after the dots.
    pub rest: Items<Ident>,
    pub span: Range,
}

/// The name of a property of an object type.
pub enum TsKey {
    Ident(Ident),
    Str(Str),
    Num(Number),
    /// `[a.b]`
    Entity { name: TsEntityName, span: Range },
    /// `["a"]`
    ComputedStr { str: Str, span: Range },
    /// `[1]`
    ComputedNum { num: Number, span: Range },
    /// `[1n]`
    ComputedBigInt { big: BigInt, span: Range },
}

/// A literal that is a type.
pub enum TsLit {
    Bool {
        value: bool,
        span: Range,
    },
    Str(Str),
    /// `1` or `-1`
    Number {
        minus: bool,
        num: Number,
        span: Range,
    },
    /// `1n` or `-1n`
    BigInt {
        minus: bool,
        big: BigInt,
        span: Range,
    },
}

/// The types that are keywords.
pub enum TsKeywordTypeKind {
    Any,
    Unknown,
    Never,
    Undefined,
    String,
    Number,
    Boolean,
    BigInt,
    Symbol,
    Object,
    Null,
    Void,
}

pub enum TsTypeOperatorOp {
    KeyOf,
    Unique,
    ReadOnly,
}

/// How `readonly` or `?` appears in a mapped type.
pub enum TruePlusMinus {
    Absent,
    True,
    Plus,
    Minus,
}

/// What a method of an object or a class is.
pub enum MethodKind {
    Method,
    Getter,
    Setter,
}
