use es_syntax::What;

/// A keyword that is a type.
#[derive(Clone, Copy, Debug, PartialEq, Eq)]
pub enum Word {
    Any,
    String,
    Number,
    Boolean,
    BigInt,
    Undefined,
    Null,
}

/// A node that the grammar doesn't read so, by its parts (`formed`, `specs/Formed.antt`). Parts in a list are side by side;
/// `[a]` is a group: one entry `Parts`, which is empty where the part is absent.
#[derive(Clone, Copy, Debug, PartialEq, Eq)]
pub enum Form {
    /// The node that is its part.
    Same,
    // ---- types
    /// An element of a tuple: a type.
    Element,
    /// `...a` in a tuple: a type.
    Rest,
    /// `[a, b]`: its elements.
    Tuple,
    /// `readonly a`: a type.
    Readonly,
    /// `typeof a`: a type.
    Typeof,
    /// A name, as a type: its token.
    Named,
    /// `RegExp`
    RegExp,
    /// `{ a; b }`: its members.
    Members,
    /// `a: b`: a key, a type.
    Property,
    /// `readonly a: b`: a key, a type.
    ReadonlyProperty,
    /// A property or an index signature, made `readonly`: a member.
    ReadonlyMember,
    /// `<a>(b) => c`: `[type parameters]`, parameters, a type.
    Function,
    /// `(a, b)` of a function type: its parameters.
    Parameters,
    /// `a?: b`: a pattern, `[Optional]`, `[a type]`.
    Param,
    /// `...a: b`: a pattern, `[]`, `[a type]`.
    RestParam,
    // ---- patterns of parameters in types
    /// `this`
    ThisPattern,
    /// No pattern.
    HolePattern,
    /// A pattern that had a default.
    Pattern,
    // ---- names and keys
    /// `_dts_1`: its number, held as its first token.
    MadeName,
    /// `["a"]`: its token.
    StrKey,
    /// `[1]`: its token.
    NumberKey,
    /// `[a.b]`: a path.
    EntityKey,
    /// `a.b`: the tokens of the names.
    Path,
    /// `this.a`: the tokens of `this` and the names.
    ThisPath,
    // ---- what follows a pattern or a key
    /// `: a`: a type.
    Annotation,
    /// `?`
    Optional,
    // ---- declarations
    /// A declaration after `declare`: a declaration without it.
    Declare,
    /// A declaration without `declare`: one after it.
    Undeclare,
    /// `declare const a: b;`: a made name, a type.
    DefaultConst,
    /// `export default a;`: a made name.
    DefaultName,
    // ---- members of classes of JavaScript
    /// `a: b`: `[static]`, a key, `[a type]`.
    Field,
    /// `a()` without a body: `[static]`, a key, parameters. So are the variants after it.
    Method,
    Getter,
    Setter,
    AsyncMethod,
    GeneratorMethod,
    AsyncGeneratorMethod,
}

/// What is at a place of a changed row.
#[derive(Clone, Copy)]
pub enum Change {
    /// What may also appear in the row of a program: its numbers are those of tokens, and its parts may be changed.
    Old(What),
    /// A node that no text has, or that has other parts than its text.
    Form(Form),
    /// A keyword type that no text has.
    Word(Word),
    /// No part: the text is printed up to its first token, and continues with the token of its end.
    Gone,
}

/// What is at a place, before its parts: its first token, the token after its last one, and how many entries its parts take.
#[derive(Clone, Copy)]
pub struct ChangedEntry {
    pub change: Change,
    pub from: u32,
    pub to: u32,
    pub size: u32,
}

const _: () = prove!(size_of::<ChangedEntry>() == 16);
