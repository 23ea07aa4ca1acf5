use crate::ts::leaf::{
    Ident, MethodKind, Str, TplElement, TruePlusMinus, TsEntityName, TsKey, TsKeywordTypeKind,
    TsLit, TsThisTypeOrIdent, TsTypeOperatorOp,
};
use base::{Boxed, Items, Range};

/// Nodes in brackets, with the brackets' range.
pub struct Nodes<T> {
    pub items: Items<T>,
    pub span: Range,
}

/// The pattern of a parameter in a type, which holds no default and no computed key.
#[cycle(patterns)]
pub enum TsParamPat {
    Ident(Ident),
    This(Range),
    /// `[a, , ...b]`
    Array {
        elems: Items<TsParamPat>,
        span: Range,
    },
    /// `{ a, b: c, ...d }`
    Object {
        props: Items<TsPatProp>,
        span: Range,
    },
    /// `...a` in an array
    Rest {
        arg: Boxed<TsParamPat>,
        span: Range,
    },
    /// No element before a comma in an array.
    Hole(Range),
}

/// A property of an object pattern in a type.
#[cycle(patterns)]
pub enum TsPatProp {
    /// `...a`
    Rest {
        arg: Boxed<TsParamPat>,
        span: Range,
    },
    /// `a: b`
    KeyValue {
        key: TsKey,
        value: Boxed<TsParamPat>,
        span: Range,
    },
    /// `a`
    Shorthand(Ident),
}

/// A type of TypeScript.
#[cycle(types)]
pub enum TsType {
    Keyword {
        kind: TsKeywordTypeKind,
        span: Range,
    },
    This(Range),
    Lit(TsLit),
    /// A template with types in its substitutions.
    Tpl {
        quasis: Items<TplElement>,
        types: Items<TsType>,
        span: Range,
    },
    /// `a.b<c>`
    Ref {
        name: TsEntityName,
        type_params: Option<Nodes<TsType>>,
        span: Range,
    },
    /// `typeof a<b>` or `typeof import("a")`: the operand is a `Ref` or an `Import`.
    Query {
        expr_name: Boxed<TsType>,
        span: Range,
    },
    /// `import("a").b<c>`
    Import {
        arg: Str,
        qualifier: Option<TsEntityName>,
        type_args: Option<Nodes<TsType>>,
        span: Range,
    },
    /// `(a)`
    Paren {
        type_ann: Boxed<TsType>,
        span: Range,
    },
    /// `{ a: b; c(): d }`
    TypeLit {
        members: Items<TsTypeElement>,
        span: Range,
    },
    /// `[a, b?, ...c]`
    Tuple {
        elems: Items<TsTupleElement>,
        span: Range,
    },
    /// `{ readonly [a in b as c]?: d }`
    Mapped {
        readonly: TruePlusMinus,
        name: Ident,
        constraint: Boxed<TsType>,
        name_type: Option<Boxed<TsType>>,
        optional: TruePlusMinus,
        type_ann: Option<Boxed<TsType>>,
        span: Range,
    },
    /// `<a>(b) => c`
    Fn {
        type_params: Option<Nodes<TsTypeParam>>,
        params: Items<TsFnParam>,
        type_ann: Boxed<TsType>,
        span: Range,
    },
    /// `abstract new <a>(b) => c`
    Constructor {
        is_abstract: bool,
        type_params: Option<Nodes<TsTypeParam>>,
        params: Items<TsFnParam>,
        type_ann: Boxed<TsType>,
        span: Range,
    },
    /// `a extends b ? c : d`
    Conditional {
        check: Boxed<TsType>,
        extends: Boxed<TsType>,
        yes: Boxed<TsType>,
        no: Boxed<TsType>,
        span: Range,
    },
    /// `a | b`
    Union {
        types: Items<TsType>,
        span: Range,
    },
    /// `a & b`
    Intersection {
        types: Items<TsType>,
        span: Range,
    },
    /// `keyof a`
    Operator {
        op: TsTypeOperatorOp,
        type_ann: Boxed<TsType>,
        span: Range,
    },
    /// `infer a`
    Infer {
        name: Ident,
        span: Range,
    },
    /// `a[]`
    Array {
        elem: Boxed<TsType>,
        span: Range,
    },
    /// `a[b]`
    IndexedAccess {
        obj: Boxed<TsType>,
        index: Boxed<TsType>,
        span: Range,
    },
    /// `a is b`, `asserts a`, `asserts a is b`, as what a function returns.
    Predicate {
        asserts: bool,
        name: TsThisTypeOrIdent,
        type_ann: Option<Boxed<TsType>>,
        span: Range,
    },
}

/// A member of an object type or an interface.
#[cycle(types)]
pub enum TsTypeElement {
    /// `<a>(b): c`
    CallSignature {
        type_params: Option<Nodes<TsTypeParam>>,
        params: Items<TsFnParam>,
        type_ann: Option<Boxed<TsType>>,
        span: Range,
    },
    /// `new <a>(b): c`
    ConstructSignature {
        type_params: Option<Nodes<TsTypeParam>>,
        params: Items<TsFnParam>,
        type_ann: Option<Boxed<TsType>>,
        span: Range,
    },
    /// `readonly [a: b]: c`
    IndexSignature {
        readonly: bool,
        name: Ident,
        of: Boxed<TsType>,
        type_ann: Option<Boxed<TsType>>,
        span: Range,
    },
    /// `a?<b>(c): d`, also with `get` or `set`
    MethodSignature {
        kind: MethodKind,
        key: TsKey,
        optional: bool,
        type_params: Option<Nodes<TsTypeParam>>,
        params: Items<TsFnParam>,
        type_ann: Option<Boxed<TsType>>,
        span: Range,
    },
    /// `readonly a?: b`
    PropertySignature {
        readonly: bool,
        key: TsKey,
        optional: bool,
        type_ann: Option<Boxed<TsType>>,
        span: Range,
    },
}

/// `const in out a extends b = c`
#[cycle(types)]
pub struct TsTypeParam {
    pub is_const: bool,
    pub is_in: bool,
    pub is_out: bool,
    pub name: Ident,
    pub constraint: Option<Boxed<TsType>>,
    pub default: Option<Boxed<TsType>>,
    pub span: Range,
}

/// A parameter of a function in a type.
#[cycle(types)]
pub struct TsFnParam {
    pub rest: bool,
    pub pat: TsParamPat,
    pub optional: bool,
    pub type_ann: Option<Boxed<TsType>>,
    pub span: Range,
}

/// `...a?: b` or `b?`
#[cycle(types)]
pub struct TsTupleElement {
    pub rest: bool,
    pub label: Option<Ident>,
    pub ty: TsType,
    pub optional: bool,
    pub span: Range,
}

/// `a.b<c>` after `extends` or `implements`.
pub struct TsExprWithTypeArgs {
    pub expr: TsEntityName,
    pub type_args: Option<Nodes<TsType>>,
    pub span: Range,
}

/// What the value side holds of types. The field that holds it determines which variant it is.
pub enum TsPart {
    /// After `:`, `as` or `satisfies`, or of an alias.
    TypeAnn(Boxed<TsType>),
    /// `<a, b>` where parameters are declared
    TypeParams(Nodes<TsTypeParam>),
    /// `<a, b>` where arguments are given
    TypeArgs(Nodes<TsType>),
    /// After `implements`, or `extends` of an interface.
    Heritage(Items<TsExprWithTypeArgs>),
    /// The body of an interface.
    Members(Items<TsTypeElement>),
}
