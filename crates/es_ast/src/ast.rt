use crate::leaf::{
    AssignOp, BinaryOp, ExportAll, ImportDecl, ImportPhase, Lit, Modifiers, NamedExport,
    TsImportEqualsDecl, TsNamespaceExportDecl, UnaryOp, UpdateOp, VarDeclKind,
};
use crate::ts::{Ident, MethodKind, Str, TplElement, TsEntityName, TsPart};
use base::{Boxed, Items, Range, Text};

/// A whole text, read by one of the two goal symbols.
pub enum Program {
    Module(Module),
    Script(Script),
}

pub struct Module {
    /// What follows `#!` on its line.
    pub shebang: Option<Text>,
    pub body: Items<ModuleItem>,
    pub span: Range,
}

pub struct Script {
    /// What follows `#!` on its line.
    pub shebang: Option<Text>,
    pub body: Items<Stmt>,
    pub span: Range,
}

/// An item of a module (ECMA-262, "ModuleItem").
#[cycle(ast)]
pub enum ModuleItem {
    ModuleDecl(Boxed<ModuleDecl>),
    Stmt(Boxed<Stmt>),
}

/// An import or an export.
#[cycle(ast)]
pub enum ModuleDecl {
    Import(ImportDecl),
    /// `export const a = 1;`
    ExportDecl { decl: Boxed<Decl>, span: Range },
    ExportNamed(NamedExport),
    /// `export default function () {}`: the declaration is a function, a class or an interface.
    ExportDefaultDecl { decl: Boxed<Decl>, span: Range },
    /// `export default a;`
    ExportDefaultExpr { expr: Boxed<Expr>, span: Range },
    ExportAll(ExportAll),
    TsImportEquals(TsImportEqualsDecl),
    /// `export = a;`
    TsExportAssignment { expr: Boxed<Expr>, span: Range },
    TsNamespaceExport(TsNamespaceExportDecl),
}

/// A statement (ECMA-262, "Statements and Declarations").
#[cycle(ast)]
pub enum Stmt {
    /// `{ a; }`
    Block {
        stmts: Items<Stmt>,
        span: Range,
    },
    /// `;` alone
    Empty(Range),
    Debugger(Range),
    /// `with (a) b`
    With {
        obj: Boxed<Expr>,
        body: Boxed<Stmt>,
        span: Range,
    },
    Return {
        arg: Option<Boxed<Expr>>,
        span: Range,
    },
    /// `a: b`
    Labeled {
        label: Ident,
        body: Boxed<Stmt>,
        span: Range,
    },
    Break {
        label: Option<Ident>,
        span: Range,
    },
    Continue {
        label: Option<Ident>,
        span: Range,
    },
    If {
        test: Boxed<Expr>,
        cons: Boxed<Stmt>,
        alt: Option<Boxed<Stmt>>,
        span: Range,
    },
    Switch {
        discriminant: Boxed<Expr>,
        cases: Items<SwitchCase>,
        span: Range,
    },
    Throw {
        arg: Boxed<Expr>,
        span: Range,
    },
    /// `try {} catch (a) {} finally {}`: each body is a `Block`.
    Try {
        block: Boxed<Stmt>,
        param: Option<Boxed<Pat>>,
        handler: Option<Boxed<Stmt>>,
        finalizer: Option<Boxed<Stmt>>,
        span: Range,
    },
    While {
        test: Boxed<Expr>,
        body: Boxed<Stmt>,
        span: Range,
    },
    DoWhile {
        body: Boxed<Stmt>,
        test: Boxed<Expr>,
        span: Range,
    },
    /// `for (a; b; c) d`: the first is a declaration of variables or an expression.
    For {
        init: Option<Boxed<Stmt>>,
        test: Option<Boxed<Expr>>,
        update: Option<Boxed<Expr>>,
        body: Boxed<Stmt>,
        span: Range,
    },
    /// `for (const a in b) c`: without a kind, the head is a target of an assignment.
    ForIn {
        kind: Option<VarDeclKind>,
        left: Boxed<Pat>,
        right: Boxed<Expr>,
        body: Boxed<Stmt>,
        span: Range,
    },
    /// `for await (const a of b) c`
    ForOf {
        is_await: bool,
        kind: Option<VarDeclKind>,
        left: Boxed<Pat>,
        right: Boxed<Expr>,
        body: Boxed<Stmt>,
        span: Range,
    },
    Decl(Boxed<Decl>),
    /// `a;`
    Expr {
        expr: Boxed<Expr>,
        span: Range,
    },
}

/// A declaration.
#[cycle(ast)]
pub enum Decl {
    Class {
        declare: bool,
        class: Boxed<Class>,
        span: Range,
    },
    Fn {
        declare: bool,
        function: Boxed<Function>,
        span: Range,
    },
    /// `const a = 1;`, also `using`
    Var {
        declare: bool,
        kind: VarDeclKind,
        decls: Items<VarDeclarator>,
        span: Range,
    },
    /// `interface a<b> extends c {}`
    TsInterface {
        declare: bool,
        id: Ident,
        type_params: Option<Boxed<TsPart>>,
        extends: Option<Boxed<TsPart>>,
        body: Option<Boxed<TsPart>>,
        span: Range,
    },
    /// `type a<b> = c;`
    TsTypeAlias {
        declare: bool,
        id: Ident,
        type_params: Option<Boxed<TsPart>>,
        type_ann: Option<Boxed<TsPart>>,
        span: Range,
    },
    /// `const enum a { b }`
    TsEnum {
        declare: bool,
        is_const: bool,
        id: Ident,
        members: Items<TsEnumMember>,
        span: Range,
    },
    /// `namespace a.b {}`, or with `module`
    TsNamespace {
        declare: bool,
        is_module: bool,
        id: TsEntityName,
        body: Items<ModuleItem>,
        span: Range,
    },
    /// `module "a" {}`, or without a body
    TsModule {
        declare: bool,
        id: Str,
        has_body: bool,
        body: Items<ModuleItem>,
        span: Range,
    },
    /// `global {}`
    TsGlobal {
        declare: bool,
        body: Items<ModuleItem>,
        span: Range,
    },
}

/// An expression (ECMA-262, "Expressions").
#[cycle(ast)]
pub enum Expr {
    This(Range),
    /// Only before `.`, `[` or `(`.
    Super(Range),
    Ident(Ident),
    /// `#a`, only as a key or before `in`
    PrivateName(Ident),
    Lit(Lit),
    /// No element before a comma in an array.
    Hole(Range),
    Array {
        elems: Items<Expr>,
        span: Range,
    },
    /// `...a`, only in an array or as an argument
    Spread {
        expr: Boxed<Expr>,
        span: Range,
    },
    Object {
        props: Items<Prop>,
        span: Range,
    },
    Fn(Boxed<Function>),
    Class(Boxed<Class>),
    /// `(a) => b`: a body without braces is a `Stmt::Expr`.
    Arrow(Boxed<Function>),
    /// `(a)`
    Paren {
        expr: Boxed<Expr>,
        span: Range,
    },
    Unary {
        op: UnaryOp,
        arg: Boxed<Expr>,
        span: Range,
    },
    /// `a++` or, with the operator as a prefix, `++a`
    Update {
        op: UpdateOp,
        prefix: bool,
        arg: Boxed<Expr>,
        span: Range,
    },
    Await {
        arg: Boxed<Expr>,
        span: Range,
    },
    Yield {
        delegate: bool,
        arg: Option<Boxed<Expr>>,
        span: Range,
    },
    Bin {
        op: BinaryOp,
        left: Boxed<Expr>,
        right: Boxed<Expr>,
        span: Range,
    },
    Assign {
        op: AssignOp,
        left: Boxed<Pat>,
        right: Boxed<Expr>,
        span: Range,
    },
    /// `a ? b : c`
    Cond {
        test: Boxed<Expr>,
        cons: Boxed<Expr>,
        alt: Boxed<Expr>,
        span: Range,
    },
    /// `a, b`
    Seq {
        exprs: Items<Expr>,
        span: Range,
    },
    /// `a.b`, `a?.b` or `a.#b`
    Member {
        obj: Boxed<Expr>,
        optional: bool,
        is_private: bool,
        prop: Ident,
        span: Range,
    },
    /// `a[b]` or `a?.[b]`
    Index {
        obj: Boxed<Expr>,
        optional: bool,
        prop: Boxed<Expr>,
        span: Range,
    },
    /// `a(b)` or `a?.(b)`
    Call {
        callee: Boxed<Expr>,
        optional: bool,
        type_args: Option<Boxed<TsPart>>,
        args: Items<Expr>,
        span: Range,
    },
    /// `new a(b)`, or without arguments
    New {
        callee: Boxed<Expr>,
        type_args: Option<Boxed<TsPart>>,
        has_args: bool,
        args: Items<Expr>,
        span: Range,
    },
    /// `import(a, b)`, `import.source(a, b)` or `import.defer(a, b)`.
    ImportCall {
        phase: ImportPhase,
        args: Items<Expr>,
        span: Range,
    },
    /// `import.meta`
    ImportMeta(Range),
    /// `new.target`
    NewTarget(Range),
    /// A template without a tag.
    Tpl {
        quasis: Items<TplElement>,
        exprs: Items<Expr>,
        span: Range,
    },
    /// The template is a `Tpl`.
    TaggedTpl {
        tag: Boxed<Expr>,
        type_args: Option<Boxed<TsPart>>,
        tpl: Boxed<Expr>,
        span: Range,
    },
    /// `a!`
    TsNonNull {
        expr: Boxed<Expr>,
        span: Range,
    },
    /// `a as b`
    TsAs {
        expr: Boxed<Expr>,
        type_ann: Option<Boxed<TsPart>>,
        span: Range,
    },
    /// `a as const`
    TsConstAssertion {
        expr: Boxed<Expr>,
        span: Range,
    },
    /// `a satisfies b`
    TsSatisfies {
        expr: Boxed<Expr>,
        type_ann: Option<Boxed<TsPart>>,
        span: Range,
    },
}

/// A pattern: what a declaration, a parameter or an assignment binds.
#[cycle(ast)]
pub enum Pat {
    Ident {
        id: Ident,
        type_ann: Option<Boxed<TsPart>>,
        span: Range,
    },
    /// `this` as a parameter
    This {
        type_ann: Option<Boxed<TsPart>>,
        span: Range,
    },
    /// No element before a comma in an array.
    Hole(Range),
    Array {
        elems: Items<Pat>,
        optional: bool,
        type_ann: Option<Boxed<TsPart>>,
        span: Range,
    },
    Object {
        props: Items<ObjectPatProp>,
        optional: bool,
        type_ann: Option<Boxed<TsPart>>,
        span: Range,
    },
    /// `...a`
    Rest {
        arg: Boxed<Pat>,
        type_ann: Option<Boxed<TsPart>>,
        span: Range,
    },
    /// `a = b`: a pattern with a default
    Assign {
        left: Boxed<Pat>,
        right: Boxed<Expr>,
        span: Range,
    },
    /// A simple target of an assignment.
    Expr(Boxed<Expr>),
}

/// A property of an object pattern.
#[cycle(ast)]
pub enum ObjectPatProp {
    /// `a: b` or `[a]: b`
    KeyValue {
        computed: bool,
        key: Boxed<Expr>,
        value: Boxed<Pat>,
        span: Range,
    },
    /// `a` or `a = b`
    Assign {
        key: Ident,
        value: Option<Boxed<Expr>>,
        span: Range,
    },
    /// `...a`
    Rest {
        arg: Boxed<Pat>,
        span: Range,
    },
}

/// A property of an object.
#[cycle(ast)]
pub enum Prop {
    /// `...a`
    Spread {
        expr: Boxed<Expr>,
        span: Range,
    },
    Shorthand(Ident),
    /// `a: b` or `[a]: b`
    KeyValue {
        computed: bool,
        key: Boxed<Expr>,
        value: Boxed<Expr>,
        span: Range,
    },
    /// `a() {}`, also with `get` or `set`
    Method {
        kind: MethodKind,
        computed: bool,
        key: Boxed<Expr>,
        function: Boxed<Function>,
        span: Range,
    },
}

/// What follows `function`, a method's key, or an arrow's parameters with its body.
#[cycle(ast)]
pub struct Function {
    pub ident: Option<Ident>,
    pub is_async: bool,
    pub is_generator: bool,
    pub type_params: Option<Boxed<TsPart>>,
    pub params: Items<Param>,
    pub return_type: Option<Boxed<TsPart>>,
    pub body: Option<Boxed<Stmt>>,
    pub span: Range,
}

/// A parameter of a function.
#[cycle(ast)]
pub struct Param {
    pub modifiers: Modifiers,
    pub pat: Boxed<Pat>,
    pub span: Range,
}

/// `a = b` or `a!: b` in a declaration of variables.
#[cycle(ast)]
pub struct VarDeclarator {
    pub name: Boxed<Pat>,
    pub definite: bool,
    pub init: Option<Boxed<Expr>>,
    pub span: Range,
}

/// `case a: b`, or without a test `default: b`.
#[cycle(ast)]
pub struct SwitchCase {
    pub test: Option<Boxed<Expr>>,
    pub cons: Items<Stmt>,
    pub span: Range,
}

/// A member of an enum.
#[cycle(ast)]
pub struct TsEnumMember {
    pub computed: bool,
    pub id: Boxed<Expr>,
    pub init: Option<Boxed<Expr>>,
    pub span: Range,
}

/// A class, from its keyword on.
#[cycle(ast)]
pub struct Class {
    pub ident: Option<Ident>,
    pub is_abstract: bool,
    pub type_params: Option<Boxed<TsPart>>,
    pub super_class: Option<Boxed<Expr>>,
    pub super_type_args: Option<Boxed<TsPart>>,
    pub implements: Option<Boxed<TsPart>>,
    pub body: Items<ClassMember>,
    pub span: Range,
}

/// A member of a class.
#[cycle(ast)]
pub enum ClassMember {
    /// `;`
    Empty(Range),
    /// `static { a; }`
    StaticBlock {
        stmts: Items<Stmt>,
        span: Range,
    },
    /// `[a: b]: c`
    TsIndexSignature {
        modifiers: Modifiers,
        name: Ident,
        of: Option<Boxed<TsPart>>,
        type_ann: Option<Boxed<TsPart>>,
        span: Range,
    },
    /// `a() {}`, also with `get` or `set`
    Method {
        modifiers: Modifiers,
        kind: MethodKind,
        computed: bool,
        key: Boxed<Expr>,
        optional: bool,
        function: Boxed<Function>,
        span: Range,
    },
    /// `a = b`, also with `accessor`
    Prop {
        modifiers: Modifiers,
        computed: bool,
        key: Boxed<Expr>,
        optional: bool,
        definite: bool,
        type_ann: Option<Boxed<TsPart>>,
        value: Option<Boxed<Expr>>,
        span: Range,
    },
}
