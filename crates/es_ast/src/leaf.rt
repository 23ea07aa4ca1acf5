use crate::ts::{BigInt, Ident, Number, Str, TsEntityName};
use base::{Items, Range, Text};

/// A regular expression, as it is spelled, with its flags.
pub struct Regex {
    pub raw: Text,
    pub span: Range,
}

/// A literal that is an expression (ECMA-262, "Literals").
pub enum Lit {
    Null(Range),
    Bool { value: bool, span: Range },
    Num(Number),
    BigInt(BigInt),
    Str(Str),
    Regex(Regex),
}

/// A name in the list of an import or an export, or the key of an attribute.
pub enum ModuleExportName {
    Ident(Ident),
    Str(Str),
}

/// `a: "b"` in the attributes of an import or an export.
pub struct ImportAttribute {
    pub key: ModuleExportName,
    pub value: Str,
    pub span: Range,
}

/// `with { a: "b" }` (ECMA-262, "WithClause").
pub struct ImportAttributes {
    pub items: Items<ImportAttribute>,
    pub span: Range,
}

/// `a`, `a as b` or `type a` in the list of an import.
pub struct ImportSpecifier {
    pub type_only: bool,
    /// The name before `as`, where there is one.
    pub imported: Option<ModuleExportName>,
    pub local: Ident,
    pub span: Range,
}

/// `* as a` or `{ a, b }`.
pub enum ImportNames {
    Namespace {
        local: Ident,
        span: Range,
    },
    Named {
        specifiers: Items<ImportSpecifier>,
        span: Range,
    },
}

/// What an import binds (ECMA-262, "ImportClause").
pub enum ImportClause {
    /// `a`
    Default(Ident),
    /// `a, { b }`
    Both {
        default: Ident,
        names: ImportNames,
        span: Range,
    },
    /// `{ a }`
    Names(ImportNames),
}

/// How far an import takes a module (the standard, and TC39's proposals of `import source` and `import defer`).
#[derive(Clone, Copy, Debug, PartialEq, Eq)]
pub enum ImportPhase {
    /// The module is linked and evaluated.
    Evaluation,
    /// Its source is loaded: `import source a from "b";`
    Source,
    /// It is linked, and evaluated when a name of it is first read: `import defer * as a from "b";`
    Defer,
}

/// `import type a from "b" with { c: "d" };` (ECMA-262, "ImportDeclaration").
pub struct ImportDecl {
    /// Whether `type` follows `import` as a modifier.
    pub type_only: bool,
    /// `Evaluation` where no other phase is written.
    pub phase: ImportPhase,
    /// Absent in `import "a";`.
    pub clause: Option<ImportClause>,
    pub src: Str,
    pub with: Option<ImportAttributes>,
    pub span: Range,
}

/// `a`, `a as b` or `type a` in the list of an export.
pub struct ExportSpecifier {
    pub type_only: bool,
    pub orig: ModuleExportName,
    /// The name after `as`, if any.
    pub exported: Option<ModuleExportName>,
    pub span: Range,
}

/// `export { a };` or `export type { a } from "b" with { c: "d" };`.
pub struct NamedExport {
    /// Whether `type` follows `export` as a modifier.
    pub type_only: bool,
    pub specifiers: Items<ExportSpecifier>,
    pub src: Option<Str>,
    pub with: Option<ImportAttributes>,
    pub span: Range,
}

/// `export * from "a";` or `export type * as b from "a" with { c: "d" };`.
pub struct ExportAll {
    /// Whether `type` follows `export` as a modifier.
    pub type_only: bool,
    /// The name after `as`, if any.
    pub exported: Option<ModuleExportName>,
    pub src: Str,
    pub with: Option<ImportAttributes>,
    pub span: Range,
}

/// What `import a =` names.
pub enum TsModuleRef {
    /// `a.b`
    TsEntityName(TsEntityName),
    /// `require("a")`
    TsExternalModuleRef { expr: Str, span: Range },
}

/// `export import type a = require("b");`
pub struct TsImportEqualsDecl {
    pub is_export: bool,
    /// Whether `type` follows `import` as a modifier.
    pub type_only: bool,
    pub id: Ident,
    pub module_ref: TsModuleRef,
    pub span: Range,
}

/// `export as namespace a;`
pub struct TsNamespaceExportDecl {
    pub id: Ident,
    pub span: Range,
}

/// How variables are declared.
pub enum VarDeclKind {
    Var,
    Let,
    Const,
    Using,
    AwaitUsing,
}

pub enum UnaryOp {
    Minus,
    Plus,
    Bang,
    Tilde,
    TypeOf,
    Void,
    Delete,
}

pub enum UpdateOp {
    PlusPlus,
    MinusMinus,
}

pub enum BinaryOp {
    EqEq,
    NotEq,
    EqEqEq,
    NotEqEq,
    Lt,
    LtEq,
    Gt,
    GtEq,
    LShift,
    RShift,
    ZeroFillRShift,
    Add,
    Sub,
    Mul,
    Div,
    Mod,
    BitOr,
    BitXor,
    BitAnd,
    LogicalOr,
    LogicalAnd,
    In,
    InstanceOf,
    Exp,
    NullishCoalescing,
}

pub enum AssignOp {
    Assign,
    AddAssign,
    SubAssign,
    MulAssign,
    DivAssign,
    ModAssign,
    LShiftAssign,
    RShiftAssign,
    ZeroFillRShiftAssign,
    BitOrAssign,
    BitXorAssign,
    BitAndAssign,
    ExpAssign,
    AndAssign,
    OrAssign,
    NullishAssign,
}

/// `public`, `protected` or `private`.
pub enum Accessibility {
    Absent,
    Public,
    Protected,
    Private,
}

/// What precedes the name of a class's member or of a constructor's parameter.
pub struct Modifiers {
    pub accessibility: Accessibility,
    pub is_static: bool,
    pub is_abstract: bool,
    pub is_override: bool,
    pub readonly: bool,
    pub declare: bool,
    /// `accessor` before the key of a property.
    pub accessor: bool,
}
