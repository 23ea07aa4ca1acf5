//! The syntax tree of a JavaScript or TypeScript program (ECMA-262, "Scripts and Modules"): one variant for each form
//! of the grammar, plain data that contracts compare by value. A `span` is the range of bytes of the text that a part
//! was read from.
//!
//! - `Program`, `ModuleItem`, `ModuleDecl`, `Stmt`, `Decl`, `Expr`, `Pat` and their parts: they hold each other.
//! - `ImportDecl`, `NamedExport`, `ExportAll`, `TsImportEqualsDecl`, literals and operators: what holds none of these.
//! - Types of TypeScript come from the crate below: `TsPart` is what this tree holds of them.
//!
//! Contracts speak of these types and compare their values. No code builds one: a program is a row of entries.
#![tactic(auto)]

mod ast;
mod leaf;
pub mod ts;

pub use crate::ts::{
    BigInt, Ident, MethodKind, Nodes, Number, Str, TplElement, TruePlusMinus, TsEntityName,
    TsExprWithTypeArgs, TsFnParam, TsKey, TsKeywordTypeKind, TsLit, TsParamPat, TsPart, TsPatProp,
    TsThisTypeOrIdent, TsTupleElement, TsType, TsTypeElement, TsTypeOperatorOp, TsTypeParam,
};
pub use ast::{
    Class, ClassMember, Decl, Expr, Function, Module, ModuleDecl, ModuleItem, ObjectPatProp, Param,
    Pat, Program, Prop, Script, Stmt, SwitchCase, TsEnumMember, VarDeclarator,
};
pub use leaf::{
    Accessibility, AssignOp, BinaryOp, ExportAll, ExportSpecifier, ImportAttribute,
    ImportAttributes, ImportClause, ImportDecl, ImportNames, ImportPhase, ImportSpecifier, Lit,
    Modifiers, ModuleExportName, NamedExport, Regex, TsImportEqualsDecl, TsModuleRef,
    TsNamespaceExportDecl, UnaryOp, UpdateOp, VarDeclKind,
};
