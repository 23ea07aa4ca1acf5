//! The types of TypeScript as a syntax tree holds them, and the names and literals that they share with the tree of
//! expressions and statements.
//!
//! - `TsType` and its parts: one variant for each form of a type, plain data that contracts compare by value. No type
//!   holds an expression, so these types are on their own, below the tree.
//! - `TsPart`: what the tree of expressions and statements holds of types.
//! - `Ident`, `Str`, `Number`, `BigInt`, `TplElement`: the leaves.
//!
//! A `span` is the range of bytes of the text that a part was read from. Contracts speak of these types and compare
//! their values. No code builds one: a program is a row of entries.

mod leaf;
mod ts;

pub use leaf::{
    BigInt, Ident, MethodKind, Number, Str, TplElement, TruePlusMinus, TsEntityName, TsKey,
    TsKeywordTypeKind, TsLit, TsThisTypeOrIdent, TsTypeOperatorOp,
};
pub use ts::{
    Nodes, TsExprWithTypeArgs, TsFnParam, TsParamPat, TsPart, TsPatProp, TsTupleElement, TsType,
    TsTypeElement, TsTypeParam,
};
