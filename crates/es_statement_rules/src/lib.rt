//! Rows of the table of programs (`es_grammar`): statements, declarations, items of modules.
#![tactic(auto)]

mod declarations;
mod items;
mod loops;
mod modules;
mod statements;
mod typed;

pub use declarations::{
    Block, ConditionIn, Declaration, Declarator, Declarators, PlainDeclaration, Using, Variables,
};
pub use items::{
    DefaultExpression, DefaultInterface, ExportDefault, ExportItem, ExportNames, Item, Module,
    OtherDefault, Script, ShebangIn,
};
pub use loops::{For, ForAwait, ForEach, StartIn};
pub use modules::{
    Attributes, AttributesEnded, Clause, DeferImport, Entity, EqualsIn, Export, ExportSpecifier,
    FromEnded, Import, ImportSpecifier, Named, NamesIn, Required, SourceImport, TypeWordIn,
    WordOrStrIn,
};
pub use statements::{
    CaseIn, ExpressionStatement, FinallyIn, KeywordStatement, LabelEnded, Return, Statement,
    Switch, Try,
};
pub use typed::{
    Alias, Declare, Declared, Enum, Global, Interface, ItemsIn, ModuleNamespace, Namespace,
    TypeMembers, TypedDeclaration,
};
