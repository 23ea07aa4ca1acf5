//! How names are bound, and what scopes enclose them.

ghost use Rattle.std.specs.Prelude.{◌≡◌};
ghost use Rattle.es_variables.specs.scope_analysis.Kinds.{is_import};

use base::{Items, Text};

/// How a name is bound.
#[derive(Clone, Copy, Debug, PartialEq, Eq, Hash)]
pub enum BindingKind {
    Var,
    Const,
    Let,
    Function,
    Param,
    Class,
    CatchClause,
    /// `import * as a from "a"`
    NamespaceImport,
    /// Any other name of an import.
    ValueImport,
    /// An alias of a type, or an interface.
    TypeName,
}

impl BindingKind {
    pub fn is_import(&self) -> bool
        ensures { result ≡ is_import self.now }
    {
        match self {
            BindingKind::NamespaceImport => true,
            BindingKind::ValueImport => true,
            BindingKind::Var => false,
            BindingKind::Const => false,
            BindingKind::Let => false,
            BindingKind::Function => false,
            BindingKind::Param => false,
            BindingKind::Class => false,
            BindingKind::CatchClause => false,
            BindingKind::TypeName => false,
        }
    }
}

/// What encloses a name.
#[derive(Clone, Copy, Debug, PartialEq, Eq, Hash)]
pub enum ScopeKind {
    Arrow,
    Function,
    Block,
    Loop,
    Class,
    Switch,
    With,
    Catch,
}

/// A name as it is spelled, and the number of the scope that declares it; 0 where none does.
#[derive(Debug, PartialEq, Eq, Drop)]
pub struct Id {
    pub sym: Text,
    pub ctxt: u32,
}

/// How a name is bound, and what encloses it, the outermost first.
#[derive(Debug, Drop)]
pub struct Var {
    pub path: Items<ScopeKind>,
    pub kind: BindingKind,
}

impl Var {
    pub fn path(&self) -> &[ScopeKind]
        ensures { result.now ≡ self.now.path }
    {
        self.path.as_slice()
    }

    pub fn kind(&self) -> BindingKind
        ensures { result ≡ self.now.kind }
    {
        self.kind
    }
}
