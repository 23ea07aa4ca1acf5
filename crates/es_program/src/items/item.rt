//! Items that are lent.
ghost use Rattle.std.specs.Prelude.{◌≡◌, true};
ghost use Rattle.es_syntax.specs.Held.{valued};
ghost use Rattle.es_syntax.specs.Roles.{stmt_in};
ghost use Rattle.es_program.specs.items.Items.{is_some, decl_in};

use crate::items::place::Place;
use std::fmt;

/// An import or an export that is lent: a node with its text and tokens.
#[derive(Clone, Copy)]
pub struct ModuleDeclRef<'a> {
    pub at: Place<'a>,
    pub ghost typed: { is_some (decl_in (valued at.text.now at.tokens.now at.node)) ≡ true },
}

/// A statement that is lent: a node with its text and tokens.
#[derive(Clone, Copy)]
pub struct StmtRef<'a> {
    pub at: Place<'a>,
    pub ghost typed: { is_some (stmt_in (valued at.text.now at.tokens.now at.node)) ≡ true },
}

/// An item of a program that is lent.
#[derive(Clone, Copy)]
pub enum ModuleItemRef<'a> {
    ModuleDecl(ModuleDeclRef<'a>),
    Stmt(StmtRef<'a>),
}

impl fmt::Debug for ModuleItemRef<'_> {
    fn fmt<W: fmt::Write>(&self, f: &mut fmt::Formatter<W>) -> fmt::Result {
        f.write_str(match self {
            ModuleItemRef::ModuleDecl(_) => "ModuleDecl",
            ModuleItemRef::Stmt(_) => "Stmt",
        })
    }
}
