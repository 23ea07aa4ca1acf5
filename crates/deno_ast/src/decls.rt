//! Imports and exports among the items of a program, and whether its tokens look like one.
ghost use Rattle.std.specs.Prelude.{◌≡◌};
ghost use Rattle.std.specs.List.{list_any};
ghost use Rattle.es_program.specs.items.Lent.{lent_item, items_left};
ghost use Rattle.deno_ast.specs.Steps as spec;

use es_program::items::{Body, ModuleItemRef, first_item};
use es_token::{Token, TokenKind};

/// Whether an import or an export is among these items.
pub fn has_decl(body: &Body<'_>) -> bool
    ensures { result ≡ list_any spec.is_decl (items_left body.now) }
{
    let mut rest = *body;
    while let Some((item, others)) = first_item(&rest) {
        if is_decl(item) {
            return true;
        }
        rest = others;
    }
    false
}

fn is_decl(item: ModuleItemRef<'_>) -> bool
    ensures { result ≡ spec.is_decl (lent_item item.entry) }
{
    match item {
        ModuleItemRef::ModuleDecl(_) => true,
        ModuleItemRef::Stmt(_) => false,
    }
}

/// Whether an import or an export seems to be outside all braces: a guess, from the end, which only costs time where
/// it is wrong.
pub fn looks_like_module(tokens: &[Token]) -> bool {
    let mut next = TokenKind::Semicolon;
    let mut depth = 0usize;
    for token in tokens.iter().rev() {
        let kind = token.kind();
        if depth == 0 && opens_decl(kind, next) {
            return true;
        }
        depth = depth_before(kind, depth);
        next = kind;
    }
    false
}

fn depth_before(kind: TokenKind, behind: usize) -> usize {
    match kind {
        TokenKind::CloseBrace => behind.saturating_add(1),
        TokenKind::OpenBrace => behind.saturating_sub(1),
        _ => behind,
    }
}

// Neither `import(..)`, `import.meta` nor the name of a property.
fn opens_decl(kind: TokenKind, next: TokenKind) -> bool {
    matches!(kind, TokenKind::ExportWord | TokenKind::ImportWord)
        && !matches!(
            next,
            TokenKind::OpenParen
                | TokenKind::Dot
                | TokenKind::Equal
                | TokenKind::Semicolon
                | TokenKind::CloseParen
        )
}
