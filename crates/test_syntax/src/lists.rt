//! Every short list of tokens against an enumeration.

use crate::told::{Ask, told};
use es_lexer::{Token, TokenKind, lex_tokens};
use grammar_theory::{Lang, Mode};
use std::alloc::{AllocError, Global};
use std::test::Fail;

/// Whether END is before that token, and takes none.
fn ends(next: &Option<Token>) -> bool {
    match next {
        Some(token) => token.line_before() && token.kind() != TokenKind::Semicolon,
        None => true,
    }
}

/// Whether the token is an expression.
fn is_value(token: Token) -> bool {
    token.kind() == TokenKind::Str || token.kind() == TokenKind::Name
}

/// Whether the tokens are an item, before that token: an empty one, an import, or an expression.
fn is_item(piece: &[Token], next: &Option<Token>) -> bool {
    match piece {
        [one] => one.kind() == TokenKind::Semicolon || (is_value(*one) && ends(next)),
        [first, second] => {
            let is_statement = is_value(*first) && second.kind() == TokenKind::Semicolon;
            let is_import = first.kind() == TokenKind::ImportWord
                && second.kind() == TokenKind::Str;
            is_statement || (is_import && ends(next))
        }
        [word, literal, semi] => {
            word.kind() == TokenKind::ImportWord
                && literal.kind() == TokenKind::Str
                && semi.kind() == TokenKind::Semicolon
        }
        _ => false,
    }
}

/// How many ways there are to cut the tokens into items.
fn cuts(tokens: &[Token]) -> u32 {
    if tokens.is_empty() {
        return 1;
    }
    let mut count: u32 = 0;
    for n in 1..4 {
        if n <= tokens.len() && is_item(&tokens[..n], &tokens.get(n).copied()) {
            count = count.saturating_add(cuts(&tokens[n..]));
        }
    }
    count
}

/// Whether the text has a tree where its tokens are items in one way, and none where they are in no way.
fn agrees(alloc: Global, text: &str) -> Result<bool, AllocError> {
    let got = told(alloc, Ask::Items, Lang::Es, Mode::Module, text)?;
    match lex_tokens(alloc, text) {
        Ok(lexed) => {
            let ways = cuts(lexed.tokens.as_slice());
            Ok(ways == if got.as_str() == "none" { 0 } else { 1 })
        }
        Err(_) => Ok(false),
    }
}

/// Pieces of a text: each of four tokens, with and without a line end before it, and none.
const PIECES: [&str; 9] = [
    "", " import", " 'a'", " ;", " x", "\nimport", "\n'a'", "\n;", "\nx",
];

/// Whether each text of this piece, with each piece after it up to four in all, agrees.
fn each_agrees(alloc: Global, front: &str) -> Result<bool, AllocError> {
    for c in PIECES {
        for d in PIECES {
            for e in PIECES {
                let text = format!(in alloc; "{front}{c}{d}{e}")?;
                if !agrees(alloc, text.as_str())? {
                    return Ok(false);
                }
            }
        }
    }
    Ok(true)
}

#[test]
fn every_short_list_agrees_with_the_enumeration(rt: HostRuntime) -> Result<(), Fail> {
    for front in PIECES {
        assert!(rt; each_agrees(rt.alloc(), front)?, "{front:?}");
    }
    Ok(())
}
