//! The items of a module, with its text and its tokens.

ghost use Rattle.std.specs.Prelude.{◌≡◌, Some};
ghost use Rattle.es_lowering.specs.Value.{turns, item_at};
ghost use Rattle.es_lexer.specs.Reads.{ReadsTokens};
ghost use Rattle.es_syntax.specs.Held.{held};
ghost use Rattle.es_bound_names.specs.Cuts.{IsCut};

use es_program::Module;
use es_syntax::Siblings;
use es_token::Token;

/// The text and the tokens of a module, and its items as turns.
pub fn module_items(it: &Module) -> (&str, &[Token], Siblings<'_>)
    ensures cut { IsCut result.0.now result.1.now }
    ensures items { turns (λ turn. item_at turn 0) (held result.0.now result.1.now result.2.entries.now) ≡ Some it.now.typed.body }
{
    let (text, tokens, row) = it.parts();
    let Some(node) = row.part(0) else {
        unreachable!()
    };
    tokens_cut(text, tokens);
    (text, tokens, node.parts.group_at(1))
}

/// The tokens of a text cut it between characters: a law, and nothing to run.
fn tokens_cut(text: &str, tokens: &[Token])
    requires { ReadsTokens text.now tokens.now }
    ensures { IsCut text.now tokens.now }
{}
