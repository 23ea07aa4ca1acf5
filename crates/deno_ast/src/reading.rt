//! What a text is read as.
ghost use Rattle.std.specs.Prelude.{IfOk};
ghost use Rattle.std.specs.Result.{IfErr};
ghost use Rattle.es_lexer.specs.Reads.{Reads, ReadsTokens};
ghost use Rattle.es_ast.specs.declared.ast.Program.{Program as Typed};
ghost use Rattle.es_parser.specs.Answers.{GivesTree, IsOwn};
ghost use Rattle.source_reading.specs.Tree.{IsFirstTree};
ghost use Rattle.source_reading.specs.Fault.{Refuses};
ghost use Rattle.source_sites.specs.Modes.{modes_in};
ghost use Rattle.deno_ast.specs.Source.{IsFault, lang_for};
ghost use Rattle.deno_ast.specs.Steps.{IsReading};

use crate::params::ParseParams;
use crate::syntax::lang_in;
use crate::tree::tree_in;
use base::Items;
use es_lexer::lex_tokens;
use es_program::{Program, SharedTokens};
use es_token::{Comment, Lexed};
use grammar_theory::SyntaxError;
use parse_diagnostic::ParseFault;
use source_sites::{Modes, lexical_fault, syntax_fault};
use std::alloc::Global;

/// What a text was read as.
#[derive(Drop)]
pub struct Reading {
    pub program: Program,
    pub tokens: SharedTokens,
    pub comments: Items<Comment>,
}

/// The text of the parameters as it is, read in the first of these modes in which it is a program.
pub fn read_in(alloc: Global, params: &ParseParams, modes: Modes) -> Result<Reading, ParseFault>
    ensures read { IfOk result (IsReading (modes_in modes) params.now) }
    ensures refused { IfErr result (Refuses (IsFault (modes_in modes) params.now params.now.text)) }
{
    match lex_tokens(alloc, params.text.as_str()) {
        Ok(lexed) => read_lexed(alloc, params, modes, lexed),
        Err(error) => Err(lexical_fault(alloc, &params.specifier, &params.text, error)),
    }
}

fn read_lexed(
    alloc: Global,
    params: &ParseParams,
    modes: Modes,
    lexed: Lexed,
) -> Result<Reading, ParseFault>
    requires { Reads params.now.text lexed.tokens lexed.comments }
    ensures read { IfOk result (IsReading (modes_in modes) params.now) }
    ensures refused { IfErr result (Refuses (IsFault (modes_in modes) params.now params.now.text)) }
{
    let Lexed { tokens, comments } = lexed;
    match SharedTokens::new(alloc, tokens) {
        Ok(tokens) => read_tokens(alloc, params, modes, tokens, comments),
        Err(_) => Err(ParseFault::OutOfMemory),
    }
}

fn read_tokens(
    alloc: Global,
    params: &ParseParams,
    modes: Modes,
    tokens: SharedTokens,
    comments: Items<Comment>,
) -> Result<Reading, ParseFault>
    requires { Reads params.now.text tokens comments }
    ensures read { IfOk result (IsReading (modes_in modes) params.now) }
    ensures refused { IfErr result (Refuses (IsFault (modes_in modes) params.now params.now.text)) }
{
    match tree_of(alloc, params, modes, &tokens) {
        Ok(program) => Ok(Reading {
            program,
            tokens,
            comments,
        }),
        Err(SyntaxError::Syntax { token }) => Err(syntax_fault(
            alloc,
            &params.specifier,
            &params.text,
            tokens.as_slice(),
            token,
        )),
        Err(SyntaxError::OutOfMemory) => Err(ParseFault::OutOfMemory),
    }
}

// The tree of the tokens, in the language of the parameters.
fn tree_of(
    alloc: Global,
    params: &ParseParams,
    modes: Modes,
    tokens: &SharedTokens,
) -> Result<Program, SyntaxError>
    requires { ReadsTokens params.now.text tokens.now }
    ensures made { IfOk result (λ p. IsFirstTree (lang_for params.now) params.now.text tokens.now (modes_in modes) p.typed) }
    ensures own { IfOk result (IsOwn (lang_for params.now) params.now.text tokens.now) }
    ensures only { (tree : Typed) → IsFirstTree (lang_for params.now) params.now.text tokens.now (modes_in modes) tree
        → GivesTree result tree }
{
    let lang = lang_in(params.maybe_syntax, params.media_type);
    tree_in(alloc, lang, modes, &params.text, tokens)
}
