//! The printed text of a program that is lent.
ghost use Rattle.std.specs.Prelude.{◌≡◌, None, IfOk};
ghost use Rattle.deno_ast.specs.Refs.{tree_of};
ghost use Rattle.es_program_printer.specs.Printed.{IsPrinted, kept_comments};

use crate::program_ref::ProgramRef;
use es_comments::MultiThreadedComments;
use es_program_printer::{EmitOptions, EmittedSourceText, emit_module, emit_script};
use std::alloc::{AllocError, Global};

/// The printed text of a program; before each item the comments that lead at its start, each on a line, unless these are left
/// out. No source map is made.
pub fn emit(
    alloc: Global,
    program: ProgramRef<'_>,
    comments: &MultiThreadedComments,
    options: &EmitOptions,
) -> Result<EmittedSourceText, AllocError>
    ensures text { IfOk result (λ it. IsPrinted (tree_of program.entry) (kept_comments options.now.remove_comments comments.now) it.text) }
    ensures map { IfOk result (λ it. it.source_map ≡ None) }
{
    match program {
        ProgramRef::Module(module) => emit_module(alloc, module, comments, options),
        ProgramRef::Script(script) => emit_script(alloc, script, comments, options),
    }
}
