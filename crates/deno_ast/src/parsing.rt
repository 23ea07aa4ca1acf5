//! The calls that parse.
ghost use Rattle.std.specs.Prelude.{◌≡◌, false, [], ◌∷◌, IfOk};
ghost use Rattle.std.specs.Result.{IfErr};
ghost use Rattle.grammar_theory.specs.declared.error.Mode.TheVariants as mode;
ghost use Rattle.source_text.specs.module_text.ModuleText.{without_mark};
ghost use Rattle.source_reading.specs.Tree as tree;
ghost use Rattle.source_reading.specs.Fault.{Refuses};
ghost use Rattle.source_sites.specs.Modes.{modes_in};
ghost use Rattle.deno_ast.specs.Source.{IsParsed, IsParsedWith, IsFault, OfModule, OfScript};

use crate::params::{ParseParams, without_bom};
use crate::reading::{Reading, read_in};
use crate::source::{ParsedSource, source_of};
use es_program::{Form, Module, Program, Script};
use grammar_theory::Mode;
use parse_diagnostic::ParseFault;
use source_sites::{Modes, modes_of};
use std::alloc::Global;

/// The source of a text, less one byte order mark at its front, read in the first of the modes of its media type in
/// which it is a program: as a script alone for `Cjs`, as a module alone for `Cts`, `Mjs` and `Mts`, else as a script
/// or, where it is none, as a module.
pub fn parse_program(alloc: Global, params: ParseParams) -> Result<ParsedSource, ParseFault>
    // What is answered is the source.
    ensures parsed { IfOk result (IsParsed (tree.modes_of params.media_type) params (without_mark params.text)) }
    // A refusal, but for memory, is the fault of the text.
    ensures refused { IfErr result (Refuses
        (IsFault (tree.modes_of params.media_type) params (without_mark params.text))) }
{
    let modes = modes_of(params.media_type);
    parse_in(alloc, without_bom(params), modes)
}

/// The same of a text as it is, which has no byte order mark.
pub fn parse_text(alloc: Global, params: ParseParams) -> Result<ParsedSource, ParseFault>
    ensures parsed { IfOk result (IsParsed (tree.modes_of params.media_type) params params.text) }
    ensures refused { IfErr result (Refuses (IsFault (tree.modes_of params.media_type) params params.text)) }
{
    let modes = modes_of(params.media_type);
    parse_in(alloc, params, modes)
}

/// The same as `parse_program`, read as a module alone.
pub fn parse_module(alloc: Global, params: ParseParams) -> Result<ParsedSource, ParseFault>
    ensures parsed { IfOk result (IsParsed (mode.Module ∷ []) params (without_mark params.text)) }
    ensures refused { IfErr result (Refuses (IsFault (mode.Module ∷ []) params (without_mark params.text))) }
{
    parse_in(alloc, without_bom(params), Modes::Only(Mode::Module))
}

/// The same as `parse_program`, read as a script alone.
pub fn parse_script(alloc: Global, params: ParseParams) -> Result<ParsedSource, ParseFault>
    ensures parsed { IfOk result (IsParsed (mode.Script ∷ []) params (without_mark params.text)) }
    ensures refused { IfErr result (Refuses (IsFault (mode.Script ∷ []) params (without_mark params.text))) }
{
    parse_in(alloc, without_bom(params), Modes::Only(Mode::Script))
}

fn parse_in(alloc: Global, params: ParseParams, modes: Modes) -> Result<ParsedSource, ParseFault>
    ensures parsed { IfOk result (IsParsed (modes_in modes) params params.text) }
    ensures refused { IfErr result (Refuses (IsFault (modes_in modes) params params.text)) }
{
    let reading = read_in(alloc, &params, modes)?;
    Ok(source_of(alloc, params, reading)?)
}

/// As `parse_program`; the source keeps what `post_process` makes of the tree.
pub fn parse_program_with_post_process<F: FnOnce(Program) -> Program>(
    alloc: Global,
    params: ParseParams,
    post_process: F,
) -> Result<ParsedSource, ParseFault>
    requires callable { F.IsAlwaysCallable post_process }
    ensures parsed { IfOk result (IsParsedWith (F.post post_process)
        (tree.modes_of params.media_type) params (without_mark params.text)) }
    ensures refused { IfErr result (Refuses
        (IsFault (tree.modes_of params.media_type) params (without_mark params.text))) }
{
    let modes = modes_of(params.media_type);
    let params = without_bom(params);
    let Reading {
        program,
        tokens,
        comments,
    } = read_in(alloc, &params, modes)?;
    let reading = Reading {
        program: post_process(program),
        tokens,
        comments,
    };
    Ok(source_of(alloc, params, reading)?)
}

/// As `parse_module`; the source keeps what `post_process` makes of the module.
pub fn parse_module_with_post_process<F: FnOnce(Module) -> Module>(
    alloc: Global,
    params: ParseParams,
    post_process: F,
) -> Result<ParsedSource, ParseFault>
    requires callable { F.IsAlwaysCallable post_process }
    ensures parsed { IfOk result (IsParsedWith (OfModule (F.post post_process))
        (mode.Module ∷ []) params (without_mark params.text)) }
    ensures refused { IfErr result (Refuses (IsFault (mode.Module ∷ []) params (without_mark params.text))) }
{
    let params = without_bom(params);
    let Reading {
        program,
        tokens,
        comments,
    } = read_in(alloc, &params, Modes::Only(Mode::Module))?;
    let reading = Reading {
        program: change_module(program, post_process),
        tokens,
        comments,
    };
    Ok(source_of(alloc, params, reading)?)
}

/// As `parse_script`; the source keeps what `post_process` makes of the script.
pub fn parse_script_with_post_process<F: FnOnce(Script) -> Script>(
    alloc: Global,
    params: ParseParams,
    post_process: F,
) -> Result<ParsedSource, ParseFault>
    requires callable { F.IsAlwaysCallable post_process }
    ensures parsed { IfOk result (IsParsedWith (OfScript (F.post post_process))
        (mode.Script ∷ []) params (without_mark params.text)) }
    ensures refused { IfErr result (Refuses (IsFault (mode.Script ∷ []) params (without_mark params.text))) }
{
    let params = without_bom(params);
    let Reading {
        program,
        tokens,
        comments,
    } = read_in(alloc, &params, Modes::Only(Mode::Script))?;
    let reading = Reading {
        program: change_script(program, post_process),
        tokens,
        comments,
    };
    Ok(source_of(alloc, params, reading)?)
}

// The program with what is made of its module.
fn change_module<F: FnOnce(Module) -> Module>(program: Program, post_process: F) -> Program
    requires { F.IsAlwaysCallable post_process }
    ensures { OfModule (F.post post_process) program result }
{
    match program.into_form() {
        Form::Module(module) => Program::from_form(Form::Module(post_process(module))),
        Form::Script(script) => Program::from_form(Form::Script(script)),
    }
}

// The program with what is made of its script.
fn change_script<F: FnOnce(Script) -> Script>(program: Program, post_process: F) -> Program
    requires { F.IsAlwaysCallable post_process }
    ensures { OfScript (F.post post_process) program result }
{
    match program.into_form() {
        Form::Module(module) => Program::from_form(Form::Module(module)),
        Form::Script(script) => Program::from_form(Form::Script(post_process(script))),
    }
}
