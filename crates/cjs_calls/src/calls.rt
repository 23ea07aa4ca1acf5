//! Calls.

ghost use Rattle.std.specs.Prelude.{◌≡◌, OnOk};
ghost use Rattle.es_lowering.specs.Value.{as_group};
ghost use Rattle.es_lowering.specs.Expressions.{argument};
ghost use Rattle.es_view_expressions.specs.call.Args.{arguments};
ghost use Rattle.es_syntax.specs.Held.{held, valued};
ghost use Rattle.es_syntax.specs.Roles.{args_in};
ghost use Rattle.es_bound_names.specs.Cuts.{IsCut};
ghost use Rattle.cjs_facts.specs.Exports.{defined, star, called_by};
ghost use Rattle.cjs_looks.specs.Seen.{look_of};
ghost use Rattle.cjs_calls.specs.Calls.{starred_by, Makes, DefinesBy, StarsOne, StarsTwo};

use crate::arguments::descriptor;
use crate::descriptor::define;
use cjs_facts::Found;
use cjs_looks::steps::{exports_like, is_define, is_exports, is_star, star};
use cjs_looks::{Look, argument_look};
use es_syntax::{Item, Siblings};
use es_token::Token;
use es_view_expressions::call::{Args, args_at};
use std::alloc::AllocError;

/// `Object.defineProperty` of these three arguments.
#[tactic(auto, using(crate::proofs::CallForms::defines_unlike, crate::proofs::CallForms::defines_spread, crate::proofs::CallForms::defines_by))]
fn define_by(
    found: &mut Found,
    text: &str,
    tokens: &[Token],
    object: &Item<'_>,
    name: &Item<'_>,
    last: &Item<'_>,
) -> Result<(), AllocError>
    requires { IsCut text.now tokens.now }
    ensures { OnOk result (DefinesBy (argument tokens.now (as_group (valued text.now tokens.now object.now))) (argument tokens.now (as_group (valued text.now tokens.now name.now))) (argument tokens.now (as_group (valued text.now tokens.now last.now))) found.old found.new) }
{
    let object = argument_look(text, tokens, object);
    let is = exports_like(found.allocator(), text, tokens, object)?;
    if is {
        return match descriptor(text, tokens, last) {
            Some(props) => {
                let name = argument_look(text, tokens, name);
                define(found, text, tokens, name, &props)
            }
            None => Ok(()),
        };
    }
    Ok(())
}

/// `Object.defineProperty` of these arguments.
#[tactic(auto, using(crate::proofs::CallForms::defined_none, crate::proofs::CallForms::defined_one, crate::proofs::CallForms::defined_two, crate::proofs::CallForms::defined_three))]
fn defined(
    found: &mut Found,
    text: &str,
    tokens: &[Token],
    args: &Siblings<'_>,
) -> Result<(), AllocError>
    requires { IsCut text.now tokens.now }
    ensures { OnOk result (Makes defined (arguments tokens.now (held text.now tokens.now args.now.entries.now)) found.old found.new) }
{
    match args.split() {
        Some((object, rest)) => match rest.split() {
            Some((name, rest)) => match rest.split() {
                Some((last, _)) => define_by(found, text, tokens, &object, &name, &last),
                None => Ok(()),
            },
            None => Ok(()),
        },
        None => Ok(()),
    }
}

/// `__exportStar(a)`
#[tactic(auto, using(crate::proofs::CallForms::stars_one))]
fn star_one(
    found: &mut Found,
    text: &str,
    tokens: &[Token],
    first: &Item<'_>,
) -> Result<(), AllocError>
    requires { IsCut text.now tokens.now }
    ensures { OnOk result (StarsOne (argument tokens.now (as_group (valued text.now tokens.now first.now))) found.old found.new) }
{
    let look = argument_look(text, tokens, first);
    star(found, text, tokens, look)
}

/// `__exportStar(a, exports)`
#[tactic(auto, using(crate::proofs::CallForms::stars_two, crate::proofs::CallForms::stars_other))]
fn star_two(
    found: &mut Found,
    text: &str,
    tokens: &[Token],
    first: &Item<'_>,
    second: &Item<'_>,
) -> Result<(), AllocError>
    requires { IsCut text.now tokens.now }
    ensures { OnOk result (StarsTwo (argument tokens.now (as_group (valued text.now tokens.now first.now))) (argument tokens.now (as_group (valued text.now tokens.now second.now))) found.old found.new) }
{
    let object = argument_look(text, tokens, second);
    if is_exports(text, tokens, object) {
        return star_one(found, text, tokens, first);
    }
    Ok(())
}

/// `__exportStar` of these arguments.
#[tactic(auto, using(crate::proofs::CallForms::starred_none, crate::proofs::CallForms::starred_one, crate::proofs::CallForms::starred_two, crate::proofs::CallForms::starred_more))]
fn starred(
    found: &mut Found,
    text: &str,
    tokens: &[Token],
    args: &Siblings<'_>,
) -> Result<(), AllocError>
    requires { IsCut text.now tokens.now }
    ensures { OnOk result (Makes star (arguments tokens.now (held text.now tokens.now args.now.entries.now)) found.old found.new) }
{
    match args.split() {
        Some((first, rest)) => match rest.split() {
            Some((second, rest)) => match rest.split() {
                Some(_) => Ok(()),
                None => star_two(found, text, tokens, &first, &second),
            },
            None => star_one(found, text, tokens, &first),
        },
        None => Ok(()),
    }
}

/// A call of what looks so and defines nothing, with these arguments.
#[tactic(auto, using(crate::proofs::CallForms::star_is, crate::proofs::CallForms::star_not))]
fn star_by(
    found: &mut Found,
    text: &str,
    tokens: &[Token],
    callee: Look,
    args: &Siblings<'_>,
) -> Result<(), AllocError>
    requires { IsCut text.now tokens.now }
    ensures { OnOk result (Makes (starred_by (look_of text.now tokens.now callee)) (arguments tokens.now (held text.now tokens.now args.now.entries.now)) found.old found.new) }
{
    if is_star(text, tokens, callee) {
        return starred(found, text, tokens, args);
    }
    Ok(())
}

/// A call of what looks so, with these arguments.
#[tactic(auto, using(crate::proofs::CallForms::calls_define, crate::proofs::CallForms::calls_other))]
fn called_with(
    found: &mut Found,
    text: &str,
    tokens: &[Token],
    callee: Look,
    args: &Siblings<'_>,
) -> Result<(), AllocError>
    requires { IsCut text.now tokens.now }
    ensures { OnOk result (Makes (called_by (look_of text.now tokens.now callee)) (arguments tokens.now (held text.now tokens.now args.now.entries.now)) found.old found.new) }
{
    if is_define(text, tokens, callee) {
        return defined(found, text, tokens, args);
    }
    star_by(found, text, tokens, callee, args)
}

/// What a call of what looks so adds.
#[tactic(auto, using(crate::proofs::Unknown::makes_none, cjs_looks::proofs::Unknown::no_args))]
pub fn called(
    found: &mut Found,
    text: &str,
    tokens: &[Token],
    callee: Look,
    args: &Item<'_>,
) -> Result<(), AllocError>
    requires { IsCut text.now tokens.now }
    ensures { OnOk result (Makes (called_by (look_of text.now tokens.now callee)) (args_in (valued text.now tokens.now args.now)) found.old found.new) }
{
    match args_at(args) {
        Some(Args::Arguments(turns)) => called_with(found, text, tokens, callee, &turns),
        Some(Args::Broken) => Ok(()),
        None => Ok(()),
    }
}
