//! Classes.

ghost use Rattle.std.specs.Prelude.{◌≡◌, false};
ghost use Rattle.es_lexer.specs.Reads.{ReadsTokens};
ghost use Rattle.es_grammar.specs.declared.rows.NodeKind.TheVariants as l;
ghost use Rattle.es_lowering.specs.Value.{as_group, member_at, turns};
ghost use Rattle.es_lowering.specs.Texts.{span_of};
ghost use Rattle.es_lowering.specs.Classes.{class_};
ghost use Rattle.es_lowering.specs.TypedFunctions as typed_functions;
ghost use Rattle.es_syntax.specs.Held.{held, valued};
ghost use Rattle.es_syntax.specs.Roles.{decl_in, declarable_in};
ghost use Rattle.dts_members.specs.Classes as made;
ghost use Rattle.dts_members.specs.Classes.{ClassBy, DeclBy, DeclaresBy};
ghost use Rattle.dts_members.specs.Members.{MembersBy, TurnBy};

use crate::members::member;
use crate::overloads::RangeSet;
use dts_draft::Draft;
use dts_enums::keep_part;
use dts_names::Env;
use es_grammar::NodeKind;
use es_syntax::{Item, Siblings, What};

/// The member in a turn, where the declaration has it; else its text is dropped.
fn member_turn(out: &mut Draft, env: &Env<'_>, ranges: &RangeSet, turn: &Item<'_>)
    requires { ReadsTokens env.now.text.now env.now.tokens.now }
    ensures before { out.new.failed ≡ false → out.old.failed ≡ false }
    ensures written { out.new.failed ≡ false → TurnBy env.now ranges.now out.old out.new (member_at (as_group (valued env.now.text.now env.now.tokens.now turn.now)) 0) }
{
    match turn.group().part(0) {
        Some(it) => {
            let place = out.open();
            if member(out, env, ranges, &it) {
                out.close_group(place);
            } else {
                out.back_to(place);
                out.dropped(it.from, it.to);
            }
        }
        None => out.fail(),
    }
}

/// The members in these turns.
fn all_members(out: &mut Draft, env: &Env<'_>, ranges: &RangeSet, all: &Siblings<'_>)
    requires { ReadsTokens env.now.text.now env.now.tokens.now }
    ensures before { out.new.failed ≡ false → out.old.failed ≡ false }
    ensures written { out.new.failed ≡ false → MembersBy env.now ranges.now out.old out.new (turns (λ turn. member_at turn 0) (held env.now.text.now env.now.tokens.now all.now.entries.now)) }
{
    let mut row = *all;
    while let Some((turn, rest)) = row.split() {
        member_turn(out, env, ranges, &turn);
        row = rest;
    }
}

/// A class of JavaScript.
fn plain_class(out: &mut Draft, env: &Env<'_>, ranges: &RangeSet, it: &Item<'_>)
    requires { ReadsTokens env.now.text.now env.now.tokens.now }
    ensures before { out.new.failed ≡ false → out.old.failed ≡ false }
    ensures written { out.new.failed ≡ false → ClassBy env.now ranges.now out.old out.new l.Class it.now.from it.now.to (class_ env.now.text.now env.now.tokens.now (span_of env.now.tokens.now it.now.from it.now.to)) (class_ env.now.text.now env.now.tokens.now (span_of env.now.tokens.now it.now.from it.now.to) (held env.now.text.now env.now.tokens.now it.now.parts.entries.now)) }
{
    let place = out.open();
    keep_part(out, &it.parts, 0);
    keep_part(out, &it.parts, 1);
    let group = out.open();
    all_members(out, env, ranges, &it.parts.group_at(2));
    out.close_group(group);
    out.close_node(place, NodeKind::Class, it.from, it.to);
}

/// Classes of TypeScript, with `abstract` or not.
fn typed_label(is_abstract: bool) -> NodeKind
    ensures { result ≡ made.typed_label is_abstract }
{
    if is_abstract {
        return NodeKind::AbstractClass;
    }
    NodeKind::TypedClass
}

/// A class of TypeScript.
fn typed_class(out: &mut Draft, env: &Env<'_>, ranges: &RangeSet, is_abstract: bool, it: &Item<'_>)
    requires { ReadsTokens env.now.text.now env.now.tokens.now }
    ensures before { out.new.failed ≡ false → out.old.failed ≡ false }
    ensures written { out.new.failed ≡ false → ClassBy env.now ranges.now out.old out.new (made.typed_label is_abstract) it.now.from it.now.to (typed_functions.typed_class env.now.text.now env.now.tokens.now is_abstract (span_of env.now.tokens.now it.now.from it.now.to)) (typed_functions.typed_class env.now.text.now env.now.tokens.now is_abstract (span_of env.now.tokens.now it.now.from it.now.to) (held env.now.text.now env.now.tokens.now it.now.parts.entries.now)) }
{
    let place = out.open();
    keep_part(out, &it.parts, 0);
    keep_part(out, &it.parts, 1);
    keep_part(out, &it.parts, 2);
    keep_part(out, &it.parts, 3);
    let group = out.open();
    all_members(out, env, ranges, &it.parts.group_at(4));
    out.close_group(group);
    out.close_node(place, typed_label(is_abstract), it.from, it.to);
}

/// A class with the members that its declaration has. `ranges` are those of the bodies of overloads.
pub fn class(out: &mut Draft, env: &Env<'_>, ranges: &RangeSet, it: &Item<'_>)
    requires { ReadsTokens env.now.text.now env.now.tokens.now }
    ensures before { out.new.failed ≡ false → out.old.failed ≡ false }
    ensures decl { out.new.failed ≡ false → DeclBy env.now ranges.now out.old out.new (decl_in (valued env.now.text.now env.now.tokens.now it.now)) }
    ensures declarable { out.new.failed ≡ false → DeclaresBy env.now ranges.now out.old out.new (span_of env.now.tokens.now it.now.from it.now.to) (declarable_in (valued env.now.text.now env.now.tokens.now it.now)) }
{
    match it.what {
        What::Node(label) => match label {
            NodeKind::Class => plain_class(out, env, ranges, it),
            NodeKind::TypedClass => typed_class(out, env, ranges, false, it),
            NodeKind::AbstractClass => typed_class(out, env, ranges, true, it),
            _ => out.fail(),
        },
        What::Leaf => out.fail(),
        What::Role(_) => out.fail(),
        What::Parts => out.fail(),
        What::Lean(_) => out.fail(),
    }
}
