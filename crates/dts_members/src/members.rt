//! Members of classes.

ghost use Rattle.std.specs.Prelude.{◌≡◌, false, true};
ghost use Rattle.es_lexer.specs.Reads.{ReadsTokens};
ghost use Rattle.es_lowering.specs.Texts.{span_of};
ghost use Rattle.es_lowering.specs.Lowering.{member_of};
ghost use Rattle.es_syntax.specs.declared.entry.What.TheVariants as vWhat;
ghost use Rattle.es_syntax.specs.Held.{held, valued};
ghost use Rattle.es_syntax.specs.Roles.{member_in};
ghost use Rattle.dts_members.specs.Members.{MemberBy};

use crate::methods::{accessor_method, async_method, plain_method};
use crate::overloads::RangeSet;
use crate::typed_methods::{typed_accessor_method, typed_async_method, typed_method};
use dts_draft::Draft;
use dts_fields::{plain_field, typed_field};
use dts_names::Env;
use es_grammar::NodeKind;
use es_syntax::{Item, What};

/// What no grammar makes.
fn unread(out: &mut Draft) -> bool
    ensures failed { out.new.failed ≡ true }
{
    out.fail();
    false
}

/// A member of this alternative.
fn labelled(
    out: &mut Draft,
    env: &Env<'_>,
    ranges: &RangeSet,
    label: NodeKind,
    it: &Item<'_>,
) -> bool
    requires { ReadsTokens env.now.text.now env.now.tokens.now }
    ensures before { out.new.failed ≡ false → out.old.failed ≡ false }
    ensures written { out.new.failed ≡ false → it.now.what ≡ vWhat.Node label → MemberBy env.now ranges.now out.old out.new result (member_of env.now.text.now env.now.tokens.now label (span_of env.now.tokens.now it.now.from it.now.to) (held env.now.text.now env.now.tokens.now it.now.parts.entries.now)) }
{
    match label {
        NodeKind::EmptyMember => false,
        NodeKind::StaticBlock => false,
        NodeKind::GeneratorMember => plain_method(out, env, ranges, it, true),
        NodeKind::MethodMember => plain_method(out, env, ranges, it, false),
        NodeKind::AsyncMember => async_method(out, env, ranges, it),
        NodeKind::AccessorMember => accessor_method(out, env, ranges, it),
        NodeKind::FieldMember => plain_field(out, env, false, it.from, it.to, &it.parts),
        NodeKind::AccessorField => plain_field(out, env, true, it.from, it.to, &it.parts),
        NodeKind::TypedGeneratorMember => typed_method(out, env, ranges, it, true),
        NodeKind::TypedMethodMember => typed_method(out, env, ranges, it, false),
        NodeKind::TypedAsyncMember => typed_async_method(out, env, ranges, it),
        NodeKind::TypedAccessorMember => typed_accessor_method(out, env, ranges, it),
        NodeKind::TypedFieldMember => typed_field(out, env, false, it.from, it.to, &it.parts),
        NodeKind::TypedAccessorField => typed_field(out, env, true, it.from, it.to, &it.parts),
        NodeKind::IndexMember => {
            out.keep_there(it);
            true
        }
        _ => unread(out),
    }
}

/// Writes a member of a class, and answers whether the declaration has it: nothing is written of one that it lacks.
pub(crate) fn member(out: &mut Draft, env: &Env<'_>, ranges: &RangeSet, it: &Item<'_>) -> bool
    requires { ReadsTokens env.now.text.now env.now.tokens.now }
    ensures before { out.new.failed ≡ false → out.old.failed ≡ false }
    ensures written { out.new.failed ≡ false → MemberBy env.now ranges.now out.old out.new result (member_in (valued env.now.text.now env.now.tokens.now it.now)) }
{
    match it.what {
        What::Node(label) => labelled(out, env, ranges, label, it),
        What::Leaf => unread(out),
        What::Role(_) => unread(out),
        What::Parts => unread(out),
        What::Lean(_) => unread(out),
    }
}
