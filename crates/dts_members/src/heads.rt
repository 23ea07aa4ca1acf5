//! What is before the bodies of methods.

ghost use Rattle.std.specs.Prelude.{◌≡◌, false, ℕ, List, [], ◌∷◌};
ghost use Rattle.es_token.specs.declared.token.Token.{Token as Tok};
ghost use Rattle.es_lexer.specs.Reads.{ReadsTokens};
ghost use Rattle.es_lowering.specs.Value.{first_of, group, nil};
ghost use Rattle.es_lowering.specs.TypedParts.{typed_signature};
ghost use Rattle.es_syntax.specs.Held.{held, valued};
ghost use Rattle.es_syntax.specs.Roles.{params_in, signature_in};
ghost use Rattle.es_changed.specs.Shape.{Writes};
ghost use Rattle.dts_rules.specs.Rules as rules;
ghost use Rattle.dts_draft.specs.Drafts.{state_of};
ghost use Rattle.dts_draft.specs.Written.{IfThere};
ghost use Rattle.dts_parts.specs.Groups.{annotation_in};
ghost use Rattle.dts_members.specs.Methods.{HeadBy, ResultMade, UpToBy};

use dts_draft::Draft;
use dts_enums::keep_part;
use dts_names::Env;
use dts_parts::param_list;
use es_grammar::NodeKind;
use es_syntax::{Item, Siblings, What};

/// Parameters by the rules, in a node from one token up to another; what follows them is dropped.
pub(crate) fn params_up_to(out: &mut Draft, env: &Env<'_>, it: &Item<'_>, from: u32, to: u32)
    requires { ReadsTokens env.now.text.now env.now.tokens.now }
    ensures before { out.new.failed ≡ false → out.old.failed ≡ false }
    ensures written { out.new.failed ≡ false → UpToBy env.now out.old out.new from to (params_in (valued env.now.text.now env.now.tokens.now it.now)) }
{
    let place = out.open();
    param_list(out, env, it);
    out.dropped(it.to, to);
    out.close_node(place, NodeKind::Signature, from, to);
}

/// No result; from one token up to another the text is dropped.
fn no_result(out: &mut Draft, from: u32, to: u32)
    ensures before { out.new.failed ≡ false → out.old.failed ≡ false }
    ensures state { state_of out.new ≡ state_of out.old }
    ensures written { out.new.failed ≡ false → (x : List ℕ) (ts : List Tok) → Writes x ts out.old.row out.new.row (nil ∷ []) }
{
    out.absent();
    out.dropped(from, to);
}

/// The result in these parts, of a setter none; what follows it is dropped.
fn result_part(out: &mut Draft, it: &Item<'_>, to: u32, setter: bool)
    ensures before { out.new.failed ≡ false → out.old.failed ≡ false }
    ensures state { state_of out.new ≡ state_of out.old }
    ensures written { out.new.failed ≡ false → (x : List ℕ) (ts : List Tok) (by : rules.Env) → IfThere (ResultMade x ts by setter out.old.row out.new.row) (annotation_in (group (held x ts it.now.parts.entries.now) 2)) }
{
    if setter {
        match it.parts.group_at(2).split() {
            Some((ty, _)) => no_result(out, ty.from.saturating_sub(1), to),
            None => no_result(out, it.to, to),
        }
    } else {
        keep_part(out, &it.parts, 2);
        out.dropped(it.to, to);
    }
}

/// A signature by the rules, in a node up to this token; that of a setter has no result.
fn signature_node(out: &mut Draft, env: &Env<'_>, it: &Item<'_>, to: u32, setter: bool)
    requires { ReadsTokens env.now.text.now env.now.tokens.now }
    ensures before { out.new.failed ≡ false → out.old.failed ≡ false }
    ensures written { out.new.failed ≡ false → HeadBy env.now setter out.old out.new it.now.from to (typed_signature (held env.now.text.now env.now.tokens.now it.now.parts.entries.now)) }
{
    let place = out.open();
    keep_part(out, &it.parts, 0);
    match it.parts.part(1) {
        Some(list) => {
            param_list(out, env, &list);
            result_part(out, it, to, setter);
            out.close_node(place, NodeKind::TypedSignature, it.from, to);
        }
        None => out.fail(),
    }
}

/// The signature of a method by the rules, up to this token; that of a setter has no result.
pub(crate) fn signature_up_to(out: &mut Draft, env: &Env<'_>, it: &Item<'_>, to: u32, setter: bool)
    requires { ReadsTokens env.now.text.now env.now.tokens.now }
    ensures before { out.new.failed ≡ false → out.old.failed ≡ false }
    ensures written { out.new.failed ≡ false → HeadBy env.now setter out.old out.new (first_of (valued env.now.text.now env.now.tokens.now it.now)) to (signature_in (valued env.now.text.now env.now.tokens.now it.now)) }
{
    match it.what {
        What::Node(label) => match label {
            NodeKind::TypedSignature => signature_node(out, env, it, to, setter),
            _ => out.fail(),
        },
        What::Leaf => out.fail(),
        What::Role(_) => out.fail(),
        What::Parts => out.fail(),
        What::Lean(_) => out.fail(),
    }
}
