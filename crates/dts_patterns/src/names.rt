//! Names as patterns in types.

ghost use Rattle.std.specs.Prelude.{◌≡◌, false, ℕ, List, Option, Bool, slice_get};
ghost use Rattle.es_token.specs.declared.token.Token.{Token as Tok};
ghost use Rattle.es_lowering.specs.Texts.{ident_of};
ghost use Rattle.es_ast.specs.declared.ts.ts.TsParamPat.TheVariants as vTsPat;
ghost use Rattle.es_view_expressions.specs.pattern.Pat as pat_view;
ghost use Rattle.dts_rules.specs.Rules.{Env};
ghost use Rattle.dts_draft.specs.Drafts.{state_of};
ghost use Rattle.dts_draft.specs.Written.{IfThere};
ghost use Rattle.dts_patterns.specs.Patterns.{IsName, IsPattern};

use dts_draft::Draft;
use es_grammar::NodeKind;

/// A name, where the text continues with it.
#[tactic(auto, using(crate::proofs::NameLemmas::name_alone))]
pub fn name_pattern(out: &mut Draft, at: u32)
    ensures before { out.new.failed ≡ false → out.old.failed ≡ false }
    ensures state { state_of out.new ≡ state_of out.old }
    ensures written { out.new.failed ≡ false → (x : List ℕ) (ts : List Tok) → IfThere (IsName x ts out.old.row out.new.row) (slice_get ts at) }
{
    out.gone(at);
    out.leaf_node(NodeKind::NamePatternOfType, at);
}

/// A name, over the tokens of its node.
#[tactic(auto, using(crate::proofs::NameLemmas::name_node))]
pub(crate) fn name_over(out: &mut Draft, at: u32, from: u32, to: u32)
    ensures before { out.new.failed ≡ false → out.old.failed ≡ false }
    ensures state { state_of out.new ≡ state_of out.old }
    ensures written { out.new.failed ≡ false → (env : Env) (x : List ℕ) (ts : List Tok) → IfThere (IsPattern env x ts out.old.row out.new.row to) (pat_view.ident x (slice_get ts at)) }
{
    out.token_node(NodeKind::NamePatternOfType, at, from, to);
}
