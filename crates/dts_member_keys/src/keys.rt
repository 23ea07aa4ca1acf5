//! Keys of members.

ghost use Rattle.std.specs.Prelude.{◌≡◌, false, true, ℕ, List, Option, None};
ghost use Rattle.es_token.specs.declared.token.Token.{Token as Tok};
ghost use Rattle.es_grammar.specs.declared.rows.NodeKind.TheVariants as l;
ghost use Rattle.es_lexer.specs.Reads.{ReadsTokens};
ghost use Rattle.es_lowering.specs.Functions.{Key as AKey};
ghost use Rattle.es_syntax.specs.Held.{valued};
ghost use Rattle.es_syntax.specs.Roles.{expr_in, key_in};
ghost use Rattle.dts_rules.specs.Rules as rules;
ghost use Rattle.dts_draft.specs.Drafts.{state_of};
ghost use Rattle.dts_member_keys.specs.declared.keys.MemberKey.TheVariants as shown;
ghost use Rattle.dts_member_keys.specs.Keys.{is_dropped, IsSymbolChain, KeyPut, KeyTold, Tells};

use crate::looks::bracketed;
use dts_draft::Draft;
use dts_names::Env;
use es_grammar::NodeKind;
use es_syntax::Item;
use es_view_expressions::member::{Key, key_at};

/// What the key of a member becomes. Numbers are those of tokens.
#[derive(Clone, Copy)]
pub enum MemberKey<'a> {
    /// This key, as it is.
    Kept(Item<'a>),
    /// This name in brackets.
    Name(Item<'a>),
    /// `Symbol.a` in brackets: a chain, the name that it begins with, and the part after that.
    Symbol {
        chain: Item<'a>,
        base: Item<'a>,
        first: Item<'a>,
    },
    /// A string literal.
    Str(u32),
    /// A number or a BigInt.
    Number(u32),
    /// None: the member goes.
    Dropped,
    /// No grammar makes it.
    Broken,
}

/// What the key of a member becomes: one in brackets is looked at through `( )`, `as`, `satisfies` and `!`.
#[tactic(auto, using(crate::proofs::KeyLemmas::computed_told, crate::proofs::KeyLemmas::private_told, crate::proofs::KeyLemmas::broken_told))]
pub fn member_key<'a>(env: &Env<'_>, key: &Item<'a>) -> MemberKey<'a>
    requires { ReadsTokens env.now.text.now env.now.tokens.now }
    ensures { KeyTold env.now result (key_in (valued env.now.text.now env.now.tokens.now key.now)) }
{
    match key_at(key) {
        Some(Key::Word(_)) => MemberKey::Kept(*key),
        Some(Key::Str(_)) => MemberKey::Kept(*key),
        Some(Key::Number(_)) => MemberKey::Kept(*key),
        Some(Key::Computed(inner)) => bracketed(env, &inner),
        Some(Key::Private(_)) => MemberKey::Dropped,
        Some(Key::Broken) => MemberKey::Broken,
        None => MemberKey::Broken,
    }
}

/// Whether a member with this key goes.
#[tactic(auto, using(crate::proofs::KeyLemmas::dropped_none))]
pub fn is_dropped(it: MemberKey<'_>) -> bool
    ensures is { is_dropped it.entry ≡ result }
    ensures none { result ≡ true → (x : List ℕ) (ts : List Tok) (o : Option AKey) → Tells x ts it.entry o → o ≡ None }
{
    match it {
        MemberKey::Dropped => true,
        _ => false,
    }
}

/// A name in brackets, in the place of this key.
fn name_key(out: &mut Draft, key: &Item<'_>, name: &Item<'_>)
    ensures before { out.new.failed ≡ false → out.old.failed ≡ false }
    ensures state { state_of out.new ≡ state_of out.old }
    ensures written { out.new.failed ≡ false → (x : List ℕ) (ts : List Tok) (o : Option AKey) → Tells x ts (shown.Name name.now) o → KeyPut x ts out.old.row out.new.row o }
{
    let place = out.open();
    out.dropped(key.from.saturating_add(1), name.from);
    out.keep_there(name);
    out.dropped(name.to, key.to.saturating_sub(1));
    out.close_node(place, NodeKind::ComputedKey, key.from, key.to);
}

/// `Symbol.a`, without what follows it in its chain.
fn symbol_chain(out: &mut Draft, chain: &Item<'_>, base: &Item<'_>, first: &Item<'_>)
    ensures before { out.new.failed ≡ false → out.old.failed ≡ false }
    ensures state { state_of out.new ≡ state_of out.old }
    ensures written { out.new.failed ≡ false → (x : List ℕ) (ts : List Tok) → IsSymbolChain x ts out.old.row out.new.row chain.now base.now first.now }
{
    let place = out.open();
    out.keep_there(base);
    out.keep_there(first);
    out.absent();
    out.dropped(first.to, chain.to);
    out.close_node(place, NodeKind::Chain, chain.from, chain.to);
}

/// `Symbol.a` in brackets, in the place of this key.
fn symbol_key(out: &mut Draft, key: &Item<'_>, chain: &Item<'_>, base: &Item<'_>, first: &Item<'_>)
    ensures before { out.new.failed ≡ false → out.old.failed ≡ false }
    ensures state { state_of out.new ≡ state_of out.old }
    ensures written { out.new.failed ≡ false → (x : List ℕ) (ts : List Tok) (o : Option AKey) → Tells x ts (shown.Symbol chain.now base.now first.now) o → KeyPut x ts out.old.row out.new.row o }
{
    let place = out.open();
    out.dropped(key.from.saturating_add(1), chain.from);
    symbol_chain(out, chain, base, first);
    out.dropped(chain.to, key.to.saturating_sub(1));
    out.close_node(place, NodeKind::ComputedKey, key.from, key.to);
}

/// A string literal, in the place of this key.
fn str_key(out: &mut Draft, key: &Item<'_>, at: u32)
    ensures before { out.new.failed ≡ false → out.old.failed ≡ false }
    ensures state { state_of out.new ≡ state_of out.old }
    ensures written { out.new.failed ≡ false → (x : List ℕ) (ts : List Tok) (o : Option AKey) → Tells x ts (shown.Str at) o → KeyPut x ts out.old.row out.new.row o }
{
    out.dropped(key.from, at);
    out.leaf_node(NodeKind::StrKey, at);
    out.dropped(at.saturating_add(1), key.to);
}

/// A number or a BigInt, in the place of this key.
fn number_key(out: &mut Draft, key: &Item<'_>, at: u32)
    ensures before { out.new.failed ≡ false → out.old.failed ≡ false }
    ensures state { state_of out.new ≡ state_of out.old }
    ensures written { out.new.failed ≡ false → (x : List ℕ) (ts : List Tok) (o : Option AKey) → Tells x ts (shown.Number at) o → KeyPut x ts out.old.row out.new.row o }
{
    out.dropped(key.from, at);
    out.leaf_node(NodeKind::NumberKey, at);
    out.dropped(at.saturating_add(1), key.to);
}

/// Writes what the key of a member becomes; of none, and of what no grammar makes, nothing is said of the draft.
pub fn write_key(out: &mut Draft, key: &Item<'_>, it: MemberKey<'_>)
    ensures before { out.new.failed ≡ false → out.old.failed ≡ false }
    ensures state { state_of out.new ≡ state_of out.old }
    ensures written { out.new.failed ≡ false → (x : List ℕ) (ts : List Tok) (o : Option AKey) → Tells x ts it.entry o → KeyPut x ts out.old.row out.new.row o }
{
    match it {
        MemberKey::Kept(kept) => out.keep_there(&kept),
        MemberKey::Name(name) => name_key(out, key, &name),
        MemberKey::Symbol { chain, base, first } => symbol_key(out, key, &chain, &base, &first),
        MemberKey::Str(at) => str_key(out, key, at),
        MemberKey::Number(at) => number_key(out, key, at),
        MemberKey::Dropped => out.fail(),
        MemberKey::Broken => out.fail(),
    }
}
