//! The items of a program, one by one.
ghost use Rattle.std.specs.Prelude.{◌≡◌, ◌<◌, ℕ, List, true, map, length, IfSome};
ghost use Rattle.es_token.specs.declared.token.Token.{Token as Tok};
ghost use Rattle.es_ast.specs.declared.ast.ModuleItem.TheVariants as item;
ghost use Rattle.es_lowering.specs.Value.{part, as_group};
ghost use Rattle.es_syntax.specs.Held.{valued, there};
ghost use Rattle.es_program.specs.items.Items.{is_some, item_of};
ghost use Rattle.es_program.specs.items.Told as told;
ghost use Rattle.es_program.specs.items.Lent.{lent_in, items_left};
ghost use Rattle.es_program.specs.items.First.{first_of};

use crate::items::body::Body;
use crate::items::item::{ModuleDeclRef, ModuleItemRef, StmtRef};
use crate::items::place::Place;
use crate::items::reading::is_decl;
use crate::{Module, Script};
use es_syntax::Item;

/// The items of a module.
#[tactic(auto, using(crate::proofs::items_lemmas::Bodies::module_items))]
pub fn module_body(it: &Module) -> Body<'_>
    ensures { items_left result ≡ it.now.typed.body }
{
    let (text, tokens, turns) = it.body();
    Body {
        text,
        tokens,
        turns,
        is_script: false,
    }
}

/// The statements of a script, as items.
#[tactic(auto, using(crate::proofs::items_lemmas::Bodies::script_items))]
pub fn script_body(it: &Script) -> Body<'_>
    ensures { items_left result ≡ map item.Stmt it.now.typed.body }
{
    let (text, tokens, turns) = it.body();
    Body {
        text,
        tokens,
        turns,
        is_script: true,
    }
}

/// The item at a node, which is typed.
#[tactic(auto, using(crate::proofs::items_lemmas::Bodies::decl_item, crate::proofs::items_lemmas::Bodies::stmt_item, crate::proofs::items_lemmas::Bodies::decl_typed, crate::proofs::items_lemmas::Bodies::stmt_typed, crate::proofs::items_lemmas::Bodies::script_typed))]
fn item_at(is_script: bool, at: Place<'_>) -> ModuleItemRef<'_>
    requires { is_some (item_of is_script (valued at.text.now at.tokens.now at.node)) ≡ true }
    ensures { lent_in result ≡ item_of is_script (valued at.entry.text.now at.entry.tokens.now at.entry.node) }
{
    if is_script {
        return ModuleItemRef::Stmt(StmtRef { at });
    }
    if is_decl(at.node.what) {
        ModuleItemRef::ModuleDecl(ModuleDeclRef { at })
    } else {
        ModuleItemRef::Stmt(StmtRef { at })
    }
}

/// The node in a turn.
fn node_in<'a>(turn: &Item<'a>) -> Option<Item<'a>>
    ensures { (x : List ℕ) (ts : List Tok) → part (as_group (valued x ts turn.now)) 0 ≡ there x ts result }
{
    turn.group().part(0)
}

/// The next item, and those after it.
#[tactic(auto, using(crate::proofs::items_lemmas::Bodies::items_none, crate::proofs::items_lemmas::Bodies::items_some, crate::proofs::items_lemmas::Bodies::first_typed, crate::proofs::items_lemmas::Bodies::rest_typed, crate::proofs::items_lemmas::Bodies::nothing_typed))]
pub fn first_item<'a>(body: &Body<'a>) -> Option<(ModuleItemRef<'a>, Body<'a>)>
    ensures value { items_left body.now ≡ first_of result }
    ensures below { IfSome result (λ p. length p.1.turns.entries.now < length body.now.turns.entries.now) }
{
    let Some((turn, turns)) = body.turns.split() else {
        return None;
    };
    let Some(node) = node_in(&turn) else {
        unreachable!()
    };
    let at = Place {
        text: body.text,
        tokens: body.tokens,
        node,
    };
    let rest = Body {
        text: body.text,
        tokens: body.tokens,
        turns,
        is_script: body.is_script,
    };
    Some((item_at(body.is_script, at), rest))
}

impl<'a> Iterator for Body<'a> {
    type Item = ModuleItemRef<'a>;

    ghost use Rattle.std.specs.Iterator.{YieldsFirstBy, item_count};
    ghost use Rattle.es_program.specs.items.Lent.{lent_item, items_left};

    ghost next_gives = { YieldsFirstBy lent_item items_left };

    ghost remaining = { item_count items_left };

    fn next(&mut self) -> Option<ModuleItemRef<'a>> {
        match first_item(self) {
            Some((item, rest)) => {
                *self = rest;
                Some(item)
            }
            None => None,
        }
    }
}

/// Whether these items say that theirs is a CommonJS module; the first that says anything decides.
pub fn tells_script(body: &Body<'_>) -> bool
    ensures { result ≡ told.tells_script (items_left body.now) }
{
    let mut rest = *body;
    while let Some((item, others)) = first_item(&rest) {
        if let Some(told) = item.told() {
            return told;
        }
        rest = others;
    }
    false
}
