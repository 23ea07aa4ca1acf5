//! Parts that take several steps.

ghost use Rattle.std.specs.Prelude.{◌≡◌, [], ◌∷◌, ◌+◌, false, ℕ, List};
ghost use Rattle.es_token.specs.declared.token.Token.{Token as Tok};
ghost use Rattle.es_lowering.specs.Value as value;
ghost use Rattle.es_lowering.specs.Lowering.{packed};
ghost use Rattle.es_syntax.specs.Held.{node_of, valued};
ghost use Rattle.es_changed.specs.Formed.{formed};
ghost use Rattle.es_changed.specs.declared.entry.Change.TheVariants as change;
ghost use Rattle.es_syntax.specs.declared.entry.What.TheVariants as what;
ghost use Rattle.es_changed.specs.Shape.{closed, Writes};
ghost use Rattle.dts_draft.specs.Drafts.{state_of};

use crate::draft::Draft;
use es_changed::{Change, Form};
use es_grammar::NodeKind;
use es_syntax::{Item, What};

impl Draft {
    /// Closes the node that was opened at this place as a form that no text has.
    pub fn close_form(&mut self, at: usize, form: Form)
        ensures before { self.new.failed ≡ false → self.old.failed ≡ false }
        ensures state { state_of self.new ≡ state_of self.old }
        ensures written { self.new.failed ≡ false → self.new.row ≡ closed (change.Form form) 0 0 at self.old.row }
    {
        self.close(at, Change::Form(form), 0, 0);
    }

    /// Closes it as a group.
    pub fn close_group(&mut self, at: usize)
        ensures before { self.new.failed ≡ false → self.old.failed ≡ false }
        ensures state { state_of self.new ≡ state_of self.old }
        ensures written { self.new.failed ≡ false → self.new.row ≡ closed (change.Old what.Parts) 0 0 at self.old.row }
    {
        self.close(at, Change::Old(What::Parts), 0, 0);
    }

    /// Closes it as a node of this alternative.
    pub fn close_node(&mut self, at: usize, label: NodeKind, from: u32, to: u32)
        ensures before { self.new.failed ≡ false → self.old.failed ≡ false }
        ensures state { state_of self.new ≡ state_of self.old }
        ensures written { self.new.failed ≡ false → self.new.row ≡ closed (change.Old (what.Node label)) from to at self.old.row }
    {
        self.close(at, Change::Old(What::Node(label)), from, to);
    }

    /// A node of this alternative whose part is one token, from one token up to another.
    #[tactic(auto, using(crate::proofs::StepLemmas::token_written))]
    pub fn token_node(&mut self, label: NodeKind, at: u32, from: u32, to: u32)
        ensures before { self.new.failed ≡ false → self.old.failed ≡ false }
        ensures state { state_of self.new ≡ state_of self.old }
        ensures written { self.new.failed ≡ false → (x : List ℕ) (ts : List Tok) → Writes x ts self.old.row self.new.row (node_of x ts label from to (packed (value.token at ∷ [])) ∷ []) }
    {
        let place = self.open();
        self.token(at);
        self.close_node(place, label, from, to);
    }

    /// A node of this alternative over one token.
    pub fn leaf_node(&mut self, label: NodeKind, at: u32)
        ensures before { self.new.failed ≡ false → self.old.failed ≡ false }
        ensures state { state_of self.new ≡ state_of self.old }
        ensures written { self.new.failed ≡ false → (x : List ℕ) (ts : List Tok) → Writes x ts self.old.row self.new.row (node_of x ts label at (at + 1) (packed (value.token at ∷ [])) ∷ []) }
    {
        match at.checked_add(1) {
            Some(to) => self.token_node(label, at, at, to),
            None => self.fail(),
        }
    }

    /// A form over one token.
    pub fn leaf_form(&mut self, form: Form, at: u32)
        ensures before { self.new.failed ≡ false → self.old.failed ≡ false }
        ensures state { state_of self.new ≡ state_of self.old }
        ensures written { self.new.failed ≡ false → (x : List ℕ) (ts : List Tok) → Writes x ts self.old.row self.new.row (formed x ts form at (at + 1) (packed (value.token at ∷ [])) ∷ []) }
    {
        match at.checked_add(1) {
            Some(to) => self.token_form(form, at, to),
            None => self.fail(),
        }
    }

    /// A form whose part is one token, from there up to another one.
    #[tactic(auto, using(crate::proofs::StepLemmas::token_formed))]
    fn token_form(&mut self, form: Form, at: u32, to: u32)
        ensures before { self.new.failed ≡ false → self.old.failed ≡ false }
        ensures state { state_of self.new ≡ state_of self.old }
        ensures written { self.new.failed ≡ false → (x : List ℕ) (ts : List Tok) → Writes x ts self.old.row self.new.row (formed x ts form at to (packed (value.token at ∷ [])) ∷ []) }
    {
        let place = self.open();
        self.token(at);
        self.close(place, Change::Form(form), at, to);
    }

    /// What is at a place of the program's row, unchanged, where the text continues with it.
    #[tactic(auto, using(crate::proofs::StepLemmas::kept_written))]
    pub fn keep(&mut self, item: &Item<'_>)
        ensures before { self.new.failed ≡ false → self.old.failed ≡ false }
        ensures state { state_of self.new ≡ state_of self.old }
        ensures written { self.new.failed ≡ false → (x : List ℕ) (ts : List Tok) → Writes x ts self.old.row self.new.row (valued x ts item.now ∷ []) }
    {
        self.gone(item.from);
        self.keep_there(item);
    }
}
