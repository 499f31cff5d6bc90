//! Labels, and the places of what they name.
ghost use Rattle.std.specs.Prelude.{◌≡◌, ◌++◌, ◌∷◌, [], IfOk, if◌then◌else◌, is_none};
ghost use Rattle.otm_kit.specs.Declarations.{label_place};

use attr_kit::{NoMemory, Txt};
use indexmap::IndexSet;
use std::alloc::Global;
use std::marker::Model;

/// Labels in the order in which they were given, each once.
#[derive(Drop)]
pub(crate) struct Labels {
    names: IndexSet<Txt>,
}

impl Model for Labels {
    ghost use Rattle.std.specs.Prelude.{List, ℕ};

    ghost Value = { List (List ℕ) };

    ghost view = { λ l. l.names.keys };
}

impl Labels {
    pub(crate) fn new(alloc: Global) -> Labels
        ensures { result ≡ [] }
    {
        Labels {
            names: IndexSet::new(alloc),
        }
    }

    /// Adds a label, if it is not there; answers whether it was added.
    #[tactic(auto, unfolding(crate::specs::Declarations::label_place))]
    pub(crate) fn add(&mut self, label: Txt) -> Result<bool, NoMemory>
        ensures added { IfOk result (λ added. added ≡ is_none (label_place self.old label)) }
        ensures value { IfOk result (λ added. self.new ≡ (if added then self.old ++ label ∷ [] else self.old)) }
    {
        Ok(self.names.insert(label)?)
    }

    /// The place of a label. A hash look-up.
    #[tactic(auto, unfolding(crate::specs::Declarations::label_place))]
    pub(crate) fn place(&self, label: &Txt) -> Option<usize>
        ensures { result ≡ label_place self.now label.now }
    {
        self.names.get_index_of(label)
    }
}
