//! The core that a server tells of, with a view of its book.
ghost use Rattle.std.specs.Prelude.{◌≡◌, ◌≤◌, ◌++◌, ◌∷◌, [], length, pos, IfOk, OnErr, OnOk};
ghost use Rattle.federation.specs.Federations.{IsFederated};
ghost use Rattle.journal_text.specs.Events.{now_of};
ghost use Rattle.outside.specs.Sizes.{most_text_bytes};
ghost use Rattle.scrape_machine.specs.Machine.{answer, book_of, world_of};
ghost use Rattle.status_server.specs.Reloads as spec;

use crate::reloads::{Reload, loaded};
use federation::federated;
use instant_view::{Selector, View, ViewRows, laws_of_views};
use journal_text::Event;
use label_set::{Blob, NoMemory, Steps};
use scrape_core::Core;
use std::alloc::Global;
use std::marker::Model;
use std::sync::ledger::Ledger;

/// A core, with a view of its book that follows it, and what it takes memory and counts steps by. Contracts see the core.
#[derive(Drop)]
pub struct Server<L: Ledger> {
    alloc: Global,
    core: Core,
    view: View,
    steps: Steps<L>,
}

impl<L: Ledger> Model for Server<L> {
    ghost use Rattle.std.specs.Prelude.{List};
    ghost use Rattle.instant_view.specs.Views.{StandsFor};
    ghost use Rattle.journal_text.specs.declared.events.Event.{Event};
    ghost use Rattle.scrape_machine.specs.Machine.{book_of};

    ghost Value = { List Event };

    ghost view = { λ s. s.core };

    ghost invariant = { λ s. StandsFor s.view (book_of s.core) };
}

impl<L: Ledger> Server<L> {
    /// A server over a core. It takes no memory.
    pub fn over(alloc: Global, core: Core, steps: Steps<L>) -> Server<L>
        ensures { result ≡ core }
    {
        let view = View::new(alloc);
        Server {
            alloc,
            core,
            view,
            steps,
        }
    }

    /// What memory is taken by.
    pub fn alloc(&self) -> Global {
        self.alloc
    }

    /// The core.
    pub fn core(&self) -> &Core
        ensures { result.now ≡ self.now }
    {
        &self.core
    }

    /// The core, which is served no more.
    pub fn into_core(self) -> Core
        ensures { result ≡ self }
    {
        self.core
    }

    /// Loads the text of a configuration at the last moment of the journal.
    pub fn load(&mut self, text: Blob) -> Result<Reload, NoMemory>
        requires { length text ≤ most_text_bytes }
        ensures came { IfOk result (λ r. r ≡ spec.loaded (answer (world_of self.old) (spec.load_after self.old text))) }
        ensures joined { OnOk result (self.new ≡ self.old ++ spec.load_after self.old text ∷ []) }
        ensures err { OnErr result (self.new ≡ self.old) }
    {
        laws_of_views();
        let moment = self.core.moment().ms();
        let event = Event::Load { moment, text };
        match self.core.take(self.alloc, event, &mut self.steps) {
            Ok(answer) => Ok(loaded(answer)),
            Err(error) => Err(error),
        }
    }

    /// What selectors see in the book at the last moment of the journal.
    pub fn rows(&mut self, selectors: &[Selector]) -> Result<ViewRows, NoMemory>
        ensures rows { IfOk result (λ rows. IsFederated (book_of self.old) selectors.now (pos (now_of self.old)) rows) }
        ensures same { self.new ≡ self.old }
    {
        self.view.follow(self.alloc, self.core.book())?;
        federated(self.alloc, &mut self.view, selectors, self.core.now())
    }
}
