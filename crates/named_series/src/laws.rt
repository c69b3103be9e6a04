//! The laws.
ghost use Rattle.std.specs.Prelude.{List};
ghost use Rattle.journal_text.specs.declared.events.Event.{Event};
ghost use Rattle.named_series.specs.Named.{AreLabelled, AreNamed};
ghost use Rattle.scrape_machine.specs.Machine.{book_of};

/// The series of each entry of a book has a label `__name__`: that of a sample, since a body with a row that has none is a fault; that of a
/// report, by its own name; and that of a stale marker, since it ends one of these. It does nothing.
pub fn series_have_names()
    ensures { (journal : List Event) → AreNamed (book_of journal) }
{}

/// No label of a series of a book has an empty name: a row that has such a label isn't read, and a configuration that names one is refused, so
/// neither a target nor a rule of relabelling brings one in. It does nothing.
pub fn labels_have_names()
    ensures { (journal : List Event) → AreLabelled (book_of journal) }
{}
