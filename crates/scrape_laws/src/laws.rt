//! Laws over all journals.
ghost use Rattle.std.specs.Prelude.{◌≡◌, ℕ, List};
ghost use Rattle.label_set.specs.declared.texts.Pair.{Pair};
ghost use Rattle.journal_text.specs.declared.events.Event.{Event};
ghost use Rattle.life_roll.specs.declared.schedule.InFlight.{InFlight};
ghost use Rattle.scrape_machine.specs.Machine.{World};
ghost use Rattle.scrape_laws.specs.Scrapes.{LifeScrape};
ghost use Rattle.scrape_laws.specs.Markers.{MarkerLaw, ReportMarkerLaw};
ghost use Rattle.scrape_laws.specs.Runs.{ClosedRunsLaw, RunsLaw};
ghost use Rattle.scrape_laws.specs.Past.{PastLaw};
ghost use Rattle.scrape_laws.specs.Late.{LateFronts, LateLaw};
ghost use Rattle.scrape_laws.specs.Flights.{Starts, FlightLaw, FinishLaw, UnstartedLaw};
ghost use Rattle.scrape_laws.specs.Undisturbed.{NothingLaw, TicketLaw, UndisturbedLaw, IdleLaw, RefusedLaw};
ghost use Rattle.scrape_laws.specs.Apart.{ApartLaw, ApartRunsLaw, ReloadLaw};

/// The samples and stale markers of a series in a life are, scrape by scrape, the scrape's samples and then a marker where the scrape before it tracked the
/// series and it doesn't, and at last the marker at the ending.
pub fn markers()
    ensures { (journal : List Event) → MarkerLaw journal }
{}

/// Each closed run of a series in a life has one stale marker, where it is closed, and no other stands anywhere.
pub fn closed_runs()
    ensures { (journal : List Event) (n : ℕ) (x : List Pair) → ClosedRunsLaw journal n x }
{}

/// The runs of a series are the maximal stretches of scrapes that track it.
pub fn stretches()
    ensures { (x : List Pair) (scrapes : List LifeScrape) → RunsLaw x scrapes }
{}

/// The report markers of a life are those of its ending, where that was taken and a scrape of the life counted: one for each of its reports, which are
/// five, and three more where its job has the extra ones.
pub fn report_markers()
    ensures { (journal : List Event) → ReportMarkerLaw journal }
{}

/// What a life keeps from scrape to scrape: the sets that its last counted scrape tracks, all sets of its last good one, and whether there was one.
pub fn past()
    ensures { (journal : List Event) → PastLaw journal }
{}

/// A finish that doesn't count gives no entry and changes no life, wherever it stands in a journal.
pub fn late()
    ensures worlds { (w : World) → LateLaw w }
    ensures fronts { (journal : List Event) → LateFronts journal }
{}

/// A scrape is in flight from its start until the first finish of its ticket, or until an event closes or changes its life.
pub fn flights()
    ensures { (w : World) (e : Event) (n : ℕ) (f : InFlight) (es : List Event) → Starts w e n f → FlightLaw w e n f es }
{}

/// A finish counts, is late or has no ticket by what stands between the start of its scrape and it; and it has no ticket where no event started one.
pub fn finishes()
    ensures started { (w : World) (e : Event) (n : ℕ) (f : InFlight) (es : List Event) → Starts w e n f → FinishLaw w e n f es }
    ensures unstarted { (journal : List Event) → UnstartedLaw journal }
{}

/// Which events are nothing to a life, in words of the configuration and of tickets: just those that the machine takes as nothing to it.
/// In a journal a finish is one unless it has the ticket of the life's scrape in flight.
pub fn nothing()
    ensures list { (w : World) (e : Event) → NothingLaw w e }
    ensures tickets { (journal : List Event) → TicketLaw journal }
{}

/// An event that is nothing to a life leaves it as it is and gives no entry of it; so does a scan at which it is neither due nor ends,
/// and an event that is refused.
pub fn undisturbed()
    ensures nothing { (journal : List Event) (e : Event) → UndisturbedLaw journal e }
    ensures idle { (journal : List Event) (e : Event) → IdleLaw journal e }
    ensures refused { (journal : List Event) (e : Event) → RefusedLaw journal e }
{}

/// Lives that are equal but for number and ticket, and to which an event is the same, go on equal and give the same entries but for the number;
/// and so they do over whole runs, in which they meet the same.
pub fn lives_apart()
    ensures event { (journal : List Event) (e : Event) → ApartLaw journal e }
    ensures runs { (journal other : List Event) → ApartRunsLaw journal other }
{}

/// The entries of a life across a reload that is nothing to it are those without the reload, given the same scans, replies and state of its job's target limit.
pub fn reloads()
    ensures { (journal : List Event) (e : Event) → ReloadLaw journal e }
{}
