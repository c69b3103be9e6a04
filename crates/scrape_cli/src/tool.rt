//! The whole program, over whatever has files, takes bytes, gives control lines, tells the time and fetches.
ghost use Rattle.std.specs.Prelude.{◌≡◌, ◌<◌, ◌≤◌, ℕ, Bool, List, map, string_bytes, is_some, vec_len, Some, None, IfSome, IsTrue};
ghost use Rattle.label_set.specs.declared.texts.Pair.{Pair};
ghost use Rattle.journal_text.specs.declared.events.Event.{Event};
ghost use Rattle.outside.specs.Objects.{used};
ghost use Rattle.scrape_machine.specs.Machine.{World};
ghost use Rattle.scrape_laws.specs.Markers.{MarkerLaw, ReportMarkerLaw};
ghost use Rattle.scrape_laws.specs.Runs.{ClosedRunsLaw};
ghost use Rattle.scrape_laws.specs.Late.{LateLaw};
ghost use Rattle.command_words.specs.Askings.{Running};
ghost use Rattle.command_words.specs.Askings as askings;
ghost use Rattle.command_words.specs.Words.{order_in};
ghost use Rattle.command_words.specs.declared.words.Order.TheVariants.{Run};
ghost use Rattle.command_words.specs.declared.words.Order.TheVariants as orders;
ghost use Rattle.live_run.specs.Runs.{IsReadOnce, outputs, touched};
ghost use Rattle.station.specs.Control.{caller_use};
ghost use Rattle.scrape_commands.specs.Cuts.{CutLaw, IsCutOf};
ghost use Rattle.scrape_commands.specs.Ends.{call};
ghost use Rattle.scrape_commands.specs.Laws.{EndedStill};
ghost use Rattle.serve_command.specs.Ends.{EndedServe};
ghost use Rattle.serve_command.specs.Serves as serving;
ghost use Rattle.scrape_cli.specs.Lives as lives;
ghost use Rattle.scrape_cli.specs.Lives.{EndedLive, IsAlone, IsStill};

use command_words::{Live, Order, WordsError, order_in};
use live_run::{Asked as AskedRun, LiveEnd, Lived, run_live};
use outside::{Clock, Fetch, Shelf, Sink, Source};
use scrape_commands::Refusal;
pub use scrape_commands::still::causes;
use scrape_commands::still::{cuts, status_at, tell};
use scrape_core::Means;
use scrape_laws::laws::{closed_runs, late, markers, report_markers};
pub use serve_command::tool_still;
use std::marker::{Send, Sync};
use std::sync::Wait;
use std::thread::Threads;

/// What the program ended with, and what it was given.
#[derive(Drop)]
pub struct Finished<C, K, F> {
    /// The exit status.
    pub status: u8,
    pub control: Option<C>,
    pub clock: Option<K>,
    pub fetchers: Vec<F>,
}

/// What is said of a run that ended: of which file, and which refusal.
#[derive(Drop)]
struct Said<'a> {
    file: &'a str,
    end: Result<(), Refusal>,
}

/// What is said of a run's end.
fn said_of<'a>(end: LiveEnd, file: &'a str) -> Said<'a>
    ensures file { result.file.now ≡ lives.file_said end file.entry.now }
    ensures end { result.end ≡ lives.refusal_of end }
{
    let refusal = match end {
        LiveEnd::Done => return Said { file, end: Ok(()) },
        LiveEnd::ControlFault => Refusal::ReadFault,
        LiveEnd::ControlLong => {
            return Said {
                file: "control",
                end: Err(Refusal::TooLong),
            };
        }
        LiveEnd::Absent => Refusal::Absent,
        LiveEnd::TooLong => Refusal::TooLong,
        LiveEnd::Config(fault) => Refusal::Config(fault),
        LiveEnd::ReadFault => Refusal::ReadFault,
        LiveEnd::WriteFault => Refusal::WriteFault,
        LiveEnd::NoMemory => Refusal::NoMemory,
    };
    Said {
        file,
        end: Err(refusal),
    }
}

/// Makes a live run, and tells of its end.
fn tool_live<
    W: Threads + Wait + Sync,
    S: Shelf,
    O: Sink,
    E: Sink,
    R: Sink,
    C: Source,
    K: Clock + Send,
    F: Fetch + Send,
>(
    rt: &W,
    means: Means,
    live: &Live<'_>,
    shelf: &mut S,
    out: &mut O,
    err: &mut E,
    trail: &mut R,
    control: C,
    clock: K,
    fetchers: Vec<F>,
) -> Finished<C, K, F>
    requires fetchers { (0 < vec_len fetchers) × (vec_len fetchers ≤ 1000) }
    ensures live { IfSome result.clock (λ k. IfSome result.control (λ c. EndedLive result.status live.now
        (touched (caller_use (used (S.seen shelf.old) (S.seen shelf.new)) (used (C.seen control) (C.seen c)) (used (E.seen err.old) (E.seen err.new)))
        (outputs (used (R.seen trail.old) (R.seen trail.new)) (used (O.seen out.old) (O.seen out.new))) (used (K.seen clock) (K.seen k))
        (used (map F.seen fetchers.items) (map F.seen result.fetchers.items)))
        ((c ≡ control) × IsReadOnce (used (K.seen clock) (K.seen k)) × (result.fetchers ≡ fetchers)))) }
    ensures back { IsTrue (is_some result.control) × IsTrue (is_some result.clock) × (vec_len result.fetchers ≡ vec_len fetchers) }
{
    let asked = AskedRun {
        file: live.file(),
        turns: live.turns(),
        kept: live.kept(),
    };
    let Lived {
        end,
        control,
        clock,
        fetchers,
    } = run_live(
        rt, means, asked, shelf, out, err, trail, control, clock, fetchers,
    );
    let said = said_of(end, live.file());
    tell(err, said.file, &said.end);
    Finished {
        status: status_at(&said.end),
        control,
        clock,
        fetchers,
    }
}

/// Hands back what it was given.
fn handed_back<C, K, F>(status: u8, control: C, clock: K, fetchers: Vec<F>) -> Finished<C, K, F>
    ensures status { result.status ≡ status }
    ensures control { result.control ≡ Some control }
    ensures clock { result.clock ≡ Some clock }
    ensures fetchers { result.fetchers ≡ fetchers }
{
    Finished {
        status,
        control: Some(control),
        clock: Some(clock),
        fetchers,
    }
}

/// The program: takes the words after its name, and answers the exit status. All commands but `run` go through `tool_still`, whose tables say
/// how they end. `serve` leaves clock and fetchers as they were (`served`); for the others the trail is left alone too (`alone`), and control comes back
/// as it was (`same`). What each of their statuses says, taken alone, is the law `causes`. There are 1 to 1,000 fetchers.
///
/// `run` loads the file of the words at the clock's reading, makes so many sweeps while control gives its lines, and writes the text of the
/// run's journal to the trail, and then the text of its book to `out`:
///
/// | status | comes |
/// |---|---|
/// | 0 | the run is over, control was read to its end, and both texts are written |
/// | 3, 9 | the shelf has no file of the name, or a longer one: nothing began |
/// | 4 | the configuration is refused: nothing began |
/// | 6 | reading the file failed: nothing began; or reading control or a file that it names failed: both texts are written |
/// | 7 | writing to `err` failed while the run lasted: nothing is written; or writing one of the texts did: a front of it is |
/// | 8 | memory ran out: nothing is written |
/// | 9 | control gave more than 1 MiB: both texts are written |
///
/// Where nothing began, control and fetchers come back as they were, and the clock gave one reading.
///
/// `still` says of the other commands how they end, what they print, which status is due, and that no count falls; `served` says of `serve`, whose
/// connection is what control gives, how it ends, what was served and written, and which status is due; `live` says of `run` what it prints and what
/// its record is worth.
/// `markers`, `closed_runs`, `report_markers` and `late` hold of every journal, so of the one whose book is printed. `cuts` says what a trail is
/// worth that a failing disk cut: what `replay --cut` prints of it is the beginning of what the run would have printed.
pub fn tool<
    W: Threads + Wait + Sync,
    S: Shelf,
    O: Sink,
    E: Sink,
    R: Sink,
    C: Source,
    K: Clock + Send,
    F: Fetch + Send,
>(
    rt: &W,
    means: Means,
    words: &[String],
    shelf: &mut S,
    out: &mut O,
    err: &mut E,
    trail: &mut R,
    control: C,
    clock: K,
    fetchers: Vec<F>,
) -> Finished<C, K, F>
    requires fetchers { (0 < vec_len fetchers) × (vec_len fetchers ≤ 1000) }
    ensures still { IsStill (order_in (map string_bytes words.now)) → EndedStill result.status (call (map string_bytes words.now)
        (used (S.seen shelf.old) (S.seen shelf.new)) (used (O.seen out.old) (O.seen out.new)) (used (E.seen err.old) (E.seen err.new))) }
    ensures alone { IsStill (order_in (map string_bytes words.now)) → IsAlone (used (R.seen trail.old) (R.seen trail.new))
        (used (map F.seen fetchers.items) (map F.seen result.fetchers.items)) }
    ensures same { IsStill (order_in (map string_bytes words.now)) →
        (result.control ≡ Some control) × (result.clock ≡ Some clock) × (result.fetchers ≡ fetchers) }
    ensures served { (s : askings.Serving) → order_in (map string_bytes words.now) ≡ Some (orders.Serve s) →
        IfSome result.control (λ c. EndedServe result.status s
        (serving.touched (used (S.seen shelf.old) (S.seen shelf.new)) (used (O.seen out.old) (O.seen out.new))
        (used (R.seen trail.old) (R.seen trail.new)) (used (C.seen control) (C.seen c))) (used (E.seen err.old) (E.seen err.new)))
        × (result.clock ≡ Some clock) × (result.fetchers ≡ fetchers) }
    ensures live { (r : Running) → order_in (map string_bytes words.now) ≡ Some (Run r) →
        IfSome result.clock (λ k. IfSome result.control (λ c. EndedLive result.status r
        (touched (caller_use (used (S.seen shelf.old) (S.seen shelf.new)) (used (C.seen control) (C.seen c)) (used (E.seen err.old) (E.seen err.new)))
        (outputs (used (R.seen trail.old) (R.seen trail.new)) (used (O.seen out.old) (O.seen out.new))) (used (K.seen clock) (K.seen k))
        (used (map F.seen fetchers.items) (map F.seen result.fetchers.items)))
        ((c ≡ control) × IsReadOnce (used (K.seen clock) (K.seen k)) × (result.fetchers ≡ fetchers)))) }
    ensures back { IsTrue (is_some result.control) × IsTrue (is_some result.clock) × (vec_len result.fetchers ≡ vec_len fetchers) }
    ensures markers { (journal : List Event) → MarkerLaw journal }
    ensures closed_runs { (journal : List Event) (n : ℕ) (x : List Pair) → ClosedRunsLaw journal n x }
    ensures report_markers { (journal : List Event) → ReportMarkerLaw journal }
    ensures late { (w : World) → LateLaw w }
    ensures cuts { (journal front : List Event) (kept : Bool) → IsCutOf journal front → CutLaw journal front kept }
{
    cuts();
    markers();
    closed_runs();
    report_markers();
    late();
    match order_in(means.alloc, words) {
        Ok(Order::Run(live)) => tool_live(
            rt, means, &live, shelf, out, err, trail, control, clock, fetchers,
        ),
        Err(WordsError::NoMemory) => {
            let end = Err(Refusal::NoMemory);
            tell(err, "", &end);
            handed_back(status_at(&end), control, clock, fetchers)
        }
        _ => {
            let mut control = control;
            let status = tool_still(means, words, shelf, out, err, trail, &mut control);
            handed_back(status, control, clock, fetchers)
        }
    }
}
