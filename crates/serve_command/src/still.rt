//! The program but for its live run, over whatever has files, takes bytes and gives a connection.
ghost use Rattle.std.specs.Prelude.{◌≡◌, ℕ, Bool, List, map, string_bytes, Some};
ghost use Rattle.label_set.specs.declared.texts.Pair.{Pair};
ghost use Rattle.journal_text.specs.declared.events.Event.{Event};
ghost use Rattle.outside.specs.Objects.{used};
ghost use Rattle.scrape_machine.specs.Machine.{World};
ghost use Rattle.scrape_laws.specs.Markers.{MarkerLaw, ReportMarkerLaw};
ghost use Rattle.scrape_laws.specs.Runs.{ClosedRunsLaw};
ghost use Rattle.scrape_laws.specs.Late.{LateLaw};
ghost use Rattle.command_words.specs.Askings as askings;
ghost use Rattle.command_words.specs.Words.{order_in};
ghost use Rattle.command_words.specs.declared.words.Order.TheVariants as orders;
ghost use Rattle.scrape_commands.specs.Cuts.{CutLaw, IsCutOf};
ghost use Rattle.scrape_commands.specs.Ends.{call};
ghost use Rattle.scrape_commands.specs.Laws.{EndedStill};
ghost use Rattle.serve_command.specs.Ends as spec;
ghost use Rattle.serve_command.specs.Ends.{EndedServe, LacksServe};
ghost use Rattle.serve_command.specs.Serves.{touched};

use crate::ends::{ScriptEnd, ServerEnd};
use crate::serve::serve_script;
use command_words::{Order, Serving, WordsError, order_in};
use outside::{Shelf, Sink, Source};
use scrape_commands::Refusal;
use scrape_commands::still::{cuts, status_at, tell, tool_plain};
use scrape_core::Means;
use scrape_laws::laws::{closed_runs, late, markers, report_markers};
use status_server::serves_all;

/// What is said of the end of serving: of which file, and which refusal.
#[derive(Drop)]
struct Said<'a> {
    file: &'a str,
    end: Result<(), Refusal>,
}

/// The refusal that a script was not replayed.
fn script_refusal(end: ScriptEnd) -> Refusal
    ensures { result ≡ spec.script_refusal end }
{
    match end {
        ScriptEnd::Absent => Refusal::Absent,
        ScriptEnd::TooLong => Refusal::TooLong,
        ScriptEnd::ReadFault => Refusal::ReadFault,
        ScriptEnd::Script(fault) => Refusal::Script(fault),
        ScriptEnd::NoMemory => Refusal::NoMemory,
    }
}

/// What is said of the end of serving: too long a connection is named `control`.
fn said_of<'a>(end: ServerEnd, script: &'a str) -> Said<'a>
    ensures file { result.file.now ≡ spec.file_said end script.entry.now }
    ensures end { result.end ≡ spec.refusal_of end }
{
    let refusal = match end {
        ServerEnd::Done => {
            return Said {
                file: script,
                end: Ok(()),
            };
        }
        ServerEnd::TooLong => {
            return Said {
                file: "control",
                end: Err(Refusal::TooLong),
            };
        }
        ServerEnd::Unreplayed(end) => script_refusal(end),
        ServerEnd::ReadFault => Refusal::ReadFault,
        ServerEnd::WriteFault => Refusal::WriteFault,
        ServerEnd::NoMemory => Refusal::NoMemory,
    };
    Said {
        file: script,
        end: Err(refusal),
    }
}

/// Serves a connection, and tells of the end.
fn tool_serve<S: Shelf, O: Sink, E: Sink, R: Sink, C: Source>(
    means: Means,
    asked: &Serving<'_>,
    shelf: &mut S,
    out: &mut O,
    err: &mut E,
    trail: &mut R,
    control: &mut C,
) -> u8
    ensures { EndedServe result asked.now (touched (used (S.seen shelf.old) (S.seen shelf.new)) (used (O.seen out.old) (O.seen out.new))
        (used (R.seen trail.old) (R.seen trail.new)) (used (C.seen control.old) (C.seen control.new))) (used (E.seen err.old) (E.seen err.new)) }
{
    serves_all();
    let end = serve_script(means, asked, shelf, out, trail, control);
    let said = said_of(end, asked.script);
    tell(err, said.file, &said.end);
    status_at(&said.end)
}

/// The program but for `run`, whose words are none of its: takes the words after the program's name, and answers the
/// exit status.
///
/// `serve SCRIPT FILE` replays the script, lets its core answer the requests of the connection that `control` gives
/// (`GET /targets`, `GET /federate`, `POST /-/reload`, which loads FILE at the journal's last moment), puts the
/// replies to `out`, and writes the journal behind them to the trail:
///
/// | status | comes |
/// |---|---|
/// | 0 | the connection ended: each of its requests is answered, and the journal is written |
/// | 3, 9 | the shelf has no file of the script's name, or a longer one than 256 MiB, and counted that: nothing was served |
/// | 5 | the script has the text of no journal, for the fault that the message names: nothing was served |
/// | 6 | reading the script failed, and nothing was served; or reading the connection failed, or FILE: the replies stay, and the journal is written |
/// | 7 | writing a reply failed, and nothing is written of the journal; or writing that did: a front of it is |
/// | 8 | memory ran out: whole replies stay, and nothing is written of the journal |
/// | 9 | the connection gave more than 1 MiB: the replies stay, and the journal is written |
///
/// `served` is that table, with what is said on `err` and which status is due. All other commands are `scrape_commands`',
/// whose table says how they end (`still`); they leave trail and control as they are (`trail`, `control`). `markers`,
/// `closed_runs`, `report_markers` and `late` hold of every journal, so of the one that a script spells: in the book
/// that is printed each closed run of a tracked series has exactly one stale marker, after it, no marker stands
/// elsewhere, and a fetch that was cancelled adds nothing. `cuts` says what a trail is worth that a failing disk cut.
pub fn tool_still<S: Shelf, O: Sink, E: Sink, R: Sink, C: Source>(
    means: Means,
    words: &[String],
    shelf: &mut S,
    out: &mut O,
    err: &mut E,
    trail: &mut R,
    control: &mut C,
) -> u8
    ensures still { LacksServe (order_in (map string_bytes words.now)) → EndedStill result (call (map string_bytes words.now)
        (used (S.seen shelf.old) (S.seen shelf.new)) (used (O.seen out.old) (O.seen out.new)) (used (E.seen err.old) (E.seen err.new))) }
    ensures trail { LacksServe (order_in (map string_bytes words.now)) → trail.new ≡ trail.old }
    ensures control { LacksServe (order_in (map string_bytes words.now)) → control.new ≡ control.old }
    ensures served { (s : askings.Serving) → order_in (map string_bytes words.now) ≡ Some (orders.Serve s) → EndedServe result s
        (touched (used (S.seen shelf.old) (S.seen shelf.new)) (used (O.seen out.old) (O.seen out.new))
        (used (R.seen trail.old) (R.seen trail.new)) (used (C.seen control.old) (C.seen control.new))) (used (E.seen err.old) (E.seen err.new)) }
    ensures markers { (journal : List Event) → MarkerLaw journal }
    ensures closed_runs { (journal : List Event) (n : ℕ) (x : List Pair) → ClosedRunsLaw journal n x }
    ensures report_markers { (journal : List Event) → ReportMarkerLaw journal }
    ensures late { (w : World) → LateLaw w }
    ensures cuts { (journal front : List Event) (kept : Bool) → IsCutOf journal front → CutLaw journal front kept }
{
    cuts();
    markers();
    closed_runs();
    report_markers();
    late();
    match order_in(means.alloc, words) {
        Ok(Order::Serve(asked)) => tool_serve(means, &asked, shelf, out, err, trail, control),
        Err(WordsError::NoMemory) => {
            let end = Err(Refusal::NoMemory);
            tell(err, "", &end);
            status_at(&end)
        }
        _ => tool_plain(means, words, shelf, out, err),
    }
}
