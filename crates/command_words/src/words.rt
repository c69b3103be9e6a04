//! What the program can be asked for.
ghost use Rattle.std.specs.Prelude.{◌≡◌, ◌≤◌, ◌<◌, ◌*◌, ◌^◌};
ghost use Rattle.synth.specs.Scripts.{plan, most_targets, most_scrapes, most_scrapes_of_all};
ghost use Rattle.command_words.specs.Askings.{running};
ghost use Rattle.command_words.specs.Words as spec;
ghost use Rattle.command_words.specs.declared.words.Order.TheVariants as order;

use crate::viewing::Viewing;
use outside::{MOST_BODY_BYTES, MOST_TEXT_BYTES};
use std::marker::Model;
use synth::MOST_SCRAPES_OF_ALL;

/// The commands.
#[derive(Clone, Copy, PartialEq, Eq, Debug)]
pub enum Verb {
    Replay,
    Check,
    Convert,
    At,
    Synth,
    Run,
    Serve,
}

/// The commands over a file.
#[derive(Drop, Debug)]
pub enum Command<'a> {
    /// Replay the script in a file; of one that may have been cut, what it begins with.
    Replay { cut: bool },
    /// Check the configuration in a file.
    Check,
    /// Convert the OpenMetrics body in a file.
    Convert,
    /// Tell what a selector sees at a moment in the book of the script in a file.
    At(Viewing<'a>),
}

/// A command with its flag, and the name of its file.
#[derive(Drop, Debug)]
pub struct OfFile<'a> {
    pub command: Command<'a>,
    /// Whether each line of a book has the verdict in front.
    pub kept: bool,
    pub file: &'a str,
}

impl<'a> Model for OfFile<'a> {
    ghost use Rattle.command_words.specs.Askings.{Asking};

    ghost Value = { Asking };

    ghost view = { λ a. record { command = a.command; kept = a.kept; file = a.file.now } };
}

/// How large a script is to be: 1 to 10,000 targets, up to 1,000 scrapes of each, and at most 20,000 in all.
#[derive(Drop, Debug)]
pub struct Workload {
    seed: u32,
    targets: u32,
    scrapes: u32,
}

impl Model for Workload {
    ghost use Rattle.std.specs.Prelude.{◌≤◌, ◌*◌};
    ghost use Rattle.synth.specs.Scripts.{plan, most_targets, most_scrapes, most_scrapes_of_all};
    ghost use Rattle.synth.specs.declared.scripts.Plan.{Plan};

    ghost Value = { Plan };

    ghost view = { λ w. plan w.seed w.targets w.scrapes };

    ghost invariant = { λ w. (1 ≤ w.targets) × (w.targets ≤ most_targets) × (w.scrapes ≤ most_scrapes)
        × (w.targets * w.scrapes ≤ most_scrapes_of_all) };
}

impl Workload {
    /// The seed of the script.
    pub fn seed(&self) -> u32
        ensures { result ≡ self.now.seed }
    {
        self.seed
    }

    /// How many targets it has: 1 to 10,000.
    pub fn targets(&self) -> u32
        ensures targets { result ≡ self.now.targets }
        ensures range { (1 ≤ result) × (result ≤ most_targets) }
    {
        self.targets
    }

    /// How often each is scraped: up to 1,000 times, and at most 20,000 scrapes in all.
    pub fn scrapes(&self) -> u32
        ensures scrapes { result ≡ self.now.scrapes }
        ensures range { (result ≤ most_scrapes) × (self.now.targets * result ≤ most_scrapes_of_all) }
    {
        self.scrapes
    }
}

/// A live run: how many sweeps it makes, at most 1,000,000, its flag, and the file of its first configuration.
#[derive(Drop, Debug)]
pub struct Live<'a> {
    turns: u32,
    kept: bool,
    file: &'a str,
}

impl<'a> Model for Live<'a> {
    ghost use Rattle.command_words.specs.Askings.{Running};

    ghost Value = { Running };

    ghost use Rattle.std.specs.Prelude.{◌≤◌};

    ghost view = { λ l. record { turns = l.turns; kept = l.kept; file = l.file.now } };

    ghost invariant = { λ l. l.turns ≤ 1000000 };
}

impl<'a> Live<'a> {
    /// How many sweeps it makes.
    pub fn turns(&self) -> u32
        ensures turns { result ≡ self.now.turns }
        ensures range { result ≤ 1000000 }
    {
        self.turns
    }

    /// Whether each line of its book has the verdict in front.
    pub fn kept(&self) -> bool
        ensures { result ≡ self.now.kept }
    {
        self.kept
    }

    /// The file of its first configuration.
    pub fn file(&self) -> &'a str
        ensures { result.now ≡ self.now.file }
    {
        self.file
    }
}

/// Serving: the file of the script whose core answers, and the file that a reload loads.
#[derive(Drop, Debug)]
pub struct Serving<'a> {
    pub script: &'a str,
    pub file: &'a str,
}

impl<'a> Model for Serving<'a> {
    ghost use Rattle.command_words.specs.Askings as askings;

    ghost Value = { askings.Serving };

    ghost view = { λ s. record { script = s.script.now; file = s.file.now } };
}

/// What the program can be asked for that it does by itself.
#[derive(Drop, Debug)]
pub enum Asked<'a> {
    /// A command over a file.
    File(OfFile<'a>),
    /// The summary of a script that is made.
    Synth(Workload),
}

/// What the program can be asked for.
#[derive(Drop, Debug)]
pub enum Order<'a> {
    /// What it does by itself.
    Still(Asked<'a>),
    /// A live run, with whatever fetches, tells the time and gives control lines.
    Run(Live<'a>),
    /// Answers to the requests of a connection, over the core of a script.
    Serve(Serving<'a>),
}

/// The command of a word.
pub fn verb_named(word: &str) -> Option<Verb>
    ensures { result ≡ spec.verb_named word.now }
{
    if word == "replay" {
        Some(Verb::Replay)
    } else if word == "check" {
        Some(Verb::Check)
    } else if word == "convert" {
        Some(Verb::Convert)
    } else if word == "at" {
        Some(Verb::At)
    } else if word == "synth" {
        Some(Verb::Synth)
    } else if word == "run" {
        Some(Verb::Run)
    } else if word == "serve" {
        Some(Verb::Serve)
    } else {
        None
    }
}

/// A workload of these numbers, where it isn't too large.
#[tactic(auto, unfolding(crate::specs::Words::is_plan))]
pub fn workload_of<'a>(seed: u64, targets: u64, scrapes: u64) -> Option<Asked<'a>>
    requires seed { seed < 2 ^ 32 }
    requires targets { targets ≤ most_targets }
    requires scrapes { scrapes ≤ most_scrapes }
    ensures { result ≡ spec.unless_large (plan seed targets scrapes) }
{
    if 1 <= targets && targets * scrapes <= MOST_SCRAPES_OF_ALL {
        Some(Asked::Synth(Workload {
            seed: seed as u32,
            targets: targets as u32,
            scrapes: scrapes as u32,
        }))
    } else {
        None
    }
}

/// A live run of so many sweeps over the configuration in a file.
pub fn live_of<'a>(turns: u64, kept: bool, file: &'a str) -> Order<'a>
    requires turns { turns < 1000001 }
    ensures { result ≡ order.Run (running turns kept file.now) }
{
    Order::Run(Live {
        turns: turns as u32,
        kept,
        file,
    })
}

/// How many bytes the file of a command may have: 256 MiB for a script, 4 MiB for a configuration, and 64 MiB for a body.
pub fn limit_of(command: &Command<'_>) -> usize
    ensures { result ≡ spec.limit_of command.now }
{
    match command {
        Command::Replay { .. } | Command::At(_) => 268_435_456,
        Command::Check => MOST_TEXT_BYTES as usize,
        Command::Convert => MOST_BODY_BYTES as usize,
    }
}
