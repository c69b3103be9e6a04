//! What `at` looks for.
ghost use Rattle.std.specs.Prelude.{◌≡◌, ◌<◌, ◌^◌};
ghost use Rattle.command_words.specs.Instants.{instant};

use std::marker::Model;

/// What `at` looks for: a selector, and a moment in milliseconds, below 2^52.
#[derive(Drop, Debug)]
pub struct Viewing<'a> {
    moment: u64,
    selector: &'a str,
}

impl<'a> Model for Viewing<'a> {
    ghost use Rattle.command_words.specs.Instants.{Instant};

    ghost Value = { Instant };

    ghost use Rattle.std.specs.Prelude.{◌<◌, ◌^◌};

    ghost view = { λ v. record { moment = v.moment; selector = v.selector.now } };

    ghost invariant = { λ v. v.moment < 2 ^ 52 };
}

impl<'a> Viewing<'a> {
    /// The moment in milliseconds.
    pub fn moment(&self) -> u64
        ensures moment { result ≡ self.now.moment }
        ensures range { result < 2 ^ 52 }
    {
        self.moment
    }

    /// The text of the selector.
    pub fn selector(&self) -> &'a str
        ensures { result.now ≡ self.now.selector }
    {
        self.selector
    }
}

/// What `at` looks for.
pub fn viewing_of<'a>(moment: u64, selector: &'a str) -> Viewing<'a>
    requires moment { moment < 2 ^ 52 }
    ensures { result ≡ instant moment selector.now }
{
    Viewing { moment, selector }
}
