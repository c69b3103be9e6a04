//! The moments of an ending, in milliseconds since the epoch.
ghost use Rattle.std.specs.Prelude.{◌≡◌, ◌<◌, ◌≤◌, ◌^◌};
ghost use Rattle.end_of_run.specs.Endings as spec;

use report_samples::Closing;
use value_text::to_number;

/// The moment at which the markers of a life stand: its next scrape's planned moment, or that of its closing where it is later.
pub fn marker_at(planned: u64, closed: u64) -> u64
    ensures { result ≡ spec.marker_at planned closed }
{
    planned.max(closed)
}

/// The moment from which on the ending of a life is due: an interval and a tenth of it, rounded down, after its markers.
pub fn due_at(planned: u64, closed: u64, interval: u64) -> u64
    requires planned { planned ≤ 2 ^ 53 }
    requires closed { closed < 2 ^ 52 }
    requires interval { interval ≤ 2 ^ 40 }
    ensures { result ≡ spec.due_at planned closed interval }
{
    marker_at(planned, closed) + interval + interval / 10
}

/// The moment of the markers of a closed life.
pub fn marker_moment(closing: &Closing) -> i64
    requires { spec.IsInLimits closing.now }
    ensures { result ≡ spec.marker_moment closing.now }
{
    marker_at(to_number(closing.planned), to_number(closing.closed)) as i64
}

/// The moment from which on the ending of a closed life is due.
pub fn due_from(closing: &Closing) -> u64
    requires { spec.IsInLimits closing.now }
    ensures { result ≡ spec.due_from closing.now }
{
    let planned = to_number(closing.planned);
    let closed = to_number(closing.closed);
    due_at(planned, closed, to_number(closing.interval))
}
