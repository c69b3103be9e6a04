//! Why a scrape isn't good.

/// Why a scrape isn't good. The first fault in this order is the scrape's; of the four that name a row, that of the least row is, and in one row the first.
#[derive(Clone, Copy, Debug, PartialEq, Eq)]
pub enum ScrapeFault {
    /// The connection failed.
    Lost,
    /// The reply was no HTTP reply that is read.
    Garbled,
    /// Nothing was sent.
    Unsent,
    /// The fetch took longer than the timeout.
    Slow,
    /// The reply has this status, and not 200.
    Status(u16),
    /// The body is longer than its limit.
    Size,
    /// The body is faulty: the number of its first faulty line, counted from 1.
    Line(u64),
    /// The series of this row has no `__name__`. Rows are counted from 0 over the sample lines of the body.
    Nameless(u64),
    /// The series of this row has more labels than `label_limit`.
    Labels(u64),
    /// The series of this row has a longer label name than `label_name_length_limit`.
    NameLength(u64),
    /// The series of this row has a longer label value than `label_value_length_limit`.
    ValueLength(u64),
    /// More rows are left than `sample_limit`.
    Samples,
    /// The job has more targets than `target_limit`, so nothing was fetched.
    TargetLimit,
}
