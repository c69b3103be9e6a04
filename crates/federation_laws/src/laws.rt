//! The law.
ghost use Rattle.federation_laws.specs.Reads.{FederationReads};

use federation::reads_back;
use named_series::{labels_have_names, series_have_names};

/// The body of each reply of a status server to a request for federation reads, in the form with names in quotes, as
/// just the rows that its selectors see: each series of a book has a metric name, and none a label with an empty one.
/// It does nothing.
pub fn federation_reads()
    ensures { FederationReads }
{
    reads_back();
    series_have_names();
    labels_have_names();
}
