//! Which texts are names of labels and metrics, by their bytes.
ghost use Rattle.std.specs.Prelude.{◌≡◌};
ghost use Rattle.std.specs.List.{list_all};
ghost use Rattle.label_set.specs.Bytes as spec;

/// Whether a text is a label name, `[a-zA-Z_][a-zA-Z0-9_]*`.
pub fn is_label_name(text: &str) -> bool
    ensures { result ≡ spec.is_label_name text.now }
{
    are_label_name(text.as_bytes())
}

/// Whether a text is a metric name, `[a-zA-Z_:][a-zA-Z0-9_:]*`.
pub fn is_metric_name(text: &str) -> bool
    ensures { result ≡ spec.is_metric_name text.now }
{
    are_metric_name(text.as_bytes())
}

/// Whether bytes are a label name.
pub fn are_label_name(bytes: &[u8]) -> bool
    ensures { result ≡ spec.is_label_name bytes.now }
{
    !bytes.is_empty() && is_name_start(bytes[0]) && are_name_bytes(bytes)
}

/// Whether bytes are a metric name.
pub fn are_metric_name(bytes: &[u8]) -> bool
    ensures { result ≡ spec.is_metric_name bytes.now }
{
    !bytes.is_empty() && is_metric_start(bytes[0]) && are_metric_bytes(bytes)
}

/// Whether each byte can stand in a label name.
pub fn are_name_bytes(bytes: &[u8]) -> bool
    ensures { result ≡ list_all spec.is_name_byte bytes.now }
{
    bytes.iter().all(|b| is_name_byte(*b))
}

/// Whether each byte can stand in a metric name.
pub fn are_metric_bytes(bytes: &[u8]) -> bool
    ensures { result ≡ list_all spec.is_metric_byte bytes.now }
{
    bytes.iter().all(|b| is_metric_byte(*b))
}

/// Whether a label name can begin with a byte.
#[inline]
#[tactic(auto, unfolding(crate::specs::Bytes::is_name_start))]
pub fn is_name_start(byte: u8) -> bool
    ensures { result ≡ spec.is_name_start byte }
{
    byte.is_ascii_alphabetic() || byte == b'_'
}

/// Whether a metric name can begin with a byte.
#[inline]
#[tactic(auto, unfolding(crate::specs::Bytes::is_metric_start))]
pub fn is_metric_start(byte: u8) -> bool
    ensures { result ≡ spec.is_metric_start byte }
{
    is_name_start(byte) || byte == b':'
}

/// Whether a byte can stand in a label name.
#[inline]
pub fn is_name_byte(byte: u8) -> bool
    ensures { result ≡ spec.is_name_byte byte }
{
    NAME_BYTES[byte as usize]
}

/// Whether a byte can stand in a metric name.
#[inline]
pub fn is_metric_byte(byte: u8) -> bool
    ensures { result ≡ spec.is_metric_byte byte }
{
    METRIC_BYTES[byte as usize]
}

/// For each byte, whether it can stand in a label name: a lookup costs less than the comparisons.
static NAME_BYTES: [bool; 256] = [
    false, false, false, false, false, false, false, false, false, false, false, false, false,
    false, false, false, false, false, false, false, false, false, false, false, false, false,
    false, false, false, false, false, false, false, false, false, false, false, false, false,
    false, false, false, false, false, false, false, false, false, true, true, true, true, true,
    true, true, true, true, true, false, false, false, false, false, false, false, true, true,
    true, true, true, true, true, true, true, true, true, true, true, true, true, true, true, true,
    true, true, true, true, true, true, true, true, false, false, false, false, true, false, true,
    true, true, true, true, true, true, true, true, true, true, true, true, true, true, true, true,
    true, true, true, true, true, true, true, true, true, false, false, false, false, false, false,
    false, false, false, false, false, false, false, false, false, false, false, false, false,
    false, false, false, false, false, false, false, false, false, false, false, false, false,
    false, false, false, false, false, false, false, false, false, false, false, false, false,
    false, false, false, false, false, false, false, false, false, false, false, false, false,
    false, false, false, false, false, false, false, false, false, false, false, false, false,
    false, false, false, false, false, false, false, false, false, false, false, false, false,
    false, false, false, false, false, false, false, false, false, false, false, false, false,
    false, false, false, false, false, false, false, false, false, false, false, false, false,
    false, false, false, false, false, false, false, false, false, false, false, false, false,
    false, false, false, false, false, false, false, false, false, false,
];

/// For each byte, whether it can stand in a metric name.
static METRIC_BYTES: [bool; 256] = [
    false, false, false, false, false, false, false, false, false, false, false, false, false,
    false, false, false, false, false, false, false, false, false, false, false, false, false,
    false, false, false, false, false, false, false, false, false, false, false, false, false,
    false, false, false, false, false, false, false, false, false, true, true, true, true, true,
    true, true, true, true, true, true, false, false, false, false, false, false, true, true, true,
    true, true, true, true, true, true, true, true, true, true, true, true, true, true, true, true,
    true, true, true, true, true, true, true, false, false, false, false, true, false, true, true,
    true, true, true, true, true, true, true, true, true, true, true, true, true, true, true, true,
    true, true, true, true, true, true, true, true, false, false, false, false, false, false,
    false, false, false, false, false, false, false, false, false, false, false, false, false,
    false, false, false, false, false, false, false, false, false, false, false, false, false,
    false, false, false, false, false, false, false, false, false, false, false, false, false,
    false, false, false, false, false, false, false, false, false, false, false, false, false,
    false, false, false, false, false, false, false, false, false, false, false, false, false,
    false, false, false, false, false, false, false, false, false, false, false, false, false,
    false, false, false, false, false, false, false, false, false, false, false, false, false,
    false, false, false, false, false, false, false, false, false, false, false, false, false,
    false, false, false, false, false, false, false, false, false, false, false, false, false,
    false, false, false, false, false, false, false, false, false, false,
];
