//! Fronts of bytes, and what is behind them.
ghost use Rattle.std.specs.Prelude.{◌≡◌, ◌≤◌, length, take, drop};

/// The bytes in front.
pub(crate) fn front(text: &[u8], count: usize) -> &[u8]
    requires { count ≤ length text.now }
    ensures { result.now ≡ take count text.now }
{
    &text[..count]
}

/// The bytes behind these.
pub(crate) fn behind(text: &[u8], count: usize) -> &[u8]
    requires { count ≤ length text.now }
    ensures { result.now ≡ drop count text.now }
{
    &text[count..]
}
