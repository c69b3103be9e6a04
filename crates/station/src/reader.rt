//! The state of the caller's reading.
ghost use Rattle.std.specs.Prelude.{◌≡◌, false, All};
ghost use Rattle.station.specs.InputLines.{is_feed};

/// The line that is being read, and how many came before it.
#[derive(Drop)]
pub struct Reader {
    pub line: Vec<u8>,
    pub before: u64,
    ghost unfed: { All (λ b. is_feed b ≡ false) line.items },
}
