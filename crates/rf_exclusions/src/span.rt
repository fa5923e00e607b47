//! A closed interval of numbers.

ghost use Rattle.std.specs.Prelude.{◌≡◌, ◌+◌, ◌<◌, ◌↔◌, IsTrue};
ghost use Rattle.rf_exclusions.specs.Spans.{joined};

/// The numbers from `lo` to `hi`.
#[derive(Clone, Copy, PartialEq, Eq)]
pub struct Span {
    pub lo: u32,
    pub hi: u32,
}
