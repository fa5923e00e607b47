//! The words for what stands between the fields of a scan file.

ghost use Rattle.std.specs.Prelude.{◌≡◌};
ghost use Rattle.rf_text.specs.Separators as spec;

use rf_exclusions::Sep;

static SEPARATORS: [Sep; 3] = [Sep::Comma, Sep::Semicolon, Sep::Tab];

/// How a separator is named.
pub(crate) fn sep_text(sep: Sep) -> &'static str
    ensures { result.now ≡ spec.sep_text sep }
{
    match sep {
        Sep::Comma => "comma",
        Sep::Semicolon => "semicolon",
        Sep::Tab => "tab",
    }
}

/// The separator that a word names.
#[tactic(auto, unfolding(crate::specs::Separators::sep_of))]
pub(crate) fn read_sep(word: &[u8]) -> Option<Sep>
    ensures { result ≡ spec.sep_of word.now }
{
    SEPARATORS
        .iter()
        .copied()
        .find(|sep| word == sep_text(*sep).as_bytes())
}
