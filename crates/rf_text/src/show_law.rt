//! Laws of a show's text: its lines make the show again, and edits keep it within what lines can say.

ghost use Rattle.rf_text.specs.ShowLaw.{EditsStayTextual, LinesMakeShow};
ghost use Rattle.rf_text.specs.TextLines.{TextHasLines};

/// The lines of a show's text, read as commands and applied to a first show over the same files, are all accepted and give
/// an equal show. Of a show that is raised this isn't said, since a text may not give all of its widths.
pub fn lines_make_show()
    ensures { LinesMakeShow }
{}

/// The lines of the bytes of a show's text are its comment and then exactly the texts of the commands that make the show: no
/// text of a command is cut, is longer than a line may be, or stands in a line with another.
pub fn text_has_lines()
    ensures { TextHasLines }
{}

/// A show that lines and files make of a first one isn't raised: it has no spacing, half width or margin above 100,000 kHz.
pub fn edits_stay_textual()
    ensures { EditsStayTextual }
{}
