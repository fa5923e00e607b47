//! The program over an outside in memory that never fails.

ghost use Rattle.std.specs.Prelude.{◌≡◌, ◌≢◌, ◌≤◌, Bool, Some, length, if◌then◌else◌};
ghost use Rattle.rf_base.specs.Clean.{left_in};
ghost use Rattle.rf_words.specs.declared.asked.Asked.{Asked};
ghost use Rattle.rf_session.specs.Clean.{clean_outside, HeadlineClean};
ghost use Rattle.rf_session.specs.Process.{EndsWell};
ghost use Rattle.rf_session.specs.Top.{script_limit};
ghost use Rattle.rf_session.specs.Words.{asks};

use crate::top::run;
use rf_base::{CleanShelf, CleanSink, CleanSource, Status};
use std::alloc::Global;

/// Does what `run` does. Nothing fails, so that a command is done or no memory was found: a session never ends with `Read` or `Write`,
/// a check never with `Shelf` or `Write`, and no file that a line names is answered E11.
pub fn run_clean(
    alloc: Global,
    words: &[String],
    input: &mut CleanSource,
    shelf: &mut CleanShelf,
    output: &mut CleanSink,
) -> Status
    ensures read { result ≢ Status.Read }
    ensures write { result ≢ Status.Write }
    ensures shelf { result ≢ Status.Shelf }
    ensures done { (asks words.now ≡ Some Asked.Session → length (left_in input.old) ≤ script_limit) →
        EndsWell (asks words.now) result }
    ensures fetched { asks words.now ≡ Some Asked.Session → (refusal : Bool) →
        result ≡ (if refusal then Status.Refused else Status.Done) →
        HeadlineClean (clean_outside shelf.old) (clean_outside shelf.new) (left_in input.old) refusal }
{
    run(alloc, words, input, shelf, output)
}
