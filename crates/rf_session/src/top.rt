//! All that the program does.

ghost use Rattle.std.specs.Prelude.{◌≡◌, ◌≤◌, Bool, false, Some, map, string_bytes, if◌then◌else◌};
ghost use Rattle.rf_base.specs.Cause.{Rose};
ghost use Rattle.rf_base.specs.Told.{WhereTold};
ghost use Rattle.rf_session.specs.Fetches.{outside};
ghost use Rattle.rf_session.specs.Process.{fetches, reads_input, world, Ends, EndsWell, IsUndisturbed};
ghost use Rattle.rf_session.specs.Top.{Headline, Serves};
ghost use Rattle.rf_session.specs.Words.{asks};
ghost use Rattle.rf_words.specs.Words.{HasPlain, IsPlain};

use crate::check::check;
use crate::demo::demonstrate;
use crate::judge::Judge;
use crate::session::serve;
use crate::show_machine::ShowMachine;
use crate::words::refuse_words;
use rf_base::{LineReader, Shelf, Sink, Source, Status};
use rf_words::{Asked, WordsFault, read_words};
use std::alloc::Global;

/// Does all that the program does. `words` are those after the program's name, `input`, `shelf` and `output` its whole outside.
///
/// The one word `session` runs a session: script lines are read from the input, each is answered by a show that begins
/// with the zone `main` alone, and its reply is written to the output before the next line is read. A file that a line
/// names is fetched from the shelf in that line; it is answered E11 only where the count of its faults rose. The session
/// ends at the end of the input or after the line `quit`.
///
/// The words `check SHOW LOG` judge a log: the file SHOW is fetched, and each of its lines must be an edit of the show, a
/// comment or empty; then the file LOG is fetched and judged over that show. One line is written. No byte of the input is
/// taken.
///
/// The words `audit SHOW LOG` audit a log: the same files are fetched, and the first line of the log that is invalid or a dishonest
/// branching is found. One line is written. No byte of the input is taken.
///
/// The words `demo SEED COUNT` run a script that a number makes: three lines, and `COUNT` that are drawn from `SEED`. Four lines are
/// written: how many lines the script has, how many of them were refused, and how many carriers and conflicts the show has at the end.
/// No byte of the input is taken, and no file is fetched.
///
/// Other words do the same where `clap` takes them and reads these words from them. All other words are no command:
/// `error usage` is written, and nothing is read.
///
/// - `Done`, `Refused`: the session came to its end, and no line, or one, was refused. The check wrote `refuted`, or
///   another line; the audit `honest`, or another line. The demonstration wrote its lines, which is `Done`.
/// - `Words`: the words are no command.
/// - `Read`: the input of a session failed. The replies to all lines whose line feed was read are written.
/// - `Write`: the output failed. A prefix of the replies, of the line of a check or an audit, or of the lines of a
///   demonstration is written.
/// - `Shelf`: a file for which a check or an audit asked failed, and nothing is written.
/// - `Memory`: no memory was found. In a session whole replies are written, and at most a part of the next one; in the other
///   commands nothing is written. Where the words could not be read for want of memory, nothing is read or written.
/// - `Long`: the input of a session has more than 67,108,864 bytes. The replies to all lines that end within these are
///   written.
pub fn run<I: Source, F: Shelf, O: Sink>(
    alloc: Global,
    words: &[String],
    input: &mut I,
    shelf: &mut F,
    output: &mut O,
) -> Status
    ensures headline { asks words.now ≡ Some Asked.Session → (refusal : Bool) → result ≡ (if refusal then Status.Refused else Status.Done) →
        WhereTold (I.left input.old) (I.left input.new) (λ bytes _. Headline
        (outside (O.contents output.old) (F.file shelf.old) (F.faults shelf.old) (F.asked shelf.old))
        (outside (O.contents output.new) (F.file shelf.new) (F.faults shelf.new) (F.asked shelf.new)) bytes refusal) }
    ensures done { result ≡ Status.Done → Ends (asks words.now) Status.Done
        (world (I.left input.old) (I.faults input.old)
        (outside (O.contents output.old) (F.file shelf.old) (F.faults shelf.old) (F.asked shelf.old)) (O.faults output.old))
        (world (I.left input.new) (I.faults input.new)
        (outside (O.contents output.new) (F.file shelf.new) (F.faults shelf.new) (F.asked shelf.new)) (O.faults output.new)) }
    ensures refused { result ≡ Status.Refused → Ends (asks words.now) Status.Refused
        (world (I.left input.old) (I.faults input.old)
        (outside (O.contents output.old) (F.file shelf.old) (F.faults shelf.old) (F.asked shelf.old)) (O.faults output.old))
        (world (I.left input.new) (I.faults input.new)
        (outside (O.contents output.new) (F.file shelf.new) (F.faults shelf.new) (F.asked shelf.new)) (O.faults output.new)) }
    ensures words { result ≡ Status.Words → Ends (asks words.now) Status.Words
        (world (I.left input.old) (I.faults input.old)
        (outside (O.contents output.old) (F.file shelf.old) (F.faults shelf.old) (F.asked shelf.old)) (O.faults output.old))
        (world (I.left input.new) (I.faults input.new)
        (outside (O.contents output.new) (F.file shelf.new) (F.faults shelf.new) (F.asked shelf.new)) (O.faults output.new)) }
    ensures read { result ≡ Status.Read → Ends (asks words.now) Status.Read
        (world (I.left input.old) (I.faults input.old)
        (outside (O.contents output.old) (F.file shelf.old) (F.faults shelf.old) (F.asked shelf.old)) (O.faults output.old))
        (world (I.left input.new) (I.faults input.new)
        (outside (O.contents output.new) (F.file shelf.new) (F.faults shelf.new) (F.asked shelf.new)) (O.faults output.new)) }
    ensures write { result ≡ Status.Write → Ends (asks words.now) Status.Write
        (world (I.left input.old) (I.faults input.old)
        (outside (O.contents output.old) (F.file shelf.old) (F.faults shelf.old) (F.asked shelf.old)) (O.faults output.old))
        (world (I.left input.new) (I.faults input.new)
        (outside (O.contents output.new) (F.file shelf.new) (F.faults shelf.new) (F.asked shelf.new)) (O.faults output.new)) }
    ensures shelf { result ≡ Status.Shelf → Ends (asks words.now) Status.Shelf
        (world (I.left input.old) (I.faults input.old)
        (outside (O.contents output.old) (F.file shelf.old) (F.faults shelf.old) (F.asked shelf.old)) (O.faults output.old))
        (world (I.left input.new) (I.faults input.new)
        (outside (O.contents output.new) (F.file shelf.new) (F.faults shelf.new) (F.asked shelf.new)) (O.faults output.new)) }
    ensures memory { result ≡ Status.Memory → Ends (asks words.now) Status.Memory
        (world (I.left input.old) (I.faults input.old)
        (outside (O.contents output.old) (F.file shelf.old) (F.faults shelf.old) (F.asked shelf.old)) (O.faults output.old))
        (world (I.left input.new) (I.faults input.new)
        (outside (O.contents output.new) (F.file shelf.new) (F.faults shelf.new) (F.asked shelf.new)) (O.faults output.new)) }
    ensures long { result ≡ Status.Long → Ends (asks words.now) Status.Long
        (world (I.left input.old) (I.faults input.old)
        (outside (O.contents output.old) (F.file shelf.old) (F.faults shelf.old) (F.asked shelf.old)) (O.faults output.old))
        (world (I.left input.new) (I.faults input.new)
        (outside (O.contents output.new) (F.file shelf.new) (F.faults shelf.new) (F.asked shelf.new)) (O.faults output.new)) }
    ensures complete { IsUndisturbed (asks words.now)
        (world (I.left input.old) (I.faults input.old)
        (outside (O.contents output.old) (F.file shelf.old) (F.faults shelf.old) (F.asked shelf.old)) (O.faults output.old))
        (world (I.left input.new) (I.faults input.new)
        (outside (O.contents output.new) (F.file shelf.new) (F.faults shelf.new) (F.asked shelf.new)) (O.faults output.new)) → EndsWell (asks words.now) result }
    ensures plain_words { (asked : Asked) → IsPlain (map string_bytes words.now) asked → asks words.now ≡ Some asked }
    ensures other_words { (asked : Asked) → asks words.now ≡ Some asked → HasPlain asked }
    ensures untouched_input { reads_input (asks words.now) ≡ false → input.new ≡ input.old }
    ensures untouched_shelf { fetches (asks words.now) ≡ false → shelf.new ≡ shelf.old }
    ensures input_later { I.faults input.old ≤ I.faults input.new }
    ensures output_later { O.faults output.old ≤ O.faults output.new }
{
    do_asked(alloc, words, input, shelf, output)
}

/// Does what the words ask for.
fn do_asked<I: Source, F: Shelf, O: Sink>(
    alloc: Global,
    words: &[String],
    input: &mut I,
    shelf: &mut F,
    output: &mut O,
) -> Status
    ensures ends { Ends (asks words.now) result
        (world (I.left input.old) (I.faults input.old)
        (outside (O.contents output.old) (F.file shelf.old) (F.faults shelf.old) (F.asked shelf.old)) (O.faults output.old))
        (world (I.left input.new) (I.faults input.new)
        (outside (O.contents output.new) (F.file shelf.new) (F.faults shelf.new) (F.asked shelf.new)) (O.faults output.new)) }
    ensures plain_words { (asked : Asked) → IsPlain (map string_bytes words.now) asked → asks words.now ≡ Some asked }
    ensures other_words { (asked : Asked) → asks words.now ≡ Some asked → HasPlain asked }
    ensures untouched_input { reads_input (asks words.now) ≡ false → input.new ≡ input.old }
    ensures untouched_shelf { fetches (asks words.now) ≡ false → shelf.new ≡ shelf.old }
    ensures input_later { I.faults input.old ≤ I.faults input.new }
    ensures output_later { O.faults output.old ≤ O.faults output.new }
{
    match read_words(alloc, words) {
        Ok(Asked::Session) => session(alloc, input, shelf, output),
        Ok(Asked::Check { show, log }) => {
            check(
                alloc,
                Judge::Checker,
                show.as_str(),
                log.as_str(),
                shelf,
                output,
            )
        }
        Ok(Asked::Audit { show, log }) => {
            check(
                alloc,
                Judge::Auditor,
                show.as_str(),
                log.as_str(),
                shelf,
                output,
            )
        }
        Ok(Asked::Demo { seed, count }) => demonstrate(alloc, seed, count, output),
        Err(WordsFault::Usage) => refuse_words(output),
        Err(WordsFault::Memory) => Status::Memory,
    }
}

/// Answers the lines of the input from the first state.
fn session<I: Source, F: Shelf, O: Sink>(
    alloc: Global,
    input: &mut I,
    shelf: &mut F,
    output: &mut O,
) -> Status
    ensures ends { WhereTold (I.left input.old) (I.left input.new) (λ bytes left. Serves result
        (outside (O.contents output.old) (F.file shelf.old) (F.faults shelf.old) (F.asked shelf.old))
        (outside (O.contents output.new) (F.file shelf.new) (F.faults shelf.new) (F.asked shelf.new)) bytes left) }
    ensures input_later { I.faults input.old ≤ I.faults input.new }
    ensures output_later { O.faults output.old ≤ O.faults output.new }
    ensures read { result ≡ Status.Read → Rose (I.faults input.old) (I.faults input.new) }
    ensures write { result ≡ Status.Write → Rose (O.faults output.old) (O.faults output.new) }
    ensures no_words { result ≡ Status.Words → ⊥ }
    ensures no_shelf { result ≡ Status.Shelf → ⊥ }
{
    let Ok(mut reader) = LineReader::new(alloc) else {
        return Status::Memory;
    };
    let Ok(mut machine) = ShowMachine::new(alloc) else {
        return Status::Memory;
    };
    serve(&mut reader, &mut machine, input, shelf, output)
}
