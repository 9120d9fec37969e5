//! The whole program, over any shelf and any sink.

ghost use Rattle.std.specs.Prelude.{◌≡◌, ◌≢◌, false, map, string_bytes, IsTrue};
ghost use Rattle.byte_ends.specs.Counts.{Rose};
ghost use Rattle.byte_ends.specs.Shelf.{ReadsOnly, SameReadFaults};
ghost use Rattle.byte_ends.specs.Sink.{Puts};
ghost use Rattle.m3_tool.specs.Answer.{IsAnswered, Stops, answer_of};
ghost use Rattle.m3_tool.specs.Command.{command_of};
ghost use Rattle.m3_tool.specs.Lines.{help_text, no_memory_line, read_fault_line};
ghost use Rattle.m3_tool.specs.Run.{IsNoneOrCount, ReadsFailed, answer, is_outside};
ghost use Rattle.m3_tool.specs.Headline.{AnswersWords, IsUndisturbed, OnlyDue, PutsDue, PutsPart, SaysCounted, SaysLowered, SaysPrinted, SaysSatisfied, SaysViolated, SaysWhether};

use crate::answer::{Answer, fixed};
use crate::count::count;
use crate::print::print;
use crate::status::Status;
use crate::tables::Stop;
use crate::witness::{Question, answer_to_files};
use crate::words::{Command, command_of};
use byte_ends::{Shelf, Sink, WriteFault, put_whole};
use std::alloc::Global;

/// What `--help` prints.
pub const HELP: &str = "bm3 check TABLES WITNESS
    Says whether a witness satisfies tables. Reads both files and writes none.
bm3 print TABLES
    Prints the canonical text of tables. Reads the file and writes none.
bm3 lower TABLES WITNESS ALPHA GAMMA
    Prints the products of each channel at two numbers. Reads both files and writes none.
bm3 count TABLES ROWS..
    Prints the draws of a proof that are counted, and the proof's length. Reads the file and writes none.
bm3 --help
    Prints this text.
bm3 --version
    Prints the version.
Statuses:
    0   satisfied, or what was asked for was printed
    1   the witness violates the tables
    2   the words fit no command, or count has another number of rows
    3   the text of the tables or their shape is refused
    4   the witness is refused
    6   a read failed
    7   a write failed
    8   the columns take too many bits
    9   out of memory
    10  a file is too long
";

const VERSION: &str = "bm3 0.1.0\n";

#[tactic(auto, unfolding(crate::specs::Lines::help_text))]
fn help() -> Answer
    ensures { answer_of result ≡ answer Status.Yes help_text }
{
    fixed(Status::Yes, HELP)
}

/// The answer, or that of what stopped it.
fn answer_or_stop(answered: Result<Answer, Stop>) -> Answer
    ensures { Stops answered (answer_of result) }
{
    match answered {
        Ok(answer) => answer,
        Err(Stop::ReadFault) => fixed(Status::ReadFault, "read fault\n"),
        Err(Stop::NoMemory) => fixed(Status::NoMemory, "no memory\n"),
    }
}

/// The answer to words, which is to be put.
fn answer_to<S: Shelf>(alloc: Global, words: &[String], shelf: &mut S) -> Answer
    ensures { IsAnswered (command_of (map string_bytes words.now)) (S.state shelf.old) (S.state shelf.new) (answer_of result) }
{
    match command_of(words) {
        None => fixed(Status::Words, "words\n"),
        Some(Command::Help) => help(),
        Some(Command::Version) => fixed(Status::Yes, VERSION),
        Some(
            Command::Check {
                tables_file,
                witness_file,
            },
        ) => answer_or_stop(answer_to_files(
            alloc,
            shelf,
            tables_file,
            witness_file,
            Question::Satisfied,
        )),
        Some(Command::Print { tables_file }) => answer_or_stop(print(alloc, shelf, tables_file)),
        Some(
            Command::Lower {
                tables_file,
                witness_file,
                alpha,
                gamma,
            },
        ) => {
            let question = Question::Lowered { alpha, gamma };
            answer_or_stop(answer_to_files(alloc, shelf, tables_file, witness_file, question))
        }
        Some(Command::Count { tables_file, rows }) => {
            answer_or_stop(count(alloc, shelf, tables_file, rows))
        }
    }
}

/// Runs the program: judges the words, reads the files that they name in their order, judges each
/// as soon as it is read, and puts the answer in one text.
///
/// The first refusal ends the run. `bm3 check TABLES WITNESS` reads the tables and judges their
/// text and their shape before it reads the witness, and `bm3 lower TABLES WITNESS ALPHA GAMMA`
/// reads the same files in the same order. `bm3 count TABLES ROWS..` judges the tables' text and
/// their shape before it compares their number with that of ROWS. No command writes a file.
pub fn run<S: Shelf, W: Sink>(alloc: Global, words: &[String], shelf: &mut S, out: &mut W) -> Status
    // The headline: a check says Yes where the witness satisfies the tables, and No, with the
    // first violation, where it doesn't.
    ensures satisfied { SaysSatisfied (command_of (map string_bytes words.now)) (S.state shelf.old) (W.state out.old) (W.state out.new) result }
    ensures violated { SaysViolated (command_of (map string_bytes words.now)) (S.state shelf.old) (W.state out.old) (W.state out.new) result }

    // A print says Yes where the tables are read, and puts their canonical text.
    ensures printed { SaysPrinted (command_of (map string_bytes words.now)) (S.state shelf.old) (W.state out.old) (W.state out.new) result }

    // A lower says Yes where the files are accepted, and puts the products of each channel, with
    // `holds` exactly where the lowered statement holds, and so where the witness satisfies the tables.
    ensures lowered { SaysLowered (command_of (map string_bytes words.now)) (S.state shelf.old) (W.state out.old) (W.state out.new) result }

    // A count says Yes where the tables are accepted, there is a number of rows for each and their
    // columns aren't too large, and puts the counted draws of a proof for them and its length.
    ensures counted { SaysCounted (command_of (map string_bytes words.now)) (S.state shelf.old) (W.state out.old) (W.state out.new) result }

    // Where the files are told, each status but those of the outside is the one that is due, with
    // its line, and none but those comes where another is due.
    ensures due { IsTrue (S.state shelf.old).told → is_outside result ≡ false → PutsDue (command_of (map string_bytes words.now)) (S.state shelf.old) (W.state out.old) (W.state out.new) result }
    ensures only { IsTrue (S.state shelf.old).told → is_outside result ≡ false → OnlyDue (command_of (map string_bytes words.now)) (S.state shelf.old) result }

    // A check whose files are accepted says whether the witness satisfies the tables. Where no
    // count of faults rises, nothing but want of memory stands against it.
    ensures whether { SaysWhether (command_of (map string_bytes words.now)) (S.state shelf.old) result }
    ensures undisturbed { IsUndisturbed (S.state shelf.old) (S.state shelf.new) (W.state out.old) (W.state out.new) result }

    // Words that name no file, and words that fit no command, need neither memory nor a shelf that
    // tells its files. The status of words comes to these, and to a count.
    ensures words { AnswersWords (command_of (map string_bytes words.now)) (W.state out.old) (W.state out.new) result }
    ensures fits { result ≡ Status.Words → IsNoneOrCount (command_of (map string_bytes words.now)) }

    // A fault of the outside comes only where its count rose, and that of a file only where all
    // that is read before it is accepted.
    ensures read_fault { result ≡ Status.ReadFault → ReadsFailed (command_of (map string_bytes words.now)) (S.state shelf.old) (S.state shelf.new) × Puts (W.state out.old) (W.state out.new) read_fault_line }
    ensures write_fault { result ≡ Status.WriteFault → Rose (W.state out.old).faults (W.state out.new).faults × PutsPart (command_of (map string_bytes words.now)) (S.state shelf.old) (S.state shelf.new) (W.state out.old) (W.state out.new) }
    ensures no_memory { result ≡ Status.NoMemory → Puts (W.state out.old) (W.state out.new) no_memory_line }

    // A count that rose shows in the status.
    ensures quiet_shelf { result ≢ Status.ReadFault → result ≢ Status.WriteFault → SameReadFaults (S.state shelf.old) (S.state shelf.new) }
    ensures quiet_sink { result ≢ Status.WriteFault → (W.state out.new).faults ≡ (W.state out.old).faults }

    // No file is changed and no fault of a write is counted, whatever the status.
    ensures reads_only { ReadsOnly (S.state shelf.old) (S.state shelf.new) }
    ensures telling { (W.state out.new).told ≡ (W.state out.old).told }
{
    let answer = answer_to(alloc, words, shelf);
    match put_whole(out, answer.text.as_bytes()) {
        Ok(()) => answer.status,
        Err(WriteFault) => Status::WriteFault,
    }
}
