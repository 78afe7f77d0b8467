//! The top call: what the program does with its words, its input and its output.

ghost use Rattle.std.specs.Prelude.{◌≡◌, ◌≢◌, ◌⊎◌, ℕ, Err, None, Option, Some, length, map};
ghost use Rattle.std.specs.Io.KnownBytes.{IsAtEnd};
ghost use Rattle.ssi_base.specs.Faults.{GoesOn};
ghost use Rattle.ssi_base.specs.Streams.{GivesPast};
ghost use Rattle.ssi_trackside.specs.Shelf.{IsShelf};
ghost use Rattle.ssi_run.specs.declared.words.Command.{Command as Asked};
ghost use Rattle.ssi_run.specs.declared.status.Status.TheVariants.{Done, Faulty, NoShape, BadScript, PastLimit};
ghost use Rattle.ssi_run.specs.declared.status.Failure.TheVariants as failure;
ghost use Rattle.ssi_run.specs.Statuses.{failure_number, input_limit, number_after, number_of};
ghost use Rattle.ssi_run.specs.Words.{command_of, texts};
ghost use Rattle.ssi_run.specs.Answers.{HasAnswer, HasOneAnswer, HasOneStatus, Reads};
ghost use Rattle.ssi_run.specs.Endings.{Ends, LeftModules, ReadWithin, Seen, SinkFailed, SourceFailed, WroteNothing};
ghost use Rattle.ssi_run.specs.DataSetOf.{DrivesItsOwn};
ghost use Rattle.ssi_run.specs.EndingLaws.{GivesAnswer, GivesPart, IsAnswered};

use crate::input::run_input;
use crate::status::{Failure, Status, end_number, told};
use crate::words::{Command, read_words};
use ssi_base::{ReadAll, Sink, Source, read_all, write_all};
use ssi_lexer::{TEXT_LIMIT, one_cutting};
use ssi_names::{laws_of_resolving, one_source_tree};
use ssi_script::{one_script, others_stay};
use ssi_trackside::Trackside;
use std::alloc::Global;

/// What is written where the words have no known shape.
const USAGE: &[u8] = b"usage: ssi check | compile | run [--last n] | exec | yard n\n";

/// What is written where the input has more bytes than the limit.
const TOO_LARGE: &[u8] = b"fault input more than 2097152 bytes\n";

/// Reads the input, and answers it with what `run` answers.
fn run<S: Source, K: Sink>(
    alloc: Global,
    source: &mut S,
    sink: &mut K,
    shelf: &mut Vec<Box<dyn Trackside>>,
) -> Result<Status, Failure>
    requires full { length (map state shelf.old.items) ≡ 189 }
    ensures ended { Ends (Some Command.Run) (record {
      source = record { left_before = S.left source.old; left_after = S.left source.new; faults_before = S.faults source.old; faults_after = S.faults source.new };
      sink = record { written_before = K.written sink.old; written_after = K.written sink.new; faults_before = K.faults sink.old; faults_after = K.faults sink.new };
      shelf_before = map state shelf.old.items;
      shelf_after = map state shelf.new.items;
    }) (number_after result) }
    ensures nothing { (result ≡ Err Failure.Source) ⊎ (result ≡ Err Failure.Memory) → sink.new ≡ sink.old }
    ensures source_goes_on { GoesOn (S.faults source.old) (S.faults source.new) }
    ensures sink_goes_on { GoesOn (K.faults sink.old) (K.faults sink.new) }
{
    match read_all(alloc, source, TEXT_LIMIT) {
        Ok(input) => run_input(alloc, input.as_slice(), sink, shelf),
        Err(ReadAll::TooLarge) => told(write_all(sink, TOO_LARGE), Status::PastLimit),
        Err(ReadAll::Fault) => Err(Failure::Source),
        Err(ReadAll::Memory) => Err(Failure::Memory),
    }
}

/// Does what the words ask for, and answers the status to end with.
///
/// The words are those after the program's name. The input is read from the source, and the output is
/// written to the sink. The shelf has the modules, full and fresh, and the script drives them.
pub fn ssi_program<S: Source, K: Sink>(
    alloc: Global,
    words: &[String],
    source: &mut S,
    sink: &mut K,
    shelf: &mut Vec<Box<dyn Trackside>>,
) -> u8
    requires shelf { IsShelf (map state shelf.old.items) }

    // What was read, written and left of the modules is what this way to end tells.
    ensures ended { Ends (command_of (texts words.now)) (record {
      source = record { left_before = S.left source.old; left_after = S.left source.new; faults_before = S.faults source.old; faults_after = S.faults source.new };
      sink = record { written_before = K.written sink.old; written_after = K.written sink.new; faults_before = K.faults sink.old; faults_after = K.faults sink.new };
      shelf_before = map state shelf.old.items;
      shelf_after = map state shelf.new.items;
    }) result }

    // Where the words ask for nothing that reads, the source isn't touched; and where reading failed or memory ran out, the sink isn't.
    ensures unread { ¬ Reads (command_of (texts words.now)) → source.new ≡ source.old }
    ensures nothing { (result ≡ failure_number Failure.Source) ⊎ (result ≡ failure_number Failure.Memory) → sink.new ≡ sink.old }
    ensures source_goes_on { GoesOn (S.faults source.old) (S.faults source.new) }
    ensures sink_goes_on { GoesOn (K.faults sink.old) (K.faults sink.new) }
{
    match read_words(words) {
        None => end_number(told(write_all(sink, USAGE), Status::NoShape)),
        Some(Command::Run) => end_number(run(alloc, source, sink, shelf)),
    }
}

/// All words and every input have an answer with any modules: one status, and one output where the command fixes it.
pub fn one_answer()
    ensures some { HasAnswer }
    ensures status { HasOneStatus }
    ensures one { HasOneAnswer }
{
    one_cutting();
    one_source_tree();
    one_script();
}

/// What each way to end says, number by number.
pub fn laws_of_endings()
    // Where nothing outside failed and memory sufficed, the answer to the words and the input was given.
    ensures answer { (command : Option Asked) (seen : Seen) (number : ℕ) → Ends command seen number → IsAnswered number → GivesAnswer command seen number }

    // Words without a shape have the usage line alone.
    ensures no_shape { (command : Option Asked) (seen : Seen) → Ends command seen (number_of NoShape) → command ≡ None }
    ensures shapeless { (seen : Seen) (number : ℕ) → Ends None seen number → (number ≡ number_of NoShape) ⊎ (number ≡ failure_number failure.Sink) }

    // What was answered to was read to its end, or has a byte past the limit.
    ensures to_end { (command : Option Asked) (seen : Seen) (number : ℕ) → Ends command seen number
        → (number ≡ number_of Done) ⊎ (number ≡ number_of Faulty) ⊎ (number ≡ number_of BadScript) → IsAtEnd seen.source.left_after }
    ensures past_limit { (command : Option Asked) (seen : Seen) → Ends command seen (number_of PastLimit)
        → GivesPast seen.source.left_before seen.source.left_after input_limit }
    ensures within { (command : Option Asked) (seen : Seen) (number : ℕ) → Ends command seen number
        → number ≢ number_of PastLimit → number ≢ failure_number failure.Sink → ReadWithin seen }

    // A failure is told only where the count of failures rose.
    ensures source_fault { (command : Option Asked) (seen : Seen) → Ends command seen (failure_number failure.Source) → SourceFailed seen }
    ensures sink_fault { (command : Option Asked) (seen : Seen) → Ends command seen (failure_number failure.Sink) → SinkFailed seen }

    // Where writing failed, a part of the answer was written; where reading failed or memory ran out, nothing.
    ensures part { (command : Option Asked) (seen : Seen) → Ends command seen (failure_number failure.Sink) → GivesPart command seen }
    ensures nothing { (command : Option Asked) (seen : Seen) (number : ℕ) → Ends command seen number
        → (number ≡ failure_number failure.Source) ⊎ (number ≡ failure_number failure.Memory) → WroteNothing seen }

    // Where no step was done, the modules are as they were.
    ensures untouched { (command : Option Asked) (seen : Seen) (number : ℕ) → Ends command seen number
        → number ≢ number_of Done → number ≢ number_of BadScript → number ≢ failure_number failure.Sink → LeftModules seen }

    // Members of the shelf that no module of the layout has are as they were, whatever the status.
    ensures others { (command : Option Asked) (seen : Seen) (number : ℕ) → Ends command seen number → DrivesItsOwn seen }

    // Where no count rose, the answer is given, or memory ran out.
    ensures complete { (command : Option Asked) (seen : Seen) (number : ℕ) → Ends command seen number → ¬ SourceFailed seen → ¬ SinkFailed seen
        → (number ≡ failure_number failure.Memory) ⊎ IsAnswered number }
{
    laws_of_resolving();
    one_script();
    others_stay();
}
