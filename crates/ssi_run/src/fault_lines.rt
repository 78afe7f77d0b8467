//! The lines of faults.

ghost use Rattle.std.specs.Prelude.{◌≡◌, ◌++◌, codes, decimal, drop, take};
ghost use Rattle.ssi_base.specs.Streams.{Writes};
ghost use Rattle.ssi_names.specs.Texts.{characters};
ghost use Rattle.ssi_run.specs.FaultLines.{depth_line, fault_at, faulty_token, lexical_line, name_fault_line, name_fault_lines, script_fault_line, syntax_line};

use ssi_base::{Failed, Place, Sink, decimal, write_all, write_three, write_two};
use ssi_lexer::LexFault;
use ssi_names::{Fault, characters as characters_of};
use ssi_script::ScriptFault;

/// The code of tokens that are no step.
const MISSPELLED: u8 = 1;

/// Writes a text and a number behind it.
fn write_number<K: Sink>(sink: &mut K, text: &[u8], number: u32) -> Result<(), Failed>
    ensures { Writes (K.written sink.old) (K.written sink.new) (K.faults sink.old) (K.faults sink.new)
        (text.now ++ decimal number) result }
{
    write_two(sink, text, decimal(u64::from(number)).as_slice())
}

/// Writes `fault` and where it stands.
#[tactic(auto, using(ssi_base::proofs::Writing::joins))]
fn write_fault_at<K: Sink>(sink: &mut K, place: Place) -> Result<(), Failed>
    ensures { Writes (K.written sink.old) (K.written sink.new) (K.faults sink.old) (K.faults sink.new)
        (fault_at place) result }
{
    write_number(sink, b"fault ", place.line)?;
    write_number(sink, b":", place.column)
}

/// Writes the sort of a fault and its code.
fn write_code<K: Sink>(sink: &mut K, sort: &[u8], code: u8) -> Result<(), Failed>
    ensures { Writes (K.written sink.old) (K.written sink.new) (K.faults sink.old) (K.faults sink.new)
        (sort.now ++ decimal code) result }
{
    write_two(sink, sort, decimal(u64::from(code)).as_slice())
}

/// Writes the line of a lexical fault.
#[tactic(auto, using(ssi_base::proofs::Writing::joins))]
pub fn write_lexical_fault<K: Sink>(sink: &mut K, fault: LexFault) -> Result<(), Failed>
    ensures { Writes (K.written sink.old) (K.written sink.new) (K.faults sink.old) (K.faults sink.new)
        (lexical_line fault) result }
{
    write_fault_at(sink, fault.place)?;
    write_code(sink, b" L", fault.code)?;
    write_all(sink, b"\n")
}

/// Writes the line of a syntax fault.
#[tactic(auto, using(ssi_base::proofs::Writing::joins))]
pub fn write_syntax_fault<K: Sink>(sink: &mut K, place: Place) -> Result<(), Failed>
    ensures { Writes (K.written sink.old) (K.written sink.new) (K.faults sink.old) (K.faults sink.new)
        (syntax_line place) result }
{
    write_fault_at(sink, place)?;
    write_all(sink, b" S1\n")
}

/// Writes the line of a level too deep.
#[tactic(auto, using(ssi_base::proofs::Writing::joins))]
pub fn write_depth_fault<K: Sink>(sink: &mut K, place: Place) -> Result<(), Failed>
    ensures { Writes (K.written sink.old) (K.written sink.new) (K.faults sink.old) (K.faults sink.new)
        (depth_line place) result }
{
    write_fault_at(sink, place)?;
    write_all(sink, b" S2\n")
}

/// Writes the line of a name's fault.
#[tactic(auto, using(ssi_base::proofs::Writing::joins))]
fn write_name_fault<K: Sink>(sink: &mut K, text: &[u8], fault: &Fault) -> Result<(), Failed>
    ensures { Writes (K.written sink.old) (K.written sink.new) (K.faults sink.old) (K.faults sink.new)
        (name_fault_line text.now fault.now) result }
{
    write_fault_at(sink, fault.spot.place)?;
    write_code(sink, b" N", fault.code)?;
    write_three(sink, b" ", characters_of(text, &fault.spot), b"\n")
}

/// Writes the lines of the faults of names, one after another.
pub fn write_name_faults<K: Sink>(sink: &mut K, text: &[u8], faults: &[Fault]) -> Result<(), Failed>
    ensures { Writes (K.written sink.old) (K.written sink.new) (K.faults sink.old) (K.faults sink.new)
        (name_fault_lines text.now faults.now) result }
{
    for fault in faults {
        write_name_fault(sink, text, fault)?;
    }
    Ok(())
}

/// The characters of the token that has the fault of a step.
fn token_of<'a>(text: &'a [u8], fault: &ScriptFault) -> &'a [u8]
    ensures { result.now ≡ take fault.now.token_len (drop fault.now.token_start text.now) }
{
    let start = (fault.token_start as usize).min(text.len());
    let rest = &text[start..];
    let length = (fault.token_len as usize).min(rest.len());
    &rest[..length]
}

/// Writes what has the fault of a step, and ends the line.
fn write_faulty_token<K: Sink>(sink: &mut K, text: &[u8], fault: ScriptFault) -> Result<(), Failed>
    ensures { Writes (K.written sink.old) (K.written sink.new) (K.faults sink.old) (K.faults sink.new)
        (faulty_token text.now fault ++ codes "\n") result }
{
    if fault.code == MISSPELLED {
        write_all(sink, b"\n")
    } else {
        write_three(sink, b" ", token_of(text, &fault), b"\n")
    }
}

/// Writes the line of the fault of a step.
#[tactic(auto, using(ssi_base::proofs::Writing::joins))]
pub fn write_script_fault<K: Sink>(
    sink: &mut K,
    text: &[u8],
    fault: ScriptFault,
) -> Result<(), Failed>
    ensures { Writes (K.written sink.old) (K.written sink.new) (K.faults sink.old) (K.faults sink.new)
        (script_fault_line text.now fault) result }
{
    write_fault_at(sink, fault.place)?;
    write_code(sink, b" R", fault.code)?;
    write_faulty_token(sink, text, fault)
}
