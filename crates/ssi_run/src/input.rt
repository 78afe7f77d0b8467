//! An input within the limit: its data part is read, resolved and compiled, and its script is run.

ghost use Rattle.std.specs.Prelude.{◌≡◌, ◌≢◌, ◌≤◌, All, Err, length, IfOk, map};
ghost use Rattle.ssi_cycle.specs.Cores.{core_of};
ghost use Rattle.ssi_identities.specs.Wells.{IsWell};
ghost use Rattle.ssi_names.specs.Spelled.{IsSpelledIn};
ghost use Rattle.ssi_script.specs.Meanings.{IsStepOf, cycles_in, most_cycles};
ghost use Rattle.ssi_script.specs.Scripts.{IsScript};
ghost use Rattle.ssi_script.specs.Sessions.{session_of};
ghost use Rattle.ssi_run.specs.Answers.{Named, RunsText, Script, script_answer};
ghost use Rattle.ssi_run.specs.Outcomes.{Replies};
ghost use Rattle.ssi_run.specs.Statuses.{input_limit};

use crate::fault_lines::{
    write_depth_fault, write_lexical_fault, write_name_faults, write_script_fault,
    write_syntax_fault,
};
use crate::session::write_steps;
use crate::status::{Failure, Status, told};
use ssi_base::{OutOfMemory, Sink};
use ssi_compiler::compile;
use ssi_cycle::Interlocking;
use ssi_identities::DataSet;
use ssi_image::Image;
use ssi_lexer::Tokens;
use ssi_names::{ResolveFault, SourceTree, read_source, resolve};
use ssi_script::{ScriptList, read_script};
use ssi_terms::ReadFault;
use ssi_trackside::Trackside;
use std::alloc::Global;
use std::mem::forget;

/// Does the steps of a script, and writes their trace and the line of the fault behind them, if there is one.
fn run_steps<K: Sink>(
    input: &[u8],
    script: &ScriptList,
    core: &mut Interlocking,
    sink: &mut K,
    shelf: &mut Vec<Box<dyn Trackside>>,
) -> Result<Status, Failure>
    requires begun { core.old ≡ core_of core.old.plan }
    requires full { length (map state shelf.old.items) ≡ 189 }
    requires can { All (IsStepOf core.old.plan) script.now.steps.items }
    requires within { cycles_in script.now.steps.items ≤ most_cycles }
    ensures answered { let states = map state shelf.old.items in
        Replies (λ answer. answer ≡ script_answer input.now script.now.steps.items script.now.fault (session_of core.old.plan states))
        (K.written sink.old) (K.written sink.new) (K.faults sink.old) (K.faults sink.new) states (map state shelf.new.items) result }
    ensures memory { result ≢ Err Failure.Memory }
{
    write_steps(sink, core, shelf, script.steps.as_slice())?;
    match script.fault {
        None => Ok(Status::Done),
        Some(fault) => told(write_script_fault(sink, input, fault), Status::BadScript),
    }
}

/// The script behind the data part. The names of the layout are let go once it is read.
fn script_of(alloc: Global, image: &Image, tokens: Tokens<'_>) -> Result<ScriptList, OutOfMemory>
    ensures script { IfOk result (λ script. IsScript image.now tokens.entry.text tokens.entry.left tokens.entry.end script.steps.items script.fault) }
    ensures can { IfOk result (λ script. All (IsStepOf image.now) script.steps.items) }
    ensures within { IfOk result (λ script. cycles_in script.steps.items ≤ most_cycles) }
{
    let names = image.names(alloc)?;
    read_script(alloc, tokens, &names, image)
}

/// Answers the image of a layout and what stands behind the data part. All memory is taken before the first byte.
fn run_image<K: Sink>(
    alloc: Global,
    image: Image,
    tokens: Tokens<'_>,
    sink: &mut K,
    shelf: &mut Vec<Box<dyn Trackside>>,
) -> Result<Status, Failure>
    requires full { length (map state shelf.old.items) ≡ 189 }
    ensures answered { Replies (Script tokens.entry.text (map state shelf.old.items) image tokens.entry.left tokens.entry.end)
        (K.written sink.old) (K.written sink.new) (K.faults sink.old) (K.faults sink.new)
        (map state shelf.old.items) (map state shelf.new.items) result }
    ensures nothing { result ≡ Err Failure.Memory → sink.new ≡ sink.old }
{
    let input = tokens.text();
    let script = script_of(alloc, &image, tokens)?;
    let mut core = Interlocking::begin(alloc, image)?;
    run_steps(input, &script, &mut core, sink, shelf)
}

/// Answers a data set and what stands behind the data part. Its image is made before the first byte.
///
/// The data set isn't taken apart, nor was the tree that it was made of: a large one is hundred thousands of small
/// pieces, and their memory goes back with the process.
fn run_plan<K: Sink>(
    alloc: Global,
    plan: DataSet,
    tokens: Tokens<'_>,
    sink: &mut K,
    shelf: &mut Vec<Box<dyn Trackside>>,
) -> Result<Status, Failure>
    requires well { IsWell plan }
    requires full { length (map state shelf.old.items) ≡ 189 }
    ensures answered { Replies (Script tokens.entry.text (map state shelf.old.items) plan tokens.entry.left tokens.entry.end)
        (K.written sink.old) (K.written sink.new) (K.faults sink.old) (K.faults sink.new)
        (map state shelf.old.items) (map state shelf.new.items) result }
    ensures nothing { result ≡ Err Failure.Memory → sink.new ≡ sink.old }
{
    let packed = compile(alloc, &plan);
    forget(plan);
    run_image(alloc, packed?, tokens, sink, shelf)
}

/// Answers the tree of a data part and what stands behind it.
fn run_tree<K: Sink>(
    alloc: Global,
    tree: SourceTree,
    tokens: Tokens<'_>,
    sink: &mut K,
    shelf: &mut Vec<Box<dyn Trackside>>,
) -> Result<Status, Failure>
    requires short { length tokens.text ≤ input_limit }
    requires spelled { IsSpelledIn tokens.text tree }
    requires full { length (map state shelf.old.items) ≡ 189 }
    ensures answered { let input = tokens.entry.text in let states = map state shelf.old.items in
        Replies (Named input states (Script input states) tree tokens.entry.left tokens.entry.end)
        (K.written sink.old) (K.written sink.new) (K.faults sink.old) (K.faults sink.new) states (map state shelf.new.items) result }
    ensures nothing { result ≡ Err Failure.Memory → sink.new ≡ sink.old }
{
    let input = tokens.text();
    let resolved = resolve(alloc, input, &tree);
    forget(tree);
    match resolved {
        Ok(plan) => run_plan(alloc, plan, tokens, sink, shelf),
        Err(ResolveFault::Faults(faults)) => {
            let written = write_name_faults(sink, input, faults.items.as_slice());
            told(written, Status::Faulty)
        }
        Err(ResolveFault::Memory) => Err(Failure::Memory),
    }
}

/// Answers an input within the limit: the faults of its data part, or what its data set is answered.
pub fn run_input<K: Sink>(
    alloc: Global,
    input: &[u8],
    sink: &mut K,
    shelf: &mut Vec<Box<dyn Trackside>>,
) -> Result<Status, Failure>
    requires short { length input.now ≤ input_limit }
    requires full { length (map state shelf.old.items) ≡ 189 }
    ensures answered { Replies (RunsText input.now (map state shelf.old.items))
        (K.written sink.old) (K.written sink.new) (K.faults sink.old) (K.faults sink.new)
        (map state shelf.old.items) (map state shelf.new.items) result }
    ensures nothing { result ≡ Err Failure.Memory → sink.new ≡ sink.old }
{
    let mut tokens = Tokens::new(input, 0);
    match read_source(alloc, &mut tokens) {
        Ok(tree) => run_tree(alloc, tree, tokens, sink, shelf),
        Err(ReadFault::Lex(fault)) => told(write_lexical_fault(sink, fault), Status::Faulty),
        Err(ReadFault::Syntax(place)) => told(write_syntax_fault(sink, place), Status::Faulty),
        Err(ReadFault::TooDeep(place)) => told(write_depth_fault(sink, place), Status::Faulty),
        Err(ReadFault::Memory) => Err(Failure::Memory),
    }
}
