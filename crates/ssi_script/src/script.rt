//! Reads a script: its steps, up to its end or to the first that has a fault.

ghost use Rattle.std.specs.Prelude.{◌≡◌, ◌≤◌, ℕ, All, List, Option, IfOk};
ghost use Rattle.ssi_identities.specs.declared.fact.Kind.{Kind as Kinds};
ghost use Rattle.ssi_identities.specs.DataSets.{Plan, names_in};
ghost use Rattle.ssi_identities.specs.NameLists.{names_of};
ghost use Rattle.ssi_identities.specs.Wells.{IsWell};
ghost use Rattle.ssi_lexer.specs.declared.token.TextEnd.{TextEnd as End};
ghost use Rattle.ssi_lexer.specs.Lexemes.{Lexeme};
ghost use Rattle.ssi_lexer.specs.Readings.{GoesOn};
ghost use Rattle.ssi_script.specs.declared.step.ScriptFault.{ScriptFault as Fault};
ghost use Rattle.ssi_script.specs.declared.step.ScriptStep.{ScriptStep as Step};
ghost use Rattle.ssi_script.specs.Meanings.{IsStepOf, cycles_in, misspelled_at, most_cycles};
ghost use Rattle.ssi_script.specs.Scripts.{AreSteps, IsScript};
ghost use Rattle.ssi_script.specs.StepReading.{IsNext, is_at_end as ends, stop_place};

use crate::meaning::{cycles_of, step_of};
use crate::reading::{a_step, header};
use crate::step::{MISSPELLED, ScriptFault, ScriptStep};
use ssi_base::{OutOfMemory, Place};
use ssi_identities::Names;
use ssi_image::Image;
use ssi_lexer::{TextEnd, Tokens};
use std::alloc::Global;

/// The steps of a script.
#[derive(Drop)]
pub struct ScriptList {
    /// The steps up to the end of the script, or to the first that has a fault.
    pub steps: Vec<ScriptStep>,
    /// The fault of the step behind them; none where the script ends.
    pub fault: Option<ScriptFault>,
}

/// The place where the tokens go on.
fn place_of(tokens: &Tokens<'_>) -> Place
    ensures { result ≡ stop_place tokens.now.left tokens.now.end }
{
    match tokens.place() {
        Ok(place) => place,
        Err(fault) => fault.place,
    }
}

/// Whether nothing comes next but the end of the text.
fn is_at_end(tokens: &Tokens<'_>) -> bool
    ensures { result ≡ ends tokens.now.left tokens.now.end }
{
    matches!(tokens.end(), Some(TextEnd::Finished(_)))
}

/// A fault of spelling, at the place where the tokens go on.
fn misspelled(tokens: &Tokens<'_>) -> ScriptFault
    ensures { result ≡ misspelled_at (stop_place tokens.now.left tokens.now.end) }
{
    ScriptFault {
        code: MISSPELLED,
        token_start: 0,
        token_len: 0,
        place: place_of(tokens),
    }
}

/// Reads a step, and gives it its meaning behind steps that made so many minor cycles.
fn next_step(
    tokens: &mut Tokens<'_>,
    names: &Names,
    image: &Image,
    made: u32,
) -> Result<ScriptStep, ScriptFault>
    requires names { (kind : Kinds) → names_of names.now kind ≡ names_in image.now kind }
    requires well { IsWell image.now }
    requires within { made ≤ most_cycles }
    ensures next { IsNext image.now made tokens.old tokens.new result }
    ensures goes_on { GoesOn tokens.old tokens.new }
{
    match a_step(tokens) {
        Ok(tree) => step_of(tokens.text(), names, image, made, tree),
        Err(_) => Err(misspelled(tokens)),
    }
}

/// Reads the steps behind the header.
fn steps(
    alloc: Global,
    tokens: &mut Tokens<'_>,
    names: &Names,
    image: &Image,
) -> Result<ScriptList, OutOfMemory>
    requires names { (kind : Kinds) → names_of names.now kind ≡ names_in image.now kind }
    requires well { IsWell image.now }
    ensures { IfOk result (λ script. AreSteps image.now tokens.old.text 0 tokens.old.left tokens.old.end script.steps.items script.fault) }
{
    let mut steps = Vec::new(alloc);
    let mut made = 0;
    'steps: while !is_at_end(tokens) {
        let step = match next_step(tokens, names, image, made) {
            Ok(step) => step,
            Err(fault) => {
                return Ok(ScriptList {
                    steps,
                    fault: Some(fault),
                });
            }
        };
        made += cycles_of(step);
        steps.push(step)?;
    }
    Ok(ScriptList { steps, fault: None })
}

/// Reads `file RUN` and the steps of a script, up to the end of the text or to the first step that has a fault. The names are those of the image.
pub fn read_script(
    alloc: Global,
    tokens: Tokens<'_>,
    names: &Names,
    image: &Image,
) -> Result<ScriptList, OutOfMemory>
    requires names { (kind : Kinds) → names_of names.now kind ≡ names_in image.now kind }
    ensures script { IfOk result (λ script. IsScript image.now tokens.entry.text tokens.entry.left tokens.entry.end script.steps.items script.fault) }

    // Each step can be done on the layout, and they make no more minor cycles than a script may.
    ensures can { IfOk result (λ script. All (IsStepOf image.now) script.steps.items) }
    ensures within { IfOk result (λ script. cycles_in script.steps.items ≤ most_cycles) }
{
    // Its clause tells that the layout is well.
    let _counts = image.counts();
    let mut tokens = tokens;
    match header(&mut tokens) {
        Ok(()) => steps(alloc, &mut tokens, names, image),
        Err(_) => Ok(ScriptList {
            steps: Vec::new(alloc),
            fault: Some(misspelled(&tokens)),
        }),
    }
}

/// Any tokens and their end have one list of steps and one fault or none, in any layout; in a well one the steps can be done.
pub fn one_script()
    ensures some { (plan : Plan) (text : List ℕ) (left : List Lexeme) (end : End)
        → (steps : List Step) × (fault : Option Fault) × IsScript plan text left end steps fault }
    ensures one { (plan : Plan) (text : List ℕ) (left : List Lexeme) (end : End) (a b : List Step) (e f : Option Fault)
        → IsScript plan text left end a e → IsScript plan text left end b f → (a ≡ b) × (e ≡ f) }
    ensures can { (plan : Plan) (text : List ℕ) (left : List Lexeme) (end : End) (steps : List Step) (fault : Option Fault)
        → IsWell plan → IsScript plan text left end steps fault → All (IsStepOf plan) steps }
{}
