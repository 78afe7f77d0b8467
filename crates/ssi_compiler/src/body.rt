//! The code of bodies.

ghost use Rattle.std.specs.Prelude.{◌≡◌, ◌++◌, option_map, OnOk};
ghost use Rattle.ssi_identities.specs.Allowed.{body_of_commands};
ghost use Rattle.ssi_identities.specs.Codes.{IsShort, code_of_body, code_of_command, code_of_part, else_code, with_length};

use crate::condition::write_cond_with_length;
use crate::length::{fill_length, leave_length};
use ssi_base::OutOfMemory;
use ssi_identities::{Body, BodyItem, BodyOp, Cmd};

/// Appends the code of a body.
#[cycle(body)]
pub fn write_body(code: &mut Vec<u8>, body: &Body) -> Result<(), OutOfMemory>
    requires short { IsShort (code_of_body body.now) }
    ensures { OnOk result (code.new.items ≡ code.old.items ++ code_of_body body.now) }
{
    for item in body.items.as_slice() {
        write_item(code, item)?;
    }
    Ok(())
}

#[cycle(body)]
fn write_item(code: &mut Vec<u8>, item: &BodyItem) -> Result<(), OutOfMemory>
    requires short { IsShort (code_of_part item.now) }
    ensures { OnOk result (code.new.items ≡ code.old.items ++ code_of_part item.now) }
{
    match item {
        BodyItem::Do(command) => write_command(code, command)?,
        BodyItem::If {
            guard,
            then_body,
            else_body,
        } => {
            code.push(BodyOp::If.byte())?;
            let place = leave_length(code)?;
            write_cond_with_length(code, guard)?;
            write_branch(code, then_body)?;
            write_else(code, else_body)?;
            fill_length(code, place);
        }
    }
    Ok(())
}

/// Appends the code of a branch with its length.
#[cycle(body)]
fn write_branch(code: &mut Vec<u8>, body: &Body) -> Result<(), OutOfMemory>
    requires short { IsShort (code_of_body body.now) }
    ensures { OnOk result (code.new.items ≡ code.old.items ++ with_length (code_of_body body.now)) }
{
    let place = leave_length(code)?;
    write_body(code, body)?;
    fill_length(code, place);
    Ok(())
}

/// Appends the code of an else-branch with its length, if there is one.
#[cycle(body)]
fn write_else(code: &mut Vec<u8>, body: &Option<Body>) -> Result<(), OutOfMemory>
    requires short { IsShort (else_code (option_map code_of_body body.now)) }
    ensures { OnOk result (code.new.items
        ≡ code.old.items ++ else_code (option_map code_of_body body.now)) }
{
    match body {
        Some(body) => write_branch(code, body),
        None => Ok(()),
    }
}

/// Appends the code of some commands: that of the body that they are.
pub fn write_commands(code: &mut Vec<u8>, commands: &[Cmd]) -> Result<(), OutOfMemory>
    ensures { OnOk result (code.new.items
        ≡ code.old.items ++ code_of_body (body_of_commands commands.now)) }
{
    for command in commands {
        write_command(code, command)?;
    }
    Ok(())
}

fn write_command(code: &mut Vec<u8>, command: &Cmd) -> Result<(), OutOfMemory>
    ensures { OnOk result (code.new.items ≡ code.old.items ++ code_of_command command.now) }
{
    let [high, low] = command.fact.to_be_bytes();
    code.extend_from_slice(&[BodyOp::Set(command.value).byte(), high, low])?;
    Ok(())
}
