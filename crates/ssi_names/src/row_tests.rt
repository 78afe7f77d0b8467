use crate::tests::answer_to;
use ssi_identities::{Body, BodyItem, Cmd, Cond, CondItem, DataSet};
use std::alloc::Global;
use std::test::Fail;

/// The names and numbers of a data set, a list a line.
fn show_plan(alloc: Global, plan: &DataSet) -> Result<String, Fail> {
    let mut shown = String::new(alloc);
    for row in plan.points.as_slice() {
        put_row(alloc, &mut shown, row.name.bytes(), row.tracks.as_slice())?;
    }
    shown.push_str("|")?;
    for name in plan.signals.as_slice() {
        put_row(alloc, &mut shown, name.bytes(), &[])?;
    }
    shown.push_str("|")?;
    for name in plan.tracks.as_slice() {
        put_row(alloc, &mut shown, name.bytes(), &[])?;
    }
    shown.push_str("|")?;
    for row in plan.routes.as_slice() {
        put_row(alloc, &mut shown, row.name.bytes(), &[row.signal])?;
        put_row(alloc, &mut shown, b"by", row.subs.as_slice())?;
    }
    shown.push_str("|")?;
    for row in plan.subs.as_slice() {
        put_row(alloc, &mut shown, row.name.bytes(), &[row.track])?;
        for (points, reverse) in row.lies.as_slice() {
            let lie = if *reverse { b"cr" } else { b"cn" };
            put_row(alloc, &mut shown, lie, &[*points])?;
        }
    }
    shown.push_str("|")?;
    for name in plan.flags.as_slice() {
        put_row(alloc, &mut shown, name.bytes(), &[])?;
    }
    Ok(shown)
}

/// A name and numbers.
fn put_row(alloc: Global, shown: &mut String, name: &[u8], numbers: &[u16]) -> Result<(), Fail> {
    shown.push_str(" ")?;
    for letter in name {
        shown.push(char::from(*letter))?;
    }
    for number in numbers {
        shown.push_str(format!(in alloc; ":{number}")?.as_str())?;
    }
    Ok(())
}

/// The requests of a data set, each with its body.
fn show_requests(alloc: Global, plan: &DataSet) -> Result<String, Fail> {
    let mut shown = String::new(alloc);
    for row in plan.requests.as_slice() {
        put_row(alloc, &mut shown, row.name.bytes(), &[])?;
        for item in row.body.items.as_slice() {
            put_item(alloc, &mut shown, item)?;
        }
    }
    Ok(shown)
}

/// A command, or a choice between commands.
fn put_item(alloc: Global, shown: &mut String, item: &BodyItem) -> Result<(), Fail> {
    match item {
        BodyItem::Do(command) => put_command(alloc, shown, command),
        BodyItem::If {
            guard,
            then_body,
            else_body,
        } => {
            shown.push_str(" if")?;
            put_cond(alloc, shown, guard)?;
            shown.push_str(" then")?;
            put_commands(alloc, shown, then_body)?;
            if let Some(body) = else_body {
                shown.push_str(" else")?;
                put_commands(alloc, shown, body)?;
            }
            shown.push_str(" end")?;
            Ok(())
        }
    }
}

fn put_cond(alloc: Global, shown: &mut String, cond: &Cond) -> Result<(), Fail> {
    for item in cond.items.as_slice() {
        match item {
            CondItem::Lit { fact, wanted } => put_fact(alloc, shown, *fact, *wanted)?,
            CondItem::Bit { bit, wanted } => {
                shown.push_str(" bit")?;
                put_fact(alloc, shown, u16::from(*bit), *wanted)?;
            }
            CondItem::Free { points, reverse } => {
                shown.push_str(" free")?;
                put_fact(alloc, shown, *points, *reverse)?;
            }
            CondItem::Any(_) => shown.push_str(" ?")?,
        }
    }
    Ok(())
}

/// A condition in brackets, or a dash where there is none.
fn put_some(alloc: Global, shown: &mut String, cond: &Option<Cond>) -> Result<(), Fail> {
    match cond {
        Some(cond) => {
            shown.push_str(" [")?;
            put_cond(alloc, shown, cond)?;
            shown.push_str(" ]")?;
        }
        None => shown.push_str(" -")?,
    }
    Ok(())
}

fn put_commands(alloc: Global, shown: &mut String, body: &Body) -> Result<(), Fail> {
    for item in body.items.as_slice() {
        if let BodyItem::Do(command) = item {
            put_command(alloc, shown, command)?;
        }
    }
    Ok(())
}

fn put_command(alloc: Global, shown: &mut String, command: &Cmd) -> Result<(), Fail> {
    put_fact(alloc, shown, command.fact, command.value)
}

/// A fact and its value.
fn put_fact(alloc: Global, shown: &mut String, fact: u16, value: bool) -> Result<(), Fail> {
    let digit = if value { 1 } else { 0 };
    shown.push_str(format!(in alloc; " {fact}={digit}")?.as_str())?;
    Ok(())
}

/// The modules of a data set, each with its address, its kind and its pins.
fn show_modules(alloc: Global, plan: &DataSet) -> Result<String, Fail> {
    let mut shown = String::new(alloc);
    for row in plan.modules.as_slice() {
        shown.push_str(format!(in alloc; " {}:{}", row.address, row.kind)?.as_str())?;
        for pin in row.pins.as_slice() {
            put_pin(alloc, &mut shown, *pin)?;
        }
        shown.push_str(",")?;
    }
    Ok(shown)
}

fn put_pin(alloc: Global, shown: &mut String, pin: Option<u16>) -> Result<(), Fail> {
    match pin {
        Some(identity) => shown.push_str(format!(in alloc; " {identity}")?.as_str())?,
        None => shown.push_str(" -")?,
    }
    Ok(())
}

/// When the points of a data set are free to go normal and reverse.
fn show_moves(alloc: Global, plan: &DataSet) -> Result<String, Fail> {
    let mut shown = String::new(alloc);
    for row in plan.points.as_slice() {
        put_row(alloc, &mut shown, row.name.bytes(), &[])?;
        put_some(alloc, &mut shown, &row.free_normal)?;
        put_some(alloc, &mut shown, &row.free_reverse)?;
    }
    Ok(shown)
}

/// The statements of a data set, each with its commands and its guard.
fn show_statements(alloc: Global, plan: &DataSet) -> Result<String, Fail> {
    let mut shown = String::new(alloc);
    for row in plan.statements.as_slice() {
        for command in row.commands.as_slice() {
            put_command(alloc, &mut shown, command)?;
        }
        shown.push_str(" if")?;
        put_cond(alloc, &mut shown, &row.guard)?;
        shown.push_str(",")?;
    }
    Ok(shown)
}

/// The bits that go out to the modules of a data set.
fn show_outputs(alloc: Global, plan: &DataSet) -> Result<String, Fail> {
    let mut shown = String::new(alloc);
    for row in plan.modules.as_slice() {
        shown.push_str(format!(in alloc; " {}:", row.address)?.as_str())?;
        for output in row.outputs.as_slice() {
            put_some(alloc, &mut shown, output)?;
        }
    }
    Ok(shown)
}

/// What the reports of the modules of a data set do.
fn show_inputs(alloc: Global, plan: &DataSet) -> Result<String, Fail> {
    let mut shown = String::new(alloc);
    for row in plan.modules.as_slice() {
        shown.push_str(format!(in alloc; " {}:", row.address)?.as_str())?;
        match &row.input {
            Some(body) => {
                for item in body.items.as_slice() {
                    put_item(alloc, &mut shown, item)?;
                }
            }
            None => shown.push_str(" -")?,
        }
    }
    Ok(shown)
}

#[test]
fn names_become_numbers(rt: HostRuntime) -> Result<(), Fail> {
    let alloc = rt.alloc();
    let text = "file PTS P1 over T2 . P2 over T3, T1 . file SIG S1 . S2 . file TCS T1 . T2 . T3 .\
        file RTE R1 from S1 by U1, U2 . R2 from S2 by U3, U4 .\
        file SUB U1 on T2 with P1 cr . U2 on T3 . U3 on T3 with P2 cn, P1 cr . U4 on T2 with P1 cr .\
        file FLG LAMP-OF-THE-YARD . L1 .\
        file TFM 1 points P1 at 0, P2 at 1 . 2 signal S1 at 0, S2 at 1 . 3 track T1 at 0, T2 at 1, T3 at 2 .\
        file PRR Q1 if P2 cr, T3 c, R2 a then U4 l, L1 s else R1 xs end, P1 cn .\
        Q2 LAMP-OF-THE-YARD xs . file PFM file FOP file OPT file IPT";
    let Ok(plan) = answer_to(&rt, alloc, text.as_bytes())? else {
        return Err("faults")?;
    };
    let want = " P1:1 P2:2:0| S1 S2| T1 T2 T3| R1:0 by:0:1 R2:1 by:2:3\
        | U1:1 cr:0 U2:2 U3:2 cn:1 cr:0 U4:1 cr:0| LAMP-OF-THE-YARD L1";
    assert_eq!(rt; show_plan(alloc, &plan)?.as_str(), want);
    assert_eq!(rt;
        show_requests(alloc, &plan)?.as_str(),
        " Q1 if 3=1 10=0 14=0 then 18=1 20=1 else 11=0 end 0=0 Q2 19=0"
    );
    let modules = " 1:0 0 1, 2:1 0 1 - - - - - -, 3:2 0 1 2 - - - - -,";
    assert_eq!(rt; show_modules(alloc, &plan)?.as_str(), modules);
    Ok(())
}

/// Two points, a signal, two tracks, a sub-route and two flags, in facts 0 to 11, with rules that don't stand in
/// the order of what they are for.
const RULES: &str = "\
    file PTS P1 over T1 . P2 over T2 . file SIG S1 . file TCS T1 . T2 . file RTE file SUB U1 on T1 . file FLG L1 . L2 .\
    file TFM 7 points P1 at 0, P2 at 1 . 5 signal S1 at 3 . 9 track T1 at 0, T2 at 7 .\
    file PRR Q1 if P2 crf, P1 cnf then L1 s end .\
    file PFM P2 cr if T2 c . P1 cn if T1 c, L1 s . P1 cr if U1 f .\
    file FOP L1 s, U1 f if T1 c . P2 cn if P1 cnf, P2 crf, L2 xs .\
    file OPT 9 bit 7 if L2 s . 7 bit 3 if P2 cr bit 0 if P1 cn .\
    file IPT 9 if 7 h, 0 l then T2 c else T2 o end . 5 S1 lp .";

#[test]
fn rules_stand_at_what_they_are_for(rt: HostRuntime) -> Result<(), Fail> {
    let alloc = rt.alloc();
    let Ok(plan) = answer_to(&rt, alloc, RULES.as_bytes())? else {
        return Err("faults")?;
    };
    let moves = " P1 [ 7=0 10=1 ] [ 9=0 ] P2 - [ 8=0 ]";
    assert_eq!(rt; show_moves(alloc, &plan)?.as_str(), moves);
    let requests = " Q1 if free 1=1 free 0=0 then 10=1 end";
    assert_eq!(rt; show_requests(alloc, &plan)?.as_str(), requests);
    let statements = " 10=1 9=0 if 7=0, 3=0 if free 0=0 free 1=1 11=0,";
    assert_eq!(rt; show_statements(alloc, &plan)?.as_str(), statements);
    let outputs = " 7: [ 0=0 ] - - [ 3=1 ] - - - - 5: - - - - - - - - 9: - - - - - - - [ 11=1 ]";
    assert_eq!(rt; show_outputs(alloc, &plan)?.as_str(), outputs);
    let inputs = " 7: - 5: 6=1 9: if bit 7=1 bit 0=0 then 8=0 else 8=1 end";
    assert_eq!(rt; show_inputs(alloc, &plan)?.as_str(), inputs);
    Ok(())
}
