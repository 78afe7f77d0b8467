//! A well data set and single changes of it, most of which break one rule.

use super::*;
use crate::tests::{
    one_item, other_module, points_module, small_data_set, small_points, small_statement,
};
use sqlite_items::Items;
use std::alloc::Global;
use std::test::Fail;

/// A condition.
#[derive(Clone, Copy)]
enum Test {
    /// Of no item.
    Nothing,
    /// A test of a fact.
    Fact(u16),
    /// A test of a bit.
    Bit(u8),
    /// Whether points are controlled or free to normal.
    Free(u16),
    /// A group of one alternative.
    OneAlternative,
    /// So many groups in one another.
    Groups(u8),
}

/// A body.
#[derive(Clone, Copy)]
enum Act {
    /// Of no item.
    Nothing,
    /// A command of a fact.
    Command(u16),
    /// A choice with this guard that commands the first flag.
    Choice(Test),
    /// So many choices in one another.
    Choices(u8),
}

fn fact(fact: u16) -> CondItem {
    CondItem::Lit { fact, wanted: true }
}

fn condition(alloc: Global, test: Test) -> Result<Cond, Fail> {
    match test {
        Test::Nothing => Ok(Cond {
            items: Items::new(alloc),
        }),
        Test::Fact(number) => one_item(alloc, fact(number)),
        Test::Bit(bit) => one_item(alloc, CondItem::Bit { bit, wanted: true }),
        Test::Free(points) => {
            let reverse = false;
            one_item(alloc, CondItem::Free { points, reverse })
        }
        Test::OneAlternative => {
            let alternatives = vec![in alloc; one_item(alloc, fact(0))?]?;
            one_item(alloc, CondItem::Any(Items::from_vec(alternatives)))
        }
        Test::Groups(levels) => groups(alloc, levels),
    }
}

fn groups(alloc: Global, levels: u8) -> Result<Cond, Fail> {
    let mut cond = one_item(alloc, fact(0))?;
    for _level in 0..levels {
        let other = one_item(alloc, fact(1))?;
        let alternatives = Items::from_vec(vec![in alloc; other, cond]?);
        cond = one_item(alloc, CondItem::Any(alternatives))?;
    }
    Ok(cond)
}

fn body_of_one(alloc: Global, item: BodyItem) -> Result<Body, Fail> {
    Ok(Body {
        items: Items::from_vec(vec![in alloc; item]?),
    })
}

fn command(alloc: Global, fact: u16) -> Result<Body, Fail> {
    body_of_one(alloc, BodyItem::Do(Cmd { fact, value: true }))
}

fn choice(alloc: Global, test: Test, then_body: Body) -> Result<Body, Fail> {
    let item = BodyItem::If {
        guard: condition(alloc, test)?,
        then_body,
        else_body: None,
    };
    body_of_one(alloc, item)
}

fn choices(alloc: Global, levels: u8) -> Result<Body, Fail> {
    let mut body = command(alloc, 13)?;
    for _level in 0..levels {
        body = choice(alloc, Test::Fact(0), body)?;
    }
    Ok(body)
}

fn body(alloc: Global, act: Act) -> Result<Body, Fail> {
    match act {
        Act::Nothing => Ok(Body {
            items: Items::new(alloc),
        }),
        Act::Command(fact) => command(alloc, fact),
        Act::Choice(test) => choice(alloc, test, command(alloc, 13)?),
        Act::Choices(levels) => choices(alloc, levels),
    }
}

fn statement(alloc: Global, test: Test) -> Result<Vec<Stmt>, Fail> {
    let set_l1 = Cmd {
        fact: 13,
        value: true,
    };
    let row = Stmt {
        commands: vec![in alloc; set_l1]?,
        guard: condition(alloc, test)?,
    };
    Ok(vec![in alloc; row]?)
}

#[test]
fn conditions_are_well(rt: HostRuntime) -> Result<(), Fail> {
    let alloc = rt.alloc();
    let mut plan = small_data_set(alloc)?;
    assert!(rt; plan.is_well());
    let rows = [
        (Test::Fact(15), true),
        (Test::Fact(16), false),
        (Test::Free(1), true),
        (Test::Free(0), false),
        (Test::Free(2), false),
        (Test::Bit(0), false),
        (Test::Nothing, false),
        (Test::OneAlternative, false),
        (Test::Groups(8), true),
        (Test::Groups(9), false),
    ];
    for (test, want) in rows {
        plan.statements = statement(alloc, test)?;
        assert_eq!(rt; plan.is_well(), want);
    }
    Ok(())
}

#[test]
fn conditions_of_points_are_well(rt: HostRuntime) -> Result<(), Fail> {
    let alloc = rt.alloc();
    let mut plan = small_data_set(alloc)?;
    let rows = [
        (Test::Fact(15), true),
        (Test::Free(1), false),
        (Test::Bit(0), false),
    ];
    for (test, want) in rows {
        plan.points = small_points(alloc, condition(alloc, test)?)?;
        assert_eq!(rt; plan.is_well(), want);
    }
    Ok(())
}

fn request(alloc: Global, act: Act) -> Result<Vec<RequestRow>, Fail> {
    let row = RequestRow {
        name: Name::new(b"Q1"),
        body: body(alloc, act)?,
    };
    Ok(vec![in alloc; row]?)
}

#[test]
fn bodies_of_requests_are_well(rt: HostRuntime) -> Result<(), Fail> {
    let alloc = rt.alloc();
    let mut plan = small_data_set(alloc)?;
    let rows = [
        (Act::Command(0), true),
        (Act::Command(1), false),
        (Act::Command(16), false),
        (Act::Choice(Test::Fact(1)), true),
        (Act::Choice(Test::Bit(0)), false),
        (Act::Nothing, false),
        (Act::Choices(8), true),
        (Act::Choices(9), false),
    ];
    for (act, want) in rows {
        plan.requests = request(alloc, act)?;
        assert_eq!(rt; plan.is_well(), want);
    }
    Ok(())
}

fn set_input(plan: &mut DataSet, body: Body) {
    if let Some(row) = plan.modules.first_mut() {
        row.input = Some(body);
    }
}

#[test]
fn inputs_of_modules_are_well(rt: HostRuntime) -> Result<(), Fail> {
    let alloc = rt.alloc();
    let mut plan = small_data_set(alloc)?;
    let rows = [
        (Act::Command(1), true),
        (Act::Command(0), false),
        (Act::Choice(Test::Bit(7)), true),
        (Act::Choice(Test::Bit(8)), false),
    ];
    for (act, want) in rows {
        set_input(&mut plan, body(alloc, act)?);
        assert_eq!(rt; plan.is_well(), want);
    }
    Ok(())
}

#[test]
fn names_are_well(rt: HostRuntime) -> Result<(), Fail> {
    let alloc = rt.alloc();
    let mut plan = small_data_set(alloc)?;
    let rows: [(&[u8], bool); 6] = [
        (b"L4", true),
        (b"LBCDEFGHIJ-12345", true),
        (b"L1", false),
        (b"T4", false),
        (b"L", false),
        (b"La", false),
    ];
    for (text, want) in rows {
        assert!(rt; text.len() <= 16);
        plan.flags.push(Name::new(text))?;
        assert_eq!(rt; plan.is_well(), want);
        plan.flags.pop();
    }
    Ok(())
}

/// The sub-routes U1 and U2, of which the first has this track and these points.
fn subs(alloc: Global, track: u16, points: &[u16]) -> Result<Vec<SubRow>, Fail> {
    let mut lies = Vec::new(alloc);
    for number in points {
        lies.push((*number, false))?;
    }
    let first = SubRow {
        name: Name::new(b"U1"),
        track,
        lies,
    };
    let second = SubRow {
        name: Name::new(b"U2"),
        track: 1,
        lies: Vec::new(alloc),
    };
    Ok(vec![in alloc; first, second]?)
}

#[test]
fn numbers_are_of_what_there_is(rt: HostRuntime) -> Result<(), Fail> {
    let alloc = rt.alloc();
    let mut plan = small_data_set(alloc)?;
    let rows: [(u16, &[u16], bool); 5] = [
        (1, &[1, 0], true),
        (1, &[], true),
        (2, &[], false),
        (1, &[2], false),
        (1, &[0, 1, 0], false),
    ];
    for (track, points, want) in rows {
        plan.subs = subs(alloc, track, points)?;
        assert_eq!(rt; plan.is_well(), want);
    }
    let mut plan = small_data_set(alloc)?;
    if let Some(row) = plan.routes.first_mut() {
        row.signal = 1;
    }
    assert!(rt; !plan.is_well());
    Ok(())
}

/// The address of a module, and the identities at its first two pins.
type Wires = (u8, Option<u16>, Option<u16>);

/// A module of points, one of signals and one of tracks.
fn modules(
    alloc: Global,
    points: Wires,
    signals: Wires,
    tracks: Wires,
) -> Result<Vec<ModuleRow>, Fail> {
    let points = points_module(alloc, points.0, points.1, points.2)?;
    let signals = other_module(alloc, signals.0, 1, signals.1, signals.2)?;
    let tracks = other_module(alloc, tracks.0, 2, tracks.1, tracks.2)?;
    Ok(vec![in alloc; points, signals, tracks]?)
}

#[test]
fn modules_are_well(rt: HostRuntime) -> Result<(), Fail> {
    let alloc = rt.alloc();
    let mut plan = small_data_set(alloc)?;
    let (signals, tracks) = ((2, None, Some(0)), (63, Some(1), Some(0)));
    let rows: [(Wires, Wires, Wires, bool); 9] = [
        ((1, Some(0), Some(1)), signals, tracks, true),
        ((0, Some(0), Some(1)), signals, tracks, false),
        ((64, Some(0), Some(1)), signals, tracks, false),
        ((2, Some(0), Some(1)), signals, tracks, false),
        ((1, Some(0), Some(2)), signals, tracks, false),
        ((1, Some(0), Some(0)), signals, tracks, false),
        ((1, Some(0), None), signals, tracks, false),
        ((1, Some(0), Some(1)), (2, None, None), tracks, false),
        ((1, Some(0), Some(1)), (2, Some(0), Some(0)), tracks, false),
    ];
    for (points, signals, tracks, want) in rows {
        plan.modules = modules(alloc, points, signals, tracks)?;
        assert_eq!(rt; plan.is_well(), want);
    }
    Ok(())
}

#[test]
fn module_of_a_fourth_kind(rt: HostRuntime) -> Result<(), Fail> {
    let alloc = rt.alloc();
    let mut plan = small_data_set(alloc)?;
    plan.modules.push(other_module(alloc, 7, 2, None, None)?)?;
    assert!(rt; plan.is_well());
    plan.modules.pop();
    plan.modules.push(other_module(alloc, 7, 3, None, None)?)?;
    assert!(rt; !plan.is_well());
    Ok(())
}

#[test]
fn statements_are_within_their_limit(rt: HostRuntime) -> Result<(), Fail> {
    let alloc = rt.alloc();
    let mut plan = small_data_set(alloc)?;
    for _more in 1..4096 {
        plan.statements.push(small_statement(alloc)?)?;
    }
    assert!(rt; plan.is_well());
    plan.statements.push(small_statement(alloc)?)?;
    assert!(rt; !plan.is_well());
    Ok(())
}
