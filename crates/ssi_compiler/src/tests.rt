use super::*;
use sqlite_items::Items;
use ssi_identities::{
    Body, BodyItem, Cmd, Cond, CondItem, DataSet, Kind, ModuleRow, Name, PointsRow, RequestRow,
    Stmt,
};
use std::alloc::Global;
use std::test::Fail;

/// All of these items hold.
fn all(items: Vec<CondItem>) -> Cond {
    Cond {
        items: Items::from_vec(items),
    }
}

/// A fact is as wanted.
fn fact(alloc: Global, fact: u16, wanted: bool) -> Result<Cond, Fail> {
    Ok(all(vec![in alloc; CondItem::Lit { fact, wanted }]?))
}

/// These items, one after another.
fn steps(items: Vec<BodyItem>) -> Body {
    Body {
        items: Items::from_vec(items),
    }
}

/// A command as a body.
fn set(alloc: Global, fact: u16, value: bool) -> Result<Body, Fail> {
    Ok(steps(vec![in alloc; BodyItem::Do(Cmd { fact, value })]?))
}

/// P1 is free to move to normal where T1 is clear, and to reverse where also L1 is set or L2 isn't.
fn small_points(alloc: Global) -> Result<PointsRow, Fail> {
    let alternatives = vec![in alloc; fact(alloc, 4, true)?, fact(alloc, 5, false)?]?;
    let track_clear = CondItem::Lit {
        fact: 3,
        wanted: false,
    };
    let one_flag = CondItem::Any(Items::from_vec(alternatives));
    Ok(PointsRow {
        name: Name::new(b"P1"),
        tracks: vec![in alloc; 0]?,
        free_normal: Some(fact(alloc, 3, false)?),
        free_reverse: Some(all(vec![in alloc; track_clear, one_flag]?)),
    })
}

/// `if L1 s then L2 s end`
fn first_request(alloc: Global) -> Result<RequestRow, Fail> {
    let choice = BodyItem::If {
        guard: fact(alloc, 4, true)?,
        then_body: set(alloc, 5, true)?,
        else_body: None,
    };
    Ok(RequestRow {
        name: Name::new(b"Q1"),
        body: steps(vec![in alloc; choice]?),
    })
}

/// `if P1 cnf, P1 crf then L1 s, L2 s else L1 xs end`
fn second_request(alloc: Global) -> Result<RequestRow, Fail> {
    let normal = CondItem::Free {
        points: 0,
        reverse: false,
    };
    let reverse = CondItem::Free {
        points: 0,
        reverse: true,
    };
    let set_l1 = BodyItem::Do(Cmd {
        fact: 4,
        value: true,
    });
    let set_l2 = BodyItem::Do(Cmd {
        fact: 5,
        value: true,
    });
    let choice = BodyItem::If {
        guard: all(vec![in alloc; normal, reverse]?),
        then_body: steps(vec![in alloc; set_l1, set_l2]?),
        else_body: Some(set(alloc, 4, false)?),
    };
    Ok(RequestRow {
        name: Name::new(b"Q2"),
        body: steps(vec![in alloc; choice]?),
    })
}

/// `L1 s, P1 cr if L2 xs`
fn small_statement(alloc: Global) -> Result<Stmt, Fail> {
    let set_l1 = Cmd {
        fact: 4,
        value: true,
    };
    let control_reverse = Cmd {
        fact: 0,
        value: true,
    };
    Ok(Stmt {
        commands: vec![in alloc; set_l1, control_reverse]?,
        guard: fact(alloc, 5, false)?,
    })
}

/// The module of P1: bit 0 tells that P1 is controlled reverse, bit 2 that L1 is set.
fn points_module(alloc: Global) -> Result<ModuleRow, Fail> {
    let reverse = fact(alloc, 0, true)?;
    let l1_set = fact(alloc, 4, true)?;
    Ok(ModuleRow {
        address: 1,
        kind: 0,
        pins: vec![in alloc; Some(0), None]?,
        outputs: vec![in alloc;
            Some(reverse),
            None,
            Some(l1_set),
            None,
            None,
            None,
            None,
            None,
        ]?,
        input: None,
    })
}

/// The module of T1: `if 0 h then T1 o else T1 c end`.
fn track_module(alloc: Global) -> Result<ModuleRow, Fail> {
    let is_high = CondItem::Bit {
        bit: 0,
        wanted: true,
    };
    let choice = BodyItem::If {
        guard: all(vec![in alloc; is_high]?),
        then_body: set(alloc, 3, true)?,
        else_body: Some(set(alloc, 3, false)?),
    };
    Ok(ModuleRow {
        address: 2,
        kind: 2,
        pins: vec![in alloc; Some(0), None, None, None, None, None, None, None]?,
        outputs: vec![in alloc; None, None, None, None, None, None, None, None]?,
        input: Some(steps(vec![in alloc; choice]?)),
    })
}

fn small_layout(alloc: Global) -> Result<DataSet, Fail> {
    Ok(DataSet {
        points: vec![in alloc; small_points(alloc)?]?,
        signals: Vec::new(alloc),
        tracks: vec![in alloc; Name::new(b"T1")]?,
        routes: Vec::new(alloc),
        subs: Vec::new(alloc),
        flags: vec![in alloc; Name::new(b"L1"), Name::new(b"L2")]?,
        requests: vec![in alloc; first_request(alloc)?, second_request(alloc)?]?,
        statements: vec![in alloc; small_statement(alloc)?]?,
        modules: vec![in alloc; points_module(alloc)?, track_module(alloc)?]?,
    })
}

#[test]
fn code_of_a_small_layout(rt: HostRuntime) -> Result<(), Fail> {
    let plan = small_layout(rt.alloc())?;
    assert!(rt; plan.is_well());
    let image = compile(rt.alloc(), &plan)?;
    let rows: [(&str, Option<&[u8]>, Option<&[u8]>); 9] = [
        ("P1 cnf", image.move_code(0, false), Some(b"\x10\0\x03")),
        (
            "P1 crf",
            image.move_code(0, true),
            Some(b"\x10\0\x03\x16\0\0\0\x0E\0\0\0\x03\x11\0\x04\0\0\0\x03\x10\0\x05"),
        ),
        (
            "Q1",
            image.request_code(0),
            Some(b"\x22\0\0\0\x0E\0\0\0\x03\x11\0\x04\0\0\0\x03\x21\0\x05"),
        ),
        (
            "Q2",
            image.request_code(1),
            Some(
                b"\x22\0\0\0\x1B\0\0\0\x06\x14\0\0\x15\0\0\0\0\0\x06\x21\0\x04\x21\0\x05\0\0\0\x03\x20\0\x04",
            ),
        ),
        ("bit 0", image.output_code(0, 0), Some(b"\x11\0\0")),
        ("bit 1", image.output_code(0, 1), None),
        ("bit 2", image.output_code(0, 2), Some(b"\x11\0\x04")),
        ("input of P1", image.input_code(0), None),
        (
            "input of T1",
            image.input_code(1),
            Some(b"\x22\0\0\0\x14\0\0\0\x02\x13\0\0\0\0\x03\x21\0\x03\0\0\0\x03\x20\0\x03"),
        ),
    ];
    for (place, code, want) in rows {
        assert_eq!(rt; code, want, "of {place}");
    }
    let (guard, commands) = image.statement_code(0).unwrap_or((b"", b""));
    assert_eq!(rt; guard, b"\x10\0\x05".as_slice());
    assert_eq!(rt; commands, b"\x21\0\x04\x21\0\0".as_slice());
    Ok(())
}

#[test]
fn fields_of_a_small_layout(rt: HostRuntime) -> Result<(), Fail> {
    let plan = small_layout(rt.alloc())?;
    assert!(rt; plan.is_well());
    let image = compile(rt.alloc(), &plan)?;
    let names = image.names(rt.alloc())?;
    assert_eq!(rt; names.find(Kind::Flag, b"L2"), Some(1));
    assert_eq!(rt; names.find(Kind::Request, b"Q2"), Some(1));
    assert_eq!(rt; names.find(Kind::Signal, b"Q2"), None);
    assert_eq!(rt; image.name(Kind::Points, 0), b"P1".as_slice());
    assert_eq!(rt; (image.module_at(2), image.module_at(3)), (Some(1), None));
    assert_eq!(rt; (image.statement_count(), image.module_count()), (1, 2));
    Ok(())
}
