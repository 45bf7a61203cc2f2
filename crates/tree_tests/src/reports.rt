// Reports of a few lines.
use rx_base::{Int, Ints, Name, Str};
use rx_effect::LogLine;
use rx_elem::AttrValue;
use rx_forest::HostOp;
use rx_host::HostTree;
use rx_lane::{Lane, Lanes};
use rx_report::Report;
use std::alloc::{AllocError, Global};
use std::test::Fail;

#[test]
fn renders_with_their_counts(rt: HostRuntime) -> Result<(), Fail> {
    let mut report = Report::new(rt.alloc(), true, false);
    let lanes = Lanes::one(Lane::Retry).union(Lanes::one(Lane::Sync));
    report.commit_line(3, lanes, 12, 5)?;
    report.defer_line(Lanes::one(Lane::T1), 4, 2)?;
    assert!(rt;
        report.bytes()
            == b"commit 3 Sync+Retry units 12 bodies 5\ndefer T1 units 4 bodies 2\n".as_slice()
    );
    Ok(())
}

// The operation with this line.
fn operation(alloc: Global, line: usize) -> Result<HostOp, AllocError> {
    let op = match line {
        0 => HostOp::Remove(9),
        1 => HostOp::Create(4, Name::new(alloc, "li")?),
        2 => HostOp::CreateText(5, Str::new(alloc, "a b")?),
        3 => HostOp::Place {
            host: 4,
            parent: 1,
            before: Some(2),
        },
        4 => HostOp::Place {
            host: 5,
            parent: 4,
            before: None,
        },
        5 => HostOp::UnsetAttr(1, Name::new(alloc, "id")?),
        6 => HostOp::SetAttr(1, Name::new(alloc, "n")?, AttrValue::Number(Int::of(-3))),
        7 => HostOp::SetText(5, Str::new(alloc, "c")?),
        8 => HostOp::Hide(1),
        _ => HostOp::Show(1),
    };
    Ok(op)
}

const OPERATION_LINES: [&str; 10] = [
    "op remove #9\n",
    "op create #4 li\n",
    "op text #5 \"a b\"\n",
    "op place #4 under #1 before #2\n",
    "op place #5 under #4 at end\n",
    "op unattr #1 id\n",
    "op attr #1 n -3\n",
    "op settext #5 \"c\"\n",
    "op hide #1\n",
    "op show #1\n",
];

#[test]
fn each_operation_where_it_is_asked_for(rt: HostRuntime) -> Result<(), Fail> {
    for (at, line) in OPERATION_LINES.iter().enumerate() {
        let op = operation(rt.alloc(), at)?;
        let mut shown = Report::new(rt.alloc(), false, true);
        shown.op_line(&op)?;
        assert_eq!(rt; shown.bytes(), line.as_bytes());
        let mut silent = Report::new(rt.alloc(), true, false);
        silent.op_line(&op)?;
        assert_eq!(rt; silent.len(), 0);
    }
    Ok(())
}

#[test]
fn an_effect_with_its_values(rt: HostRuntime) -> Result<(), Fail> {
    let mut report = Report::new(rt.alloc(), false, false);
    let line = LogLine {
        passive: true,
        created: false,
        instance: 2,
        label: Str::new(rt.alloc(), "a b")?,
        values: Ints::new(vec![in rt.alloc(); Int::of(-7)]?),
    };
    report.log_line(&line)?;
    assert!(rt; report.bytes() == b"passive - [2] \"a b\" -7\n".as_slice());
    Ok(())
}

#[test]
fn a_caught_value(rt: HostRuntime) -> Result<(), Fail> {
    let mut report = Report::new(rt.alloc(), false, false);
    report.caught_line(Int::of(-7))?;
    assert!(rt; report.bytes() == b"caught -7\n".as_slice());
    Ok(())
}

#[test]
fn refusals(rt: HostRuntime) -> Result<(), Fail> {
    let mut report = Report::new(rt.alloc(), false, false);
    let path = vec![in rt.alloc();
        (Name::new(rt.alloc(), "App")?, 0),
        (Name::new(rt.alloc(), "Cell")?, 2),
    ]?;
    report.no_instance_line(&path)?;
    report.already_line(&Name::new(rt.alloc(), "r")?, Int::of(5))?;
    assert!(rt; report.bytes() == b"no-instance App/Cell@2\nalready r 5\n".as_slice());
    Ok(())
}

#[test]
fn an_instance_with_a_hook(rt: HostRuntime) -> Result<(), Fail> {
    let mut report = Report::new(rt.alloc(), false, false);
    let hooks = vec![in rt.alloc(); Name::new(rt.alloc(), "n")?]?;
    report.state_head()?;
    report.state_line(
        1,
        &Name::new(rt.alloc(), "App")?,
        &hooks,
        &[Int::of(3)],
        true,
    )?;
    assert!(rt; report.bytes() == b"state\n  [1] App n=3 hidden\n".as_slice());
    Ok(())
}

#[test]
fn a_tree_without_hosts(rt: HostRuntime) -> Result<(), Fail> {
    let mut report = Report::new(rt.alloc(), false, false);
    report.tree_lines(&HostTree::new(rt.alloc()))?;
    assert!(rt; report.bytes() == b"tree\n".as_slice());
    Ok(())
}

#[test]
fn the_end_and_a_cut(rt: HostRuntime) -> Result<(), Fail> {
    let mut report = Report::new(rt.alloc(), false, false);
    report.end_line(Lanes::none(), 1)?;
    report.end_line(Lanes::none(), 0)?;
    report.cut(36);
    assert_eq!(rt; report.len(), 36);
    assert!(rt; report.bytes() == b"end pending none suspended 1\nend qui".as_slice());
    Ok(())
}
