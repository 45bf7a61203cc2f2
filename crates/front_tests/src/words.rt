// Words, and what they ask for.
use rx_words::{Reading, Task, read_words};
use std::test::Fail;

const PLAIN: Reading = Reading::Run {
    counts: false,
    ops: false,
};

const COUNTED: Reading = Reading::Run {
    counts: true,
    ops: false,
};

const WHOLE: Reading = Reading::Run {
    counts: true,
    ops: true,
};

static ROWS: [(&[&str], Option<Task>); 16] = [
    (&["run"], Some(Task::Read(PLAIN))),
    (&["run", "--counts"], Some(Task::Read(COUNTED))),
    (&["run", "--ops", "--counts"], Some(Task::Read(WHOLE))),
    (&["--ops", "run"], None),
    (&["run", "--ops", "--ops"], None),
    (&["run", "--counts=true"], None),
    (&["check"], Some(Task::Read(Reading::Check))),
    (&["check", "--ops"], None),
    (&["verify"], Some(Task::Read(Reading::Verify))),
    (&["verify", "--counts"], None),
    (&["gen", "1000"], Some(Task::Gen(1000))),
    (&["gen", "1001"], None),
    (&["gen", "0"], None),
    (&["gen", "01"], None),
    (&["gen", "--", "1"], None),
    (&[], None),
];

#[test]
fn each_spelling_asks_for_its_task(rt: HostRuntime) -> Result<(), Fail> {
    for (i, (words, task)) in ROWS.iter().enumerate() {
        assert_eq!(rt; read_words(rt.alloc(), words)?, *task, "row {i}");
    }
    Ok(())
}
