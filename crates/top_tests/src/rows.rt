// Rows: words, input, failing reads and writes, and the status and the bytes that are wanted.
ghost use Rattle.std.specs.Prelude.{◌≡◌, ◌<◌};

use rx_base::Steps;
use rx_io::{MemSink, MemSource};
use rx_top::top;
use std::alloc::{AllocError, Global};
use std::marker::Brand;
use std::sync::ledger::{Blank, Ledger};
use std::test::Fail;

#[derive(Clone, Copy)]
struct Row<'a> {
    words: &'a [&'a str],
    input: &'a str,
    failing_reads: &'a [u64],
    failing_writes: &'a [u64],
    status: u8,
    output: &'a str,
}

const TWO_COUNTERS: &str =
    "function Counter({start}) { const [n, setN] = useState(start); return <p>{n}</p>; } function App() { return <div><Counter start={1}/><Counter start={2}/></div>; }\n---\nflush\nset sync App/Counter@1 n 7\nflush\ntree\nstate\n";

/// Rows that are run in pieces, and with each read and each write failing in turn.
const WHOLE: [Row<'static>; 3] = [
    // Two counters: the second is set.
    Row {
        words: &["run"],
        input: TWO_COUNTERS,
        failing_reads: &[],
        failing_writes: &[],
        status: 0,
        output: "commit 1 Default\ncommit 2 Sync\ntree\n  div\n    p\n      \"1\"\n    p\n      \"7\"\nstate\n  [1] App\n  [2] Counter n=1\n  [3] Counter n=7\nend quiet\n",
    },
    // Updates of content that is hidden are owed until it is shown.
    Row {
        words: &["run"],
        input: "function app(s, a) { return s * 10 + a; } function Wait() { const u = use(\"r\"); return <b>{u}</b>; } function Box({w}) { const [s, setS] = useState(0); return <p>{s}{w ? <Wait/> : null}</p>; } function App() { const [w, setW] = useState(0); return <Suspense fallback={<i/>}><Box w={w}/></Suspense>; }\n---\nflush\nset sync App w 1\ncall default App/Box s app 1\nflush\nstate\ncall default App/Box s app 2\ncall sync App/Box s app 3\nresolve r 5\nflushsync\nstate\nflush\nstate\n",
        failing_reads: &[],
        failing_writes: &[],
        status: 0,
        output: "commit 1 Default\ncommit 2 Sync\ncommit 3 Default\nstate\n  [1] App w=1\n  [2] Box s=0 hidden\ncommit 4 Sync\nstate\n  [1] App w=1\n  [2] Box s=13\n  [3] Wait\ncommit 5 Default\ncommit 6 Retry\nstate\n  [1] App w=1\n  [2] Box s=123\n  [3] Wait\nend quiet\n",
    },
    // Effects run in their order.
    Row {
        words: &["run"],
        input: "function Kid({v}) { useLayoutEffect(\"kl\", [v]); useEffect(\"kp\", [v]); return <i/>; } function App() { const [v, setV] = useState(0); const [g, setG] = useState(1); useLayoutEffect(\"al\", [v]); useEffect(\"ap\", [v]); return <div><Kid v={v}/>{g ? <Kid v={9}/> : null}</div>; }\n---\nwork 1\nset default App v 1\nset default App g 0\nwork 1\npassive\n",
        failing_reads: &[],
        failing_writes: &[],
        status: 0,
        output: "commit 1 Default\nlayout + [2] \"kl\" 0\nlayout + [3] \"kl\" 9\nlayout + [1] \"al\" 0\npassive + [2] \"kp\" 0\npassive + [3] \"kp\" 9\npassive + [1] \"ap\" 0\ncommit 2 Default\nlayout - [3] \"kl\" 9\nlayout - [2] \"kl\" 0\nlayout - [1] \"al\" 0\nlayout + [2] \"kl\" 1\nlayout + [1] \"al\" 1\npassive - [3] \"kp\" 9\npassive - [2] \"kp\" 0\npassive - [1] \"ap\" 0\npassive + [2] \"kp\" 1\npassive + [1] \"ap\" 1\nend quiet\n",
    },
];

const ROWS: [Row<'static>; 23] = [
    // A flag shows that a transition is pending: it is set at once, and unset with the transition.
    Row {
        words: &["run"],
        input: "function App() { const [w, go] = useTransition(); const [s, setS] = useState(0); return <p>{w}{s}</p>; }\n---\nflush\nstart sync App w\nset transition App s 5\nflushsync\ntree\nflush\ntree\n",
        failing_reads: &[],
        failing_writes: &[],
        status: 0,
        output: "commit 1 Default\ncommit 2 Sync\ntree\n  p\n    \"1\"\n    \"0\"\ncommit 3 T1\ntree\n  p\n    \"0\"\n    \"5\"\nend quiet\n",
    },
    // A transition that is held back leaves its flag set.
    Row {
        words: &["run"],
        input: "function Wait() { const u = use(\"r\"); return <b>{u}</b>; } function App() { const [w, go] = useTransition(); const [s, setS] = useState(0); return <div>{w}<Suspense fallback={<i/>}>{s ? <Wait/> : <u/>}</Suspense></div>; }\n---\nflush\nstart input App w\nset transition App s 1\nflush\ntree\nresolve r 5\nflush\ntree\n",
        failing_reads: &[],
        failing_writes: &[],
        status: 0,
        output: "commit 1 Default\ncommit 2 Input\ndefer T1\ntree\n  div\n    \"1\"\n    u\ncommit 3 T1\ntree\n  div\n    \"0\"\n    b\n      \"5\"\nend quiet\n",
    },
    // A resource is asked for anew in a transition: what is shown stays until its value has come.
    Row {
        words: &["run"],
        input: "function User() { const u = use(\"user\"); return <b>{u}</b>; } function App() { return <Suspense fallback={<i/>}><User/></Suspense>; }\n---\nresolve user 1\nflush\nrefresh transition user\nflush\ntree\nresolve user 2\nflush\ntree\n",
        failing_reads: &[],
        failing_writes: &[],
        status: 0,
        output: "commit 1 Default\ndefer T1\ntree\n  b\n    \"1\"\ncommit 2 T1\ntree\n  b\n    \"2\"\nend quiet\n",
    },
    // It is asked for anew in Sync: the fallback is shown until its value has come, and no further value is taken.
    Row {
        words: &["run"],
        input: "function User() { const u = use(\"user\"); return <b>{u}</b>; } function App() { return <Suspense fallback={<i/>}><User/></Suspense>; }\n---\nresolve user 1\nflush\nrefresh sync user\nflush\ntree\nresolve user 2\nresolve user 3\nflush\ntree\n",
        failing_reads: &[],
        failing_writes: &[],
        status: 0,
        output: "commit 1 Default\ncommit 2 Sync\ntree\n  b hidden\n    \"1\"\n  i\nalready user 2\ncommit 3 Retry\ntree\n  b\n    \"2\"\nend quiet\n",
    },
    // Integers of a program of version 2 have 64 bits.
    Row {
        words: &["run"],
        input: "\"use 2\"; function App() { return <p>{2147483647 + 1}{9223372036854775807 + 1}{(0 - 7) / 2}</p>; }\n---\nflush\ntree\n",
        failing_reads: &[],
        failing_writes: &[],
        status: 0,
        output: "commit 1 Default\ntree\n  p\n    \"2147483648\"\n    \"-9223372036854775808\"\n    \"-3\"\nend quiet\n",
    },
    // A transition yields after a unit, and an update of Sync comes first.
    Row {
        words: &["run"],
        input: "function App() { const [v, setV] = useState(0); const [w, setW] = useState(0); return <p><b>{v}</b><i>{w}</i></p>; }\n---\nflush\nset transition App v 1\nwork 1\nset sync App w 7\nflushsync\nstate\nflush\nstate\n",
        failing_reads: &[],
        failing_writes: &[],
        status: 0,
        output: "commit 1 Default\ncommit 2 Sync\nstate\n  [1] App v=0 w=7\ncommit 3 T1\nstate\n  [1] App v=1 w=7\nend quiet\n",
    },
    // A boundary that waits is not tried again for a value that an inner provider hides from it.
    Row {
        words: &["run", "--counts"],
        input: "const C = createContext(1); function User() { const u = use(\"r\"); return <b>{u}</b>; } function App() { const [t, setT] = useState(2); return <C.Provider value={t}><C.Provider value={1}><Suspense fallback={<i/>}><User/></Suspense></C.Provider></C.Provider>; }\n---\nflush\nset sync App t 3\nflush\n",
        failing_reads: &[],
        failing_writes: &[],
        status: 0,
        output: "commit 1 Default units 11 bodies 2\ncommit 2 Sync units 9 bodies 1\nend pending none suspended 1\n",
    },
    // A caught value stays: the fallback is shown on, also when the children would no longer throw.
    Row {
        words: &["run"],
        input: "function T({v}) { throwIf(v - 3 ? 0 : 7); const [n, setN] = useState(0); return <b>{v}</b>; } function App() { const [v, setV] = useState(1); const [k, setK] = useState(0); return <div><Catch key={k} fallback={<i/>}><T v={v}/></Catch>{v}</div>; }\n---\nflush\nset sync App v 3\nflush\ntree\nset sync App v 4\nflush\ntree\nstate\n",
        failing_reads: &[],
        failing_writes: &[],
        status: 0,
        output: "commit 1 Default\ncommit 2 Sync\ncaught 7\ntree\n  div\n    i\n    \"3\"\ncommit 3 Sync\ntree\n  div\n    i\n    \"4\"\nstate\n  [1] App v=4 k=0\nend quiet\n",
    },
    // Another key makes an error boundary anew, and its children are tried.
    Row {
        words: &["run"],
        input: "function T({v}) { throwIf(v - 3 ? 0 : 7); const [n, setN] = useState(0); return <b>{v}</b>; } function App() { const [v, setV] = useState(1); const [k, setK] = useState(0); return <div><Catch key={k} fallback={<i/>}><T v={v}/></Catch>{v}</div>; }\n---\nflush\nset sync App v 3\nflush\nset sync App v 4\nset sync App k 1\nflush\ntree\nstate\n",
        failing_reads: &[],
        failing_writes: &[],
        status: 0,
        output: "commit 1 Default\ncommit 2 Sync\ncaught 7\ncommit 3 Sync\ntree\n  div\n    b\n      \"4\"\n    \"4\"\nstate\n  [1] App v=4 k=1\n  [3] T n=0\nend quiet\n",
    },
    // A resource gets its value that a boundary waits for within another one that waits: what throws now is caught.
    Row {
        words: &["run"],
        input: "function A() { const u = use(\"a\"); throwIf(u); return <b/>; } function B() { const u = use(\"b\"); return <b/>; } function App() { const [s, setS] = useState(0); return <div>{s}<Catch fallback={<i/>}><Suspense fallback={<u/>}><Suspense fallback={<q/>}><A/></Suspense><B/></Suspense></Catch></div>; }\n---\nflush\nresolve a 5\nset sync App s 1\nflush\ntree\n",
        failing_reads: &[],
        failing_writes: &[],
        status: 0,
        output: "commit 1 Default\ncommit 2 Sync\ncaught 5\ntree\n  div\n    \"1\"\n    i\nend quiet\n",
    },
    // A fallback that throws is caught by the next error boundary around; what that one showed is gone.
    Row {
        words: &["run", "--ops"],
        input: "function T({v}) { throwIf(v); return <b>{v}</b>; } function E({n}) { useLayoutEffect(\"l\", [n]); return <s>{n}</s>; } function App() { const [v, setV] = useState(0); return <div><Catch fallback={<i>{v}</i>}><E n={v}/><Catch fallback={<T v={v - 1}/>}><T v={v}/></Catch></Catch></div>; }\n---\nflush\nset sync App v 1\nflush\nset sync App v 0\nflush\ntree\n",
        failing_reads: &[],
        failing_writes: &[],
        status: 0,
        output: "commit 1 Default\nop create #1 div\nop create #2 s\nop text #3 \"0\"\nop create #4 b\nop text #5 \"0\"\nop place #1 under #0 at end\nop place #2 under #1 at end\nop place #3 under #2 at end\nop place #4 under #1 at end\nop place #5 under #4 at end\nlayout + [2] \"l\" 0\ncommit 2 Sync\nop remove #4\nop create #6 b\nop text #7 \"0\"\nop place #6 under #1 at end\nop place #7 under #6 at end\nop settext #3 \"1\"\ncaught 1\nlayout - [2] \"l\" 0\nlayout + [2] \"l\" 1\ncommit 3 Sync\nop remove #2\nop remove #6\nop create #8 i\nop text #9 \"0\"\nop place #8 under #1 at end\nop place #9 under #8 at end\ncaught -1\nlayout - [2] \"l\" 1\ntree\n  div\n    i\n      \"0\"\nend quiet\n",
    },
    // Operations on hosts are shown if they are asked for.
    Row {
        words: &["run", "--ops"],
        input: "function App() { const [n, setN] = useState(1); return <p a={n} b=\"x\">{n ? n : null}<i/></p>; }\n---\nflush\nset sync App n 0\nflush",
        failing_reads: &[],
        failing_writes: &[],
        status: 0,
        output: "commit 1 Default\nop create #1 p\nop text #2 \"1\"\nop create #3 i\nop place #1 under #0 at end\nop place #2 under #1 at end\nop place #3 under #1 at end\nop attr #1 a 1\nop attr #1 b \"x\"\ncommit 2 Sync\nop remove #2\nop attr #1 a 0\nend quiet\n",
    },
    // A report of a run is one, with any counts that a run may have.
    Row {
        words: &["verify"],
        input: "function Counter({start}) { const [n, setN] = useState(start); return <p>{n}</p>; } function App() { return <div><Counter start={1}/><Counter start={2}/></div>; }\n---\nflush\n---\ncommit 1 Default units 36 bodies 3\nend quiet\n",
        failing_reads: &[],
        failing_writes: &[],
        status: 0,
        output: "yes\n",
    },
    // No render has more units than its bound.
    Row {
        words: &["verify"],
        input: "function Counter({start}) { const [n, setN] = useState(start); return <p>{n}</p>; } function App() { return <div><Counter start={1}/><Counter start={2}/></div>; }\n---\nflush\n---\ncommit 1 Default units 37 bodies 3\nend quiet\n",
        failing_reads: &[],
        failing_writes: &[],
        status: 1,
        output: "no line 1\n",
    },
    // Each render has a unit more than bodies at least.
    Row {
        words: &["verify"],
        input: "function Counter({start}) { const [n, setN] = useState(start); return <p>{n}</p>; } function App() { return <div><Counter start={1}/><Counter start={2}/></div>; }\n---\nflush\n---\ncommit 1 Default units 3 bodies 3\nend quiet\n",
        failing_reads: &[],
        failing_writes: &[],
        status: 1,
        output: "no line 1\n",
    },
    // A report that ends too early.
    Row {
        words: &["verify"],
        input: "function Counter({start}) { const [n, setN] = useState(start); return <p>{n}</p>; } function App() { return <div><Counter start={1}/><Counter start={2}/></div>; }\n---\nflush\n---\ncommit 1 Default units 36 bodies 3\n",
        failing_reads: &[],
        failing_writes: &[],
        status: 1,
        output: "no line 2\n",
    },
    // A last line without its end.
    Row {
        words: &["verify"],
        input: "function Counter({start}) { const [n, setN] = useState(start); return <p>{n}</p>; } function App() { return <div><Counter start={1}/><Counter start={2}/></div>; }\n---\nflush\n---\ncommit 1 Default units 36 bodies 3\nend quiet",
        failing_reads: &[],
        failing_writes: &[],
        status: 1,
        output: "no line 2\n",
    },
    // Without a report there is no first line.
    Row {
        words: &["verify"],
        input: "function Counter({start}) { const [n, setN] = useState(start); return <p>{n}</p>; } function App() { return <div><Counter start={1}/><Counter start={2}/></div>; }\n---\nflush\n",
        failing_reads: &[],
        failing_writes: &[],
        status: 1,
        output: "no line 1\n",
    },
    // A generated run reads nothing.
    Row {
        words: &["gen", "1"],
        input: TWO_COUNTERS,
        failing_reads: &[1],
        failing_writes: &[],
        status: 0,
        output: "gen 1 dispatches 1 commits 2 nodes 99 bytes 543 sum 19557\n",
    },
    Row {
        words: &["gen", "0"],
        input: TWO_COUNTERS,
        failing_reads: &[1],
        failing_writes: &[],
        status: 2,
        output: "usage: fiber_run run [--counts] [--ops] | check | gen N | verify\n",
    },
    // A source whose second call fails.
    Row {
        words: &["run"],
        input: TWO_COUNTERS,
        failing_reads: &[2],
        failing_writes: &[],
        status: 3,
        output: "",
    },
    // A sink whose second call fails.
    Row {
        words: &["run"],
        input: TWO_COUNTERS,
        failing_reads: &[],
        failing_writes: &[2],
        status: 4,
        output: "commit 1 Default\n",
    },
    // A bad line of a script.
    Row {
        words: &["run"],
        input: "function App() { return <p/>; }\n---\nflush\njump",
        failing_reads: &[],
        failing_writes: &[],
        status: 7,
        output: "script refused 14 line 2\n",
    },
];

/// Rows whose reports with counts are those without, once the counts are cut out.
const COUNTED: [&str; 2] = [
    // An update of Sync comes before a transition that has begun.
    "function Cell({v}) { return <i>{v}</i>; } function App() { const [v, setV] = useState(0); const [w, setW] = useState(0); useLayoutEffect(\"v\", [v]); return <div>{w}{for (k < 20, 20) <Cell key={k} v={v}/>}</div>; }\n---\nflush\nset transition App v 1\nwork 3\nset sync App w 7\nflush\n",
    // A resource gets its value after a render that waits for it has begun.
    "function User() { const u = use(\"user\"); return <b>{u}</b>; } function App() { const [s, setS] = useState(0); return <div>{s ? <Suspense fallback={<i/>}><User/></Suspense> : null}</div>; }\n---\nflush\nset transition App s 1\nwork 1\nresolve user 8\nflush\ntree\n",
];

/// So many bytes at most are moved in a call of the source and of the sink.
fn answer<L: Ledger>(
    alloc: Global,
    row: &Row,
    piece: u64,
    blank: Blank,
) -> Result<(u8, Vec<u8>), AllocError>
    requires name { blank.name ≡ L.name }
    requires parts { blank.parts ≡ L.parts }
    requires one { blank.parts ≡ 1 }
    requires some { 0 < piece }
{
    let mut src = MemSource::new(alloc, row.input.as_bytes(), row.failing_reads)?;
    src.pieces(piece);
    let mut out = MemSink::new(alloc, 10_000, row.failing_writes)?;
    out.pieces(piece);
    let mut steps = Steps::<L>::new(blank);
    let status = top(alloc, row.words, &mut src, &mut out, &mut steps);
    Ok((status.code(), out.bytes().to_vec(alloc)?))
}

/// The status and the bytes of a row.
fn outcome(alloc: Global, row: &Row, piece: u64) -> Result<(u8, Vec<u8>), AllocError>
    requires { 0 < piece }
{
    answer::<Brand>(alloc, row, piece, Blank::new(1))
}

#[test]
fn each_row_has_its_status_and_output(rt: HostRuntime) -> Result<(), Fail> {
    for (i, row) in ROWS.iter().enumerate() {
        let (status, output) = outcome(rt.alloc(), row, 10_000)?;
        assert_eq!(rt; status, row.status, "row {i}");
        assert_eq!(rt; output.as_slice(), row.output.as_bytes(), "row {i}");
    }
    Ok(())
}

#[test]
fn pieces_of_any_size_give_the_same_bytes(rt: HostRuntime) -> Result<(), Fail> {
    for piece in [1u64, 2, 7, 10_000] {
        for (i, row) in WHOLE.iter().enumerate() {
            let (status, output) = outcome(rt.alloc(), row, piece)?;
            assert_eq!(rt; status, 0, "row {i} in pieces of {piece}");
            assert_eq!(rt;
                output.as_slice(),
                row.output.as_bytes(),
                "row {i} in pieces of {piece}"
            );
        }
    }
    Ok(())
}

#[test]
fn each_read_that_fails_is_told_and_nothing_is_written(rt: HostRuntime) -> Result<(), Fail> {
    for (i, row) in WHOLE.iter().enumerate() {
        // The source is read in calls of a hundred bytes, and once more at its end.
        let calls = row.input.len().div_ceil(100) as u64 + 1;
        for call in 1..calls + 2 {
            let failing = Row {
                failing_reads: &[call],
                ..*row
            };
            let (status, output) = outcome(rt.alloc(), &failing, 100)?;
            if call <= calls {
                assert_eq!(rt; status, 3, "row {i}, read {call}");
                assert_eq!(rt; output.as_slice(), b"".as_slice(), "row {i}, read {call}");
            } else {
                assert_eq!(rt; status, 0, "row {i}, read {call}");
            }
        }
    }
    Ok(())
}

#[test]
fn each_write_that_fails_is_told_and_a_prefix_is_written(rt: HostRuntime) -> Result<(), Fail> {
    for (i, row) in WHOLE.iter().enumerate() {
        let mut ended = false;
        for call in 1..30u64 {
            let failing = Row {
                failing_writes: &[call],
                ..*row
            };
            let (status, output) = outcome(rt.alloc(), &failing, 50)?;
            let is_prefix = row.output.as_bytes().starts_with(&output);
            assert!(rt; is_prefix, "row {i}, write {call}");
            ended = output.len() == row.output.len();
            assert_eq!(rt; status, if ended { 0 } else { 4 }, "row {i}, write {call}");
        }
        assert!(rt; ended, "row {i}");
    }
    Ok(())
}

/// A report without its counts.
fn without_counts(alloc: Global, report: &[u8]) -> Result<String, Fail> {
    let mut rest = String::new(alloc);
    for line in str::from_utf8(report)?.lines() {
        rest.push_str(line.split(" units ").next().unwrap_or(line))?;
        rest.push('\n')?;
    }
    Ok(rest)
}

#[test]
fn counts_are_all_that_a_report_with_counts_has_more(rt: HostRuntime) -> Result<(), Fail> {
    let alloc = rt.alloc();
    for (i, input) in COUNTED.iter().enumerate() {
        let plain = Row {
            words: &["run"],
            input,
            failing_reads: &[],
            failing_writes: &[],
            status: 0,
            output: "",
        };
        let counted = Row {
            words: &["run", "--counts"],
            ..plain
        };
        let (_, without) = outcome(alloc, &plain, 10_000)?;
        let (_, with) = outcome(alloc, &counted, 10_000)?;
        assert!(rt; without.len() < with.len(), "row {i}");
        assert_eq!(rt;
            without_counts(alloc, &with)?.as_bytes(),
            without.as_slice(),
            "row {i}"
        );
    }
    Ok(())
}
