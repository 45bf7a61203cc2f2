// Inputs that are accepted or refused, and each beginning of a program.

use crate::cases::{BYTES, CATCHES, COUNTS, MEMOS, PLACES, REFRESHES, REFUSALS, SECOND, STARTS};
use itoa::Buffer;
use rx_accept::{Verdict, accept};
use std::alloc::{AllocError, AllocGlobal, Global};
use std::process::Abort;
use std::test::Fail;

/// More bytes than any input here has.
const MOST: usize = 1_000_000;

/// What is told of an input: the bounds of its program and how many steps there are, or the line that refuses it.
fn told(alloc: Global, input: &[u8]) -> Result<Vec<u8>, AllocError> {
    if input.len() > MOST {
        return Vec::from_slice(alloc, b"too long\n");
    }
    match accept(alloc, input)? {
        Verdict::Accepted { checked, steps } => {
            let (nodes, depth, count) = (checked.bound(), checked.depth(), steps.len());
            let line = format!(in alloc; "accepted nodes {nodes} depth {depth} steps {count}\n")?;
            Vec::from_slice(alloc, line.as_bytes())
        }
        Verdict::ProgramRefused(line) => Ok(line),
        Verdict::ScriptRefused(line) => Ok(line),
    }
}

/// Adds a piece of a program, once for each number from one to another: `A..B TEXT`.
fn add_each(program: &mut Vec<u8>, piece: &str) -> Result<(), AllocError> {
    let (span, text) = piece.split_once(' ').unwrap_or(("", piece));
    let (first, last) = span.split_once("..").unwrap_or(("", ""));
    let first = first.parse::<u64>().unwrap_or(0);
    let last = last.parse::<u64>().unwrap_or(0);
    let mut buffer = Buffer::new();
    for number in first..last.saturating_add(1) {
        for byte in text.as_bytes() {
            match *byte {
                b'#' => program.extend_from_slice(buffer.format(number).as_bytes())?,
                b'~' => program.extend_from_slice(
                    buffer.format(number.saturating_sub(1)).as_bytes(),
                )?,
                other => program.push(other)?,
            }
        }
    }
    Ok(())
}

/// The input of a program and a script.
fn input_of(alloc: Global, program: &[u8], script: &[u8]) -> Result<Vec<u8>, AllocError> {
    let mut input = Vec::from_slice(alloc, program)?;
    input.extend_from_slice(b"\n---\n")?;
    input.extend_from_slice(script)?;
    Ok(input)
}

// An input is told what is told of it.
fn is_judged<R: Abort + AllocGlobal>(
    rt: &R,
    program: &[u8],
    script: &[u8],
    wanted: &str,
) -> Result<(), Fail> {
    let input = input_of(rt.alloc(), program, script)?;
    let found = told(rt.alloc(), &input)?;
    let line = format!(in rt.alloc(); "{wanted}\n")?;
    assert_eq!(rt; found.as_slice(), line.as_bytes(), "{wanted}");
    Ok(())
}

// So is each input of a table.
fn are_judged<R: Abort + AllocGlobal>(rt: &R, table: &str) -> Result<(), Fail> {
    let mut program = Vec::new(rt.alloc());
    let mut script = Vec::new(rt.alloc());
    let mut ended = false;
    for line in table.lines() {
        if let Some(wanted) = line.strip_prefix("= ") {
            is_judged(rt, &program, &script, wanted)?;
            script.clear();
            ended = true;
        } else if let Some(step) = line.strip_prefix("> ") {
            if !script.is_empty() {
                script.push(b'\n')?;
            }
            script.extend_from_slice(step.as_bytes())?;
        } else if !line.starts_with("# ") {
            if ended {
                program.clear();
                ended = false;
            }
            match line.strip_prefix('*') {
                Some(piece) => add_each(&mut program, piece)?,
                None => program.extend_from_slice(line.as_bytes())?,
            }
        }
    }
    assert!(rt; ended);
    Ok(())
}

#[test]
fn bytes_of_no_character_are_refused(rt: HostRuntime) -> Result<(), Fail> {
    for (program, script, wanted) in BYTES {
        is_judged(&rt, program, script, wanted)?;
    }
    Ok(())
}

#[test]
fn each_refusal_is_told(rt: HostRuntime) -> Result<(), Fail> {
    are_judged(&rt, REFUSALS)
}

#[test]
fn each_count_has_its_limit(rt: HostRuntime) -> Result<(), Fail> {
    are_judged(&rt, COUNTS)
}

#[test]
fn each_fault_has_its_place(rt: HostRuntime) -> Result<(), Fail> {
    are_judged(&rt, PLACES)
}

#[test]
fn a_refresh_names_a_lane_and_a_resource(rt: HostRuntime) -> Result<(), Fail> {
    are_judged(&rt, REFRESHES)
}

#[test]
fn a_start_names_a_lane_and_a_flag(rt: HostRuntime) -> Result<(), Fail> {
    are_judged(&rt, STARTS)
}

#[test]
fn memo_declares_a_component(rt: HostRuntime) -> Result<(), Fail> {
    are_judged(&rt, MEMOS)
}

#[test]
fn a_throw_needs_an_error_boundary(rt: HostRuntime) -> Result<(), Fail> {
    are_judged(&rt, CATCHES)
}

#[test]
fn version_2_is_judged_by_its_own_limits(rt: HostRuntime) -> Result<(), Fail> {
    are_judged(&rt, SECOND)
}

/// A program in pieces, each between a word with a blank and a bar. The last `}` of the program is left out. The word says what a
/// beginning of the program is that ends within the piece:
/// `Open`, some program goes on from it; `Word`, its last word or sign is cut, and no program has another one there; `Token`, its last
/// string or sign is cut, and no token covers that; `Whole`, it is a program without the component `App`.
const PIECES: &str = r#"
Word const|
Open  Theme = |
Word createContext|
Open (-1)|
Whole ; |
Word const|
Open  Note = |
Word memo|
Open (|
Word function|
Open  |
Word Note|
Open () { |
Word return|
Open  null; |
Open })|
Whole ; |
Word function|
Open  add(s, a) { |
Word return|
Open  s + a; |
Whole } |
Word function|
Open  User({p, children}) { |
Word const|
Open  [n, setN] = |
Word useReducer|
Open (add, p); |
Word const|
Open  c = useContext(Theme); |
Word const|
Open  u = use(|
Token "user"|
Open ); |
Word useEffect|
Open (|
Token "e"|
Open , [u]); |
Word return|
Open  <b key={u}>{c |
Word ===|
Open  1 ? |
Token "x"|
Open  : u |
Token &&|
Open  n}</b>; |
Whole } |
Word function|
Open  App() { |
Word return|
Open  <Suspense |
Word fallback|
Open ={<i/>}><Theme.|
Word Provider|
Open  |
Word value|
Open ={1}><User p={2}/></|
Word Theme|
Open .|
Word Provider|
Open ></|
Word Suspense|
Open >; |
"#;

/// What is told of a beginning that ends at `end`, within a piece or with it, where the piece starts at `start`.
fn told_within(
    alloc: Global,
    within: &str,
    cut: bool,
    start: usize,
    end: usize,
) -> Result<String, AllocError> {
    match within {
        "Whole" => format!(in alloc; "program refused 10\n"),
        "Word" if cut => format!(in alloc; "program refused 3 at {start}\n"),
        "Token" if cut => format!(in alloc; "program refused 2 at {start}\n"),
        _ => format!(in alloc; "program refused 3 at {end}\n"),
    }
}

#[test]
fn each_beginning_of_a_program_is_judged(rt: HostRuntime) -> Result<(), Fail> {
    let alloc = rt.alloc();
    let mut program = Vec::new(alloc);
    for line in PIECES.lines() {
        let (within, text) = line.split_once(' ').unwrap_or(("", ""));
        let piece = text.strip_suffix('|').unwrap_or("");
        let start = program.len();
        for byte in piece.as_bytes() {
            program.push(*byte)?;
            let end = program.len();
            let cut = end.wrapping_sub(start) < piece.len();
            let wanted = told_within(alloc, within, cut, start, end)?;
            let found = told(alloc, &program)?;
            assert_eq!(rt; found.as_slice(), wanted.as_bytes(), "of {end} bytes");
        }
    }
    program.push(b'}')?;
    let found = told(alloc, &program)?;
    assert_eq!(rt;
        found.as_slice(),
        b"accepted nodes 8 depth 6 steps 0\n".as_slice()
    );
    Ok(())
}
