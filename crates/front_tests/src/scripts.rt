// Lines with a form and without one, and an input's parts.

use crate::checking::counter;
use rx_check::check;
use rx_script::{ScriptError, read_script, split_input, split_report};
use std::test::Fail;

// What a line without a form is refused for, one that names what the program has not, and one with a number out of its bounds.
const FORMLESS: Option<ScriptError> = Some(ScriptError::BadLine { line: 1 });

const UNKNOWN: Option<ScriptError> = Some(ScriptError::UnknownTarget { line: 1 });

const BEYOND: Option<ScriptError> = Some(ScriptError::OutOfRange { line: 1 });

#[test]
fn lines_with_a_form(rt: HostRuntime) -> Result<(), Fail> {
    let checked = check(rt.alloc(), counter(rt.alloc())?)?;
    for (line, want) in [
        ("set sync App n -12", None),
        ("set sync App/Row@3/Cell n -12", UNKNOWN),
        ("call\ttransition  App v add 2147483648 ", UNKNOWN),
        ("send default App s 0", UNKNOWN),
        ("resolve 9 5", UNKNOWN),
        ("refresh transition 9", UNKNOWN),
        ("work 18446744073709551616", BEYOND),
        ("flushsync", None),
        ("refresh 9 transition", FORMLESS),
        ("set sync App n -0", FORMLESS),
        ("set sync App/Row@-1 n 1", FORMLESS),
        ("tick 01", FORMLESS),
        ("set sync App N 1", FORMLESS),
        ("flush now", FORMLESS),
        ("jump", FORMLESS),
    ] {
        assert!(rt; line.len() < 100, "{line}");
        let found = read_script(rt.alloc(), &checked, line.as_bytes()).err();
        assert_eq!(rt; found, want, "{line}");
    }
    Ok(())
}

#[test]
fn an_input_is_divided_at_its_marks(rt: HostRuntime) -> Result<(), Fail> {
    let (program, script) = split_input(b"p\n----\n---\r\nflush\n---\n");
    assert_eq!(rt; program, b"p\n----\n".as_slice());
    assert_eq!(rt; script, b"flush\n---\n".as_slice());
    let (program, script, report) = split_report(b"p\n---\nflush\n---\r\nend quiet\n---\n");
    assert_eq!(rt; program, b"p\n".as_slice());
    assert_eq!(rt; script, b"flush\n".as_slice());
    assert_eq!(rt; report, b"end quiet\n---\n".as_slice());
    Ok(())
}
