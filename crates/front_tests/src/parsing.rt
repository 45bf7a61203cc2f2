// Programs that are read, and places of faults.

use rx_lex::lex;
use rx_parse::{ParseError, parse};
use std::test::Fail;

/// The place of the fault of a text, if it has one.
fn place_of(rt: &HostRuntime, text: &str) -> Result<Option<usize>, Fail> {
    let tokens = lex(rt.alloc(), text)?;
    match parse(rt.alloc(), &tokens) {
        Ok(_) => Ok(None),
        Err(ParseError::Syntax { at }) => Ok(Some(at)),
        Err(ParseError::OutOfMemory) => Ok(Some(usize::MAX)),
    }
}

#[test]
fn texts_have_these_places(rt: HostRuntime) -> Result<(), Fail> {
    let cases = [
        (
            "function App() { return <main key={1}>{for (i < 3, 8) <b>{i}</b>}</main>; }",
            None,
        ),
        (
            "const C = createContext(-1); function f(a, b) { return a < b ? 1 : f(b, a); }",
            None,
        ),
        (
            "\"use 2\"; function App() { return <p>{9223372036854775807}</p>; }",
            None,
        ),
        ("const App = memo(function App() { return null; });", None),
        (
            "const App = memo(function Apps() { return null; });",
            Some(26),
        ),
        (
            "const App = memo(function App() { return null; };",
            Some(48),
        ),
        (
            "const App = memo(function App() { return null; })",
            Some(49),
        ),
        (
            "function App() { throwIf(1); return <Catch fallback={<i/>} key={2}></Catch>; }",
            None,
        ),
        (
            "function App() { return <Catch fallback={<i/>}></Suspense>; }",
            Some(49),
        ),
        ("\"use 2\";", None),
        ("\"use 2\" function App() { return null; }", Some(8)),
        ("\"use 1\"; function App() { return null; }", Some(0)),
        ("function App() { return null; } \"use 2\";", Some(32)),
        ("function App() { return <a></b>; }", Some(29)),
        ("function App() { return <a>; }", Some(27)),
        (
            "function App() { return (<><C.Provider value={1}/></>);",
            Some(55),
        ),
    ];
    for (text, place) in cases {
        assert_eq!(rt; place_of(&rt, text)?, place);
    }
    Ok(())
}
