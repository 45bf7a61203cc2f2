// Texts and their tokens, each with its place, as the language's table of tokens gives them.

use rx_lex::{Keyword, LexError, Rest, Shape, Sign, Span, lex};
use std::fmt::Write;
use std::test::Fail;

fn list(line: &mut String, rest: Rest<'_>, span: Span) -> Result<(), Fail> {
    let place = span.place;
    write!(line, " {place}:")?;
    match span.shape {
        Shape::Upper(len) => write!(line, "Upper-{}", rest.name(place, len))?,
        Shape::Lower(len) => write!(line, "Lower-{}", rest.name(place, len))?,
        Shape::Number(len) => write!(line, "{}", rest.number(place, len))?,
        Shape::Text(len) => write!(line, "'{}'", rest.content(place, len))?,
        Shape::Word(keyword) => write!(line, "{keyword:?}")?,
        Shape::Mark(sign) => write!(line, "{sign:?}")?,
        Shape::End => write!(line, "End")?,
    }
    Ok(())
}

/// The tokens of a text in one line, or the place where none is.
fn listed(rt: &HostRuntime, text: &str) -> Result<String, Fail> {
    let mut line = String::new(rt.alloc());
    match lex(rt.alloc(), text) {
        Ok(tokens) => {
            let mut rest = tokens.rest();
            for _ in 0..rest.len() {
                let Some((span, behind)) = rest.split_first() else {
                    break;
                };
                list(&mut line, rest, span)?;
                rest = behind;
            }
        }
        Err(LexError::Lex { at }) => write!(line, " none at {at}")?,
        Err(LexError::OutOfMemory) => write!(line, " out of memory")?,
    }
    Ok(line)
}

#[test]
fn the_longest_sign_is_taken(rt: HostRuntime) -> Result<(), Fail> {
    for (text, want) in [
        ("", " 0:End"),
        (
            "(){}",
            " 0:OpenParen 1:CloseParen 2:OpenBrace 3:CloseBrace 4:End",
        ),
        (
            "[],;",
            " 0:OpenBracket 1:CloseBracket 2:Comma 3:Semicolon 4:End",
        ),
        (":?.%", " 0:Colon 1:Question 2:Dot 3:Percent 4:End"),
        ("+-*/", " 0:Plus 1:Minus 2:Star 3:Slash 4:End"),
        ("<<=<", " 0:Less 1:LessEqual 3:Less 4:End"),
        (">>=>", " 0:Greater 1:GreaterEqual 3:Greater 4:End"),
        (
            "<== >==",
            " 0:LessEqual 2:Equals 4:GreaterEqual 6:Equals 7:End",
        ),
        (
            "= == === ====",
            " 0:Equals 2:Equals 3:Equals 5:Same 9:Same 12:Equals 13:End",
        ),
        (
            "! != !== !===",
            " 0:Not 2:Not 3:Equals 5:NotSame 9:NotSame 12:Equals 13:End",
        ),
        ("!!==", " 0:Not 1:NotSame 4:End"),
        ("&&||", " 0:And 2:Or 4:End"),
        ("a & b", " none at 2"),
        ("&&&", " none at 2"),
        ("|", " none at 0"),
        ("1.2", " 0:1 1:Dot 2:2 3:End"),
    ] {
        let line = listed(&rt, text)?;
        assert_eq!(rt; line.as_str(), want, "for {text}");
    }
    Ok(())
}

#[test]
fn comments_and_strings_end_where_they_close(rt: HostRuntime) -> Result<(), Fail> {
    for (text, want) in [
        ("1//2\n3", " 0:1 5:3 6:End"),
        ("//a\r1\n\t2", " 7:2 8:End"),
        ("//", " 2:End"),
        ("/**/1/* * / **/2", " 4:1 15:2 16:End"),
        ("/*//*/1", " 6:1 7:End"),
        ("///*\n1", " 5:1 6:End"),
        ("a / /b", " 0:Lower-a 2:Slash 4:Slash 5:Lower-b 6:End"),
        ("*/", " 0:Star 1:Slash 2:End"),
        ("1 /* 2", " none at 2"),
        ("1 /*/", " none at 2"),
        ("\"a //\"\"\"", " 0:'a //' 6:'' 8:End"),
        ("1 \"abc", " none at 2"),
        ("\"a\\\"\"", " none at 0"),
        ("\"a\nb\"", " none at 0"),
        ("1 \"\u{1}\"", " none at 2"),
        ("1\u{1}", " none at 1"),
        ("\"\u{7f}\"", " 0:'\u{7f}' 3:End"),
        ("\u{7f}", " none at 0"),
        ("\"é\" 1", " 0:'é' 5:1 6:End"),
        ("/*é*/ //é", " 11:End"),
        ("aé", " none at 1"),
    ] {
        let line = listed(&rt, text)?;
        assert_eq!(rt; line.as_str(), want, "for {text}");
    }
    Ok(())
}

#[test]
fn words_are_whole(rt: HostRuntime) -> Result<(), Fail> {
    for (text, want) in [
        ("0 10 2147483648", " 0:0 2:10 5:2147483648 15:End"),
        ("2147483649", " none at 0"),
        ("18446744073709551616", " none at 0"),
        ("1 01", " none at 2"),
        ("00", " none at 0"),
        ("1a", " none at 0"),
        (
            "a1 A$_ _ $b",
            " 0:Lower-a1 3:Upper-A$_ 7:Lower-_ 9:Lower-$b 11:End",
        ),
        (
            "const function return null",
            " 0:Const 6:Function 15:Return 22:Null 26:End",
        ),
        (
            "for children key createContext",
            " 0:For 4:Children 13:Key 17:CreateContext 30:End",
        ),
        (
            "useState useReducer useContext",
            " 0:UseState 9:UseReducer 20:UseContext 30:End",
        ),
        (
            "useEffect useLayoutEffect use",
            " 0:UseEffect 10:UseLayoutEffect 26:Use 29:End",
        ),
        (
            "useTransition memo throwIf",
            " 0:UseTransition 14:Memo 19:ThrowIf 26:End",
        ),
        (
            "Suspense Provider Catch",
            " 0:Suspense 9:Provider 18:Catch 23:End",
        ),
        (
            "constant used Suspenses",
            " 0:Lower-constant 9:Lower-used 14:Upper-Suspenses 23:End",
        ),
        (
            "Const suspense C.Provider",
            " 0:Upper-Const 6:Lower-suspense 15:Upper-C 16:Dot 17:Provider 25:End",
        ),
    ] {
        let line = listed(&rt, text)?;
        assert_eq!(rt; line.as_str(), want, "for {text}");
    }
    Ok(())
}

#[test]
fn the_first_two_tokens_tell_the_greatest_number(rt: HostRuntime) -> Result<(), Fail> {
    for (text, want) in [
        (
            "\"use 2\"; 9223372036854775808",
            " 0:'use 2' 7:Semicolon 9:9223372036854775808 28:End",
        ),
        ("\"use 2\"; 9223372036854775809", " none at 9"),
        (
            "/**/\"use 2\"//\n; 2147483649",
            " 4:'use 2' 14:Semicolon 16:2147483649 26:End",
        ),
        ("\"use 2\" 2147483649", " none at 8"),
        ("\"use 2\", 2147483649", " none at 9"),
        ("\"use 3\"; 2147483649", " none at 9"),
        ("; \"use 2\"; 2147483649", " none at 11"),
    ] {
        let line = listed(&rt, text)?;
        assert_eq!(rt; line.as_str(), want, "for {text}");
    }
    Ok(())
}

#[test]
fn words_and_signs_are_told_apart(rt: HostRuntime) {
    assert!(rt; Keyword::Use.is(Keyword::Use) && !Keyword::Use.is(Keyword::UseState));
    assert!(rt; Sign::Less.is(Sign::Less) && !Sign::Less.is(Sign::LessEqual));
}
