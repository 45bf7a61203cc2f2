// That calls succeed with memory at hand, and that the style and the script stand in a page as they are.
use run_page::*;
use rx_lane::{Lane, Lanes};
use rx_page::escape;
use rx_sched::Choice;
use std::alloc::{AllocError, Global};
use std::test::Fail;

fn view(alloc: Global, lines: &[u8], tree: &[u8]) -> Result<View, AllocError> {
    Ok(View {
        title: Vec::from_slice(alloc, b"work 3")?,
        lines: Vec::from_slice(alloc, lines)?,
        yields: true,
        tree: Vec::from_slice(alloc, tree)?,
        hooks: Vec::from_slice(alloc, b"state\n")?,
        facts: Facts {
            pending: Lanes::one(Lane::Sync).union(Lanes::one(Lane::T1)),
            suspended: Lanes::none(),
            expired: Lanes::none(),
            rendering: Some(Rendering {
                lanes: Lanes::one(Lane::T1),
                units: 3,
                bodies: 1,
            }),
            next: Choice::Start(Lanes::one(Lane::Sync)),
            hidden: 0,
            time: 7,
        },
    })
}

#[test]
fn a_step_has_its_marks_and_its_section(rt: HostRuntime) -> Result<(), Fail> {
    let alloc = rt.alloc();
    let mut book = Book::new(alloc);
    book.put(&view(alloc, b"defer T1 units 5 bodies 2\n", b"tree\n")?)?;
    assert_eq!(rt;
        book.links().bytes(),
        b"<li><a href=\"#step-0\"><code>work 3</code></a> <mark class=\"defer\">defer T1 units 5 bodies 2</mark> <mark class=\"yield\">yield</mark></li>".as_slice()
    );
    let html = page(alloc, b"</script>", &book)?;
    assert!(rt; html.starts_with(b"<!DOCTYPE html>\n<html lang=\"en\"><head>"));
    Ok(())
}

#[test]
fn style_and_script_need_no_escape(rt: HostRuntime) -> Result<(), Fail> {
    let alloc = rt.alloc();
    assert_eq!(rt; escape(alloc, STYLE)?.as_slice(), STYLE);
    assert_eq!(rt; escape(alloc, SCRIPT)?.as_slice(), SCRIPT);
    Ok(())
}
