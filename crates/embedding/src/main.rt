//! A program that embeds the reconciler: it has no script, makes a root for a program of components, and calls it.
#![tactic(auto)]

ghost use Rattle.std.specs.Prelude.{◌≡◌};
ghost use Rattle.rx_root.specs.Stands.{StandsForSome};

mod screen;

use crate::screen::Screen;
use rx_accept::{Verdict, accept};
use rx_base::Steps;
use rx_check::Checked;
use rx_step::LaneWord;
use std::alloc::Global;
use std::io::{self, Write};
use std::marker::Brand;
use std::sync::ledger::{Blank, Ledger};

// A list of rows, and below it a user who is waited for.
const PROGRAM: &[u8] = b"
function Row({v}) { return <li>{v}</li>; }
function User() { const u = use(\"user\"); return <b>{u}</b>; }
function App() {
  const [n, setN] = useState(0);
  const [open, setOpen] = useState(0);
  return <ul>
    {for (i < 3, 3) <Row key={i} v={n + i}/>}
    {open ? <Suspense fallback={<i/>}><User/></Suspense> : null}
  </ul>;
}";

// The program, which meets every check.
fn program(alloc: Global) -> anyhow::Result<Checked> {
    match accept(alloc, PROGRAM)? {
        Verdict::Accepted { checked, .. } => Ok(checked),
        Verdict::ProgramRefused(_) | Verdict::ScriptRefused(_) => anyhow::bail!("refused"),
    }
}

// The lines of a root that is shown, and of what is sent to it.
fn show<L: Ledger>(screen: &mut Screen<L>, out: &mut impl Write) -> anyhow::Result<()>
    requires { StandsForSome screen.old.root }
{
    screen.flush()?;
    screen.tell(out)?;

    // A transition is rendered a unit at a time. A sync update interrupts it, and what it shows waits for the user.
    screen.set(LaneWord::Transition, "n", 10)?;
    screen.work(1)?;
    screen.work(1)?;
    screen.set(LaneWord::Sync, "open", 1)?;
    screen.flush_sync()?;
    screen.tell(out)?;

    // The user comes, and the rest is rendered unit by unit.
    screen.resolve("user", 7)?;
    screen.finish(1)?;
    screen.tell(out)
}

fn run<R: Print + AllocGlobal, L: Ledger>(rt: &R, blank: Blank) -> anyhow::Result<()>
    requires name { blank.name ≡ L.name }
    requires parts { blank.parts ≡ L.parts }
    requires one { blank.parts ≡ 1 }
{
    let alloc = rt.alloc();
    let steps = Steps::<L>::new(blank);
    let mut screen = Screen::new(alloc, program(alloc)?, steps)?;
    show(&mut screen, &mut io::writer(rt))
}

fn main(rt: HostRuntime) -> anyhow::Result<()> {
    run::<HostRuntime, Brand>(&rt, Blank::new(1))
}
