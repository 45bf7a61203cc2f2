// A root with its report and its counter.
ghost use Rattle.std.specs.Prelude.{IfOk};
ghost use Rattle.rx_root.specs.Stands.{StandsForSome};

use anyhow::ensure;
use rx_base::{Int, Name, Steps};
use rx_check::Checked;
use rx_report::Report;
use rx_root::Root;
use rx_step::{Dispatch, LaneWord, Path};
use std::alloc::Global;
use std::io::Write;
use std::sync::ledger::Ledger;

/// A root with the report that it writes, and the counter of the bodies that it evaluates.
#[derive(Drop)]
pub(crate) struct Screen<L: Ledger> {
    alloc: Global,
    root: Root,
    log: Report,
    steps: Steps<L>,
}

impl<L: Ledger> Screen<L> {
    /// A screen before its first render.
    pub(crate) fn new(alloc: Global, checked: Checked, steps: Steps<L>) -> anyhow::Result<Screen<L>>
        ensures { IfOk result (λ screen. StandsForSome screen.root) }
    {
        let root = Root::new(alloc, checked)?;
        let log = Report::new(alloc, false, false);
        Ok(Screen {
            alloc,
            root,
            log,
            steps,
        })
    }

    /// Sets the state of a hook of `App`.
    pub(crate) fn set(&mut self, word: LaneWord, hook: &str, value: i64) -> anyhow::Result<u64>
        requires { StandsForSome self.old.root }
        ensures { StandsForSome self.new.root }
    {
        let app = Name::new(self.alloc, "App")?;
        let path = Path::new(self.alloc, vec![in self.alloc; (app, 0)]?)?;
        let hook = Name::new(self.alloc, hook)?;
        let dispatch = Dispatch::Set(word, path, hook, Int::of(value));
        ensure!(self.root.has_room(), "no room");
        ensure!(self.root.can_dispatch(&dispatch), "no such hook");
        Ok(self.root.dispatch(&dispatch)?)
    }

    /// Gives a resource its value.
    pub(crate) fn resolve(&mut self, name: &str, value: i64) -> anyhow::Result<()>
        requires { StandsForSome self.old.root }
        ensures { StandsForSome self.new.root }
    {
        let name = Name::new(self.alloc, name)?;
        ensure!(self.root.has_room(), "no room");
        ensure!(self.root.has_resource(&name), "no such resource");
        Ok(self.root.resolve(&name, Int::of(value))?)
    }

    /// Renders so many units at most.
    pub(crate) fn work(&mut self, units: u64) -> anyhow::Result<()>
        requires { StandsForSome self.old.root }
        ensures { StandsForSome self.new.root }
    {
        ensure!(self.root.has_room(), "no room");
        ensure!(0 < units, "no units");
        Ok(self.root.work(units, &mut self.log, &mut self.steps)?)
    }

    /// Renders all that is pending.
    pub(crate) fn flush(&mut self) -> anyhow::Result<()>
        requires { StandsForSome self.old.root }
        ensures { StandsForSome self.new.root }
    {
        ensure!(self.root.has_room(), "no room");
        Ok(self.root.flush(&mut self.log, &mut self.steps)?)
    }

    /// Renders what is pending with the lane Sync.
    pub(crate) fn flush_sync(&mut self) -> anyhow::Result<()>
        requires { StandsForSome self.old.root }
        ensures { StandsForSome self.new.root }
    {
        ensure!(self.root.has_room(), "no room");
        Ok(self.root.flush_sync(&mut self.log, &mut self.steps)?)
    }

    /// Renders so many units at a time until nothing is pending, and runs the passive effects.
    pub(crate) fn finish(&mut self, units: u64) -> anyhow::Result<()>
        requires { StandsForSome self.old.root }
        ensures { StandsForSome self.new.root }
    {
        for _turn in 0..1_000u32 {
            if self.root.pending().is_none() {
                break;
            }
            self.work(units)?;
        }
        Ok(self.root.passive(&mut self.log)?)
    }

    /// Tells what was rendered since it last did, and what is shown by now.
    pub(crate) fn tell(&mut self, out: &mut impl Write) -> anyhow::Result<()>
        requires { StandsForSome self.old.root }
        ensures { StandsForSome self.new.root }
    {
        self.root.tree(&mut self.log)?;
        self.root.end_line(&mut self.log)?;
        out.write_all(self.log.bytes())?;
        self.log.cut(0);
        Ok(())
    }
}
