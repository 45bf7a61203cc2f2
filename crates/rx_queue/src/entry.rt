// An update in its hook's history.
ghost use Rattle.std.specs.Prelude.{◌≡◌};
ghost use Rattle.rx_queue.specs.History.{is_included, is_new, is_owed_before, is_done, is_open, noted, settled, owed_after};

use crate::update::Update;
use rx_base::Cut;
use rx_lane::Lanes;

/// How an update stands: open, or done for good, or owed to content that is hidden.
#[derive(Clone, Copy, Debug, PartialEq, Eq)]
pub enum Standing {
    Open,
    Done,
    Owed,
}

/// An update, how it stands, and whether its hook's last processing included it.
#[derive(Clone, Copy, Debug, PartialEq, Eq)]
pub struct Entry {
    pub update: Update,
    pub standing: Standing,
    pub included: bool,
}

impl Entry {
    /// True if a render with these lanes at this cut includes the update.
    pub fn is_included(&self, lanes: Lanes, cut: Cut) -> bool
        ensures { result ≡ is_included lanes cut self.now }
    {
        self.update.number < cut.updates && (!self.is_open() || lanes.has(self.update.lane))
    }

    /// True if the update is neither done nor owed.
    pub fn is_open(&self) -> bool
        ensures { result ≡ is_open self.now }
    {
        self.standing == Standing::Open
    }

    /// True if the update is done.
    pub fn is_done(&self) -> bool
        ensures { result ≡ is_done self.now }
    {
        self.standing == Standing::Done
    }

    /// True if the update is included and neither done nor owed.
    pub fn is_new(&self, lanes: Lanes, cut: Cut) -> bool
        ensures { result ≡ is_new lanes cut self.now }
    {
        self.is_included(lanes, cut) && self.is_open()
    }

    /// True if the update is owed and lies before the cut.
    pub fn is_owed_before(&self, cut: Cut) -> bool
        ensures { result ≡ is_owed_before cut self.now }
    {
        self.update.number < cut.updates && self.standing == Standing::Owed
    }

    /// The entry once a processing noted whether it includes the update.
    pub fn noted(self, lanes: Lanes, cut: Cut) -> Entry
        ensures { result ≡ noted lanes cut self }
    {
        Entry {
            included: self.is_included(lanes, cut),
            ..self
        }
    }

    /// The entry after a commit of the last processing.
    pub fn settled(self) -> Entry
        ensures { result ≡ settled self }
    {
        if self.included {
            Entry {
                standing: Standing::Done,
                ..self
            }
        } else {
            self
        }
    }

    /// The entry after a commit that keeps the hook's content hidden.
    pub fn owed_after(self, lanes: Lanes, cut: Cut) -> Entry
        ensures { result ≡ owed_after lanes cut self }
    {
        if self.update.number < cut.updates && !self.is_done() && lanes.has(self.update.lane) {
            Entry {
                standing: Standing::Owed,
                ..self
            }
        } else {
            self
        }
    }
}
