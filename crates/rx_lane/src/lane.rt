// The lanes of updates and renders.
ghost use Rattle.std.specs.Prelude.{◌≡◌};
ghost use Rattle.rx_lane.specs.Lanes.{is_higher, is_transition, priority};

/// The priority of an update or of a render, highest first (React's lanes): `Sync` for what must show at once,
/// `Input` for continuous input, `Default` for all else, `T1` to `T16` for transitions (react.dev, `startTransition`),
/// `Retry` for content that waited for data.
#[derive(Clone, Copy, Debug, PartialEq, Eq)]
pub enum Lane {
    Sync,
    Input,
    Default,
    T1,
    T2,
    T3,
    T4,
    T5,
    T6,
    T7,
    T8,
    T9,
    T10,
    T11,
    T12,
    T13,
    T14,
    T15,
    T16,
    Retry,
}

impl Lane {
    /// Every lane, by falling priority.
    pub const ALL: [Lane; 20] = [
        Lane::Sync,
        Lane::Input,
        Lane::Default,
        Lane::T1,
        Lane::T2,
        Lane::T3,
        Lane::T4,
        Lane::T5,
        Lane::T6,
        Lane::T7,
        Lane::T8,
        Lane::T9,
        Lane::T10,
        Lane::T11,
        Lane::T12,
        Lane::T13,
        Lane::T14,
        Lane::T15,
        Lane::T16,
        Lane::Retry,
    ];

    /// How many lanes are higher: 0 for `Sync`, 19 for `Retry`.
    pub fn priority(self) -> u32
        ensures { result ≡ priority self }
    {
        self as u32
    }

    /// True for `T1` to `T16`.
    pub fn is_transition(self) -> bool
        ensures { result ≡ is_transition self }
    {
        let place = self.priority();
        Lane::T1.priority() <= place && place <= Lane::T16.priority()
    }

    /// True if this lane comes strictly before the other.
    pub fn is_higher(self, other: Lane) -> bool
        ensures { result ≡ is_higher self other }
    {
        self.priority() < other.priority()
    }
}
