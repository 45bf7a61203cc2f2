// What a render sees of the resources.
use rx_base::Int;
use std::marker::Model;

/// What a render sees of the resources, by their numbers (react.dev, use): the version of each, the value of that version if it has
/// one, and whether one of these versions is another than the last commit showed.
#[derive(Drop)]
pub struct Seen {
    pub versions: Vec<u64>,
    pub values: Vec<Option<Int>>,
    pub refreshes: bool,
}

impl Model for Seen {
    ghost use Rattle.rx_resources.specs.Seen.{Resources};

    ghost Value = { Resources };

    ghost view = { λ s. record { versions = s.versions.items; values = s.values.items; refreshes = s.refreshes } };
}
