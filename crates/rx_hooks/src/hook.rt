// One hook.
use rx_lane::Lanes;
use rx_queue::{Processed, Queue};

/// A hook: its queue, what its last render gave, and the transition lanes that it links.
#[derive(Drop)]
pub struct Hook {
    pub queue: Queue,
    pub processed: Processed,
    pub linked: Lanes,
}
