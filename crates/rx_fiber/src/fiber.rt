// A fiber's value.
ghost use Rattle.std.specs.Prelude.{◌≡◌};
ghost use Rattle.rx_fiber.specs.Fibers as fibers;
ghost use Rattle.rx_fiber.specs.Fibers.{is_cloned, is_visible, generation_of, origin_of, nothing};
ghost use Rattle.rx_fiber.specs.FiberView.{stage_seen, changed};

use crate::stage::{Origin, Stage, StageChange};
use crate::subtree::{Subtree, own_subtree};
use rx_catch::CatchState;
use rx_elem::Element;
use rx_node::Mark;
use rx_susp::BoundaryState;
use std::marker::Model;

/// What a fiber holds beside its links: its place among the children of its parent, counted from 0 with the places that are
/// `null`; the element that stands there; how far it has come; and once it is done what is at or below it.
pub struct Fiber {
    place: u32,
    element: Element,
    stage: Stage,
    subtree: Subtree,
}

impl Model for Fiber {
    ghost use Rattle.rx_fiber.specs.Fibers as fibers;
    ghost use Rattle.rx_fiber.specs.FiberCode.{fiber_code};

    ghost Value = { fibers.Fiber };

    ghost coded = { fiber_code };

    ghost use Rattle.rx_fiber.specs.FiberView.{stage_seen};

    ghost view = { λ v. record { place = v.place; element = v.element; stage = stage_seen v.stage; subtree = v.subtree } };
}

// It is taken apart here alone, once for all crates.
impl Drop for Fiber {
    fn drop(self) {
        let Fiber {
            place: _place,
            element: _element,
            stage: _stage,
            subtree: _subtree,
        } = self;
    }
}

impl Fiber {
    /// A fiber of this place.
    pub fn new(place: u32, element: Element, stage: Stage) -> Fiber
        ensures { result ≡ record { place = place; element = element; stage = stage_seen stage; subtree = nothing } }
    {
        Fiber {
            place,
            element,
            stage,
            subtree: Subtree::nothing(),
        }
    }

    /// Its place among the children of its parent.
    pub fn place(&self) -> u32
        ensures { result ≡ self.now.place }
    {
        self.place
    }

    /// The element that stands there.
    pub fn element(&self) -> &Element
        ensures { result.now ≡ self.now.element }
    {
        &self.element
    }

    /// How far it has come.
    pub fn stage(&self) -> &Stage
        ensures { stage_seen result.now ≡ self.now.stage }
    {
        &self.stage
    }

    /// What is at or below it, once it is done.
    pub fn subtree(&self) -> Subtree
        ensures { result ≡ self.now.subtree }
    {
        self.subtree
    }

    /// Whether it waits with the element of the current fiber for which it was made.
    pub fn is_cloned(&self) -> bool
        ensures { result ≡ is_cloned self.now.stage }
    {
        match self.stage {
            Stage::Waiting(origin) => origin.cloned,
            _ => false,
        }
    }

    /// Whether it waits and the current fiber for which it was made, if it was for one, is shown.
    pub fn is_visible(&self) -> bool
        ensures { result ≡ is_visible self.now.stage }
    {
        match self.stage {
            Stage::Waiting(origin) => origin.visible,
            _ => false,
        }
    }

    /// What is known of its place, while it waits or tries its children.
    pub fn origin(&self) -> Origin
        ensures { result ≡ origin_of self.now.stage }
    {
        match self.stage {
            Stage::Waiting(origin) | Stage::Trying(origin) => origin,
            _ => Origin {
                cloned: false,
                visible: false,
                generation: 0,
            },
        }
    }

    /// The generation of its element, while it waits or tries its children.
    pub fn generation(&self) -> u32
        ensures { result ≡ generation_of self.now.stage }
    {
        self.origin().generation
    }

    /// Changes the stage.
    pub fn change(&mut self, by: StageChange)
        ensures { self.new ≡ changed by self.old }
    {
        match by {
            StageChange::Complete(below) => {
                self.stage.complete();
                self.subtree = own_subtree(&self.stage).join(below);
            }
            StageChange::Try(origin) => self.stage = Stage::Trying(origin),
            StageChange::Hide(awaits, below) => {
                self.stage = Stage::Begun(Mark::Boundary(BoundaryState::Hidden(awaits)));
                self.subtree = own_subtree(&self.stage).join(below);
            }
            StageChange::Catch(value) => {
                self.stage = Stage::Begun(Mark::Catch(CatchState::Caught { value }));
            }
            StageChange::Number(number) => self.stage.give_number(number),
        }
    }
}

impl rx_lists::Give<Stage> for Fiber {
    ghost use Rattle.rx_fiber.specs.FiberView.{staged};

    ghost given = { staged };

    fn give(&mut self, stage: Stage) {
        self.stage = stage;
    }
}

impl rx_lists::Mark<StageChange> for Fiber {
    ghost use Rattle.rx_fiber.specs.FiberView.{changed};

    ghost marked = { changed };

    fn mark(&mut self, by: &StageChange) {
        self.change(*by);
    }
}
