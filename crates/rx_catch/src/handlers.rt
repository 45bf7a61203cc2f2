// The boundaries around a place.
ghost use Rattle.std.specs.Prelude.{◌≡◌, [], ◌∷◌, ◌++◌, OnOk, OnErr, MatchOption};
ghost use Rattle.rx_catch.specs.Nearest.{nearest_boundary, nearest_catch};

use std::alloc::{AllocError, Global};
use std::marker::Model;

/// A boundary around a place, by its number: an error boundary, or one of Suspense.
#[derive(Clone, Copy, Debug, PartialEq, Eq)]
pub enum Handler {
    Catch(u32),
    Boundary(u32),
}

/// The boundaries around the place that a render has come to, the outermost first.
#[derive(Drop, Debug)]
pub struct Handlers {
    around: Vec<Handler>,
}

impl Model for Handlers {
    ghost use Rattle.std.specs.Prelude.{List};
    ghost use Rattle.rx_catch.specs.declared.handlers.Handler.{Handler};

    ghost Value = { List Handler };

    ghost view = { λ h. h.around.items };
}

// The last error boundary of a list.
fn last_catch(handlers: &[Handler]) -> Option<u32>
    ensures { result ≡ nearest_catch handlers.now }
{
    let mut last = None;
    'passing: for handler in handlers {
        if let Handler::Catch(number) = *handler {
            last = Some(number);
        }
    }
    last
}

// The last Suspense boundary of a list.
fn last_boundary(handlers: &[Handler]) -> Option<u32>
    ensures { result ≡ nearest_boundary handlers.now }
{
    let mut last = None;
    'passing: for handler in handlers {
        if let Handler::Boundary(number) = *handler {
            last = Some(number);
        }
    }
    last
}

impl Handlers {
    /// No boundary stands around.
    pub fn new(alloc: Global) -> Handlers
        ensures { result ≡ [] }
    {
        Handlers {
            around: Vec::new(alloc),
        }
    }

    /// Goes into a boundary. An `Err` changes nothing.
    ///
    /// # Errors
    ///
    /// Want of memory alone.
    pub fn push(&mut self, handler: Handler) -> Result<(), AllocError>
        ensures ok { OnOk result (self.new ≡ self.old ++ handler ∷ []) }
        ensures err { OnErr result (self.new ≡ self.old) }
    {
        self.around.push(handler)?;
        Ok(())
    }

    /// Goes out of the innermost boundary, and says which it was; `None` if none is around.
    pub fn pop(&mut self) -> Option<Handler>
        ensures { MatchOption result ((self.old ≡ []) × (self.new ≡ [])) (λ h. self.old ≡ self.new ++ h ∷ []) }
    {
        self.around.pop()
    }

    /// The nearest error boundary around.
    pub fn nearest_catch(&self) -> Option<u32>
        ensures { result ≡ nearest_catch self.now }
    {
        last_catch(&self.around)
    }

    /// The nearest Suspense boundary around.
    pub fn nearest_boundary(&self) -> Option<u32>
        ensures { result ≡ nearest_boundary self.now }
    {
        last_boundary(&self.around)
    }
}
