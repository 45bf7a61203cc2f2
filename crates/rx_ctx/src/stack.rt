// A stack of what providers give.
ghost use Rattle.std.specs.Prelude.{◌≡◌, ◌<◌, ◌+◌, ◌^◌, [], Bool, true, not, length, slice_set, IfOk, OnOk, OnErr, MatchOption, if◌then◌else◌};
ghost use Rattle.rx_ctx.specs.Contexts.{below, moved_at, none_moved, opening, value_at, values_at};

use rx_base::Int;
use std::alloc::{AllocError, Global};
use std::marker::Model;

/// What a context had outside of a provider: its value, and whether that is another than at the old place.
#[derive(Clone, Copy, Debug)]
pub struct HiddenValue {
    context: u32,
    value: Int,
    other: bool,
}

/// The values of the contexts, which are numbered in the order of the program's text, at the place that a render has come
/// to (react.dev, useContext): it takes what a provider gives at its beginning and lets it go at its end. It also knows which of
/// them are other values than at the same place of the committed tree. Contracts see the defaults, what the providers above
/// gave, and which of them gave another value than their old nodes.
#[derive(Drop, Debug)]
pub struct ContextStack {
    values: Vec<Int>,
    others: Vec<bool>,
    other_count: usize,
    hidden: Vec<HiddenValue>,
}

impl Model for ContextStack {
    ghost use Rattle.std.specs.Prelude.{reverse};
    ghost use Rattle.rx_ctx.specs.Contexts.{Stack};
    ghost use Rattle.rx_ctx.specs.Hidden.{IsKept, stack_of};

    ghost Value = { Stack };

    ghost view = { λ s. stack_of s.values.items s.others.items (reverse s.hidden.items) };

    ghost invariant = { λ s. IsKept s.values.items s.others.items s.other_count (reverse s.hidden.items) };
}

// How many hold, if one of so many changes.
fn counted(count: usize, before: bool, after: bool) -> usize
    requires few { count < 2 ^ 63 }
    requires one { before ≡ true → 0 < count }
    ensures { result + (if before then 1 else 0) ≡ count + (if after then 1 else 0) }
{
    match (before, after) {
        (true, false) => count - 1,
        (false, true) => count + 1,
        _ => count,
    }
}

impl ContextStack {
    /// The contexts with their defaults, if no provider stands above.
    ///
    /// # Errors
    ///
    /// Only if out of memory.
    pub fn new(alloc: Global, defaults: &[Int]) -> Result<ContextStack, AllocError>
        ensures { IfOk result (λ s. s ≡ opening defaults.now) }
    {
        let values = Vec::from_slice(alloc, defaults)?;
        Ok(ContextStack {
            values,
            others: vec![in alloc; false; defaults.len()]?,
            other_count: 0,
            hidden: Vec::new(alloc),
        })
    }

    /// Goes below a provider, which gives a context this value: of the values here that one is written. `moves` tells whether
    /// it is another value than the provider's old node gave. An `Err` changes nothing.
    ///
    /// # Errors
    ///
    /// Only if out of memory.
    pub fn push(&mut self, context: u32, given: Int, moves: bool) -> Result<(), AllocError>
        requires { context < length (values_at self.old) }
        ensures ok { OnOk result (self.new ≡ below context given moves self.old) }
        ensures values { OnOk result (values_at self.new ≡ slice_set (values_at self.old) context given) }
        ensures err { OnErr result (self.new ≡ self.old) }
    {
        let value = self.values[context as usize];
        let other = self.others[context as usize];
        self.hidden.push(HiddenValue {
            context,
            value,
            other,
        })?;
        self.values[context as usize] = given;
        self.others[context as usize] = moves;
        self.other_count = counted(self.other_count, other, moves);
        Ok(())
    }

    /// Goes out of the nearest provider, and says what it gave to which context; `None` if no provider stands above.
    pub fn pop(&mut self) -> Option<(u32, Int)>
        ensures { MatchOption result ((self.old.given ≡ []) × (self.old.moves ≡ []) × (self.new ≡ self.old)) (λ p. (moves : Bool) × (self.old ≡ below p.0 p.1 moves self.new)) }
    {
        let hidden = self.hidden.pop()?;
        let context = hidden.context as usize;
        let given = self.values[context];
        let other = self.others[context];
        self.values[context] = hidden.value;
        self.others[context] = hidden.other;
        self.other_count = counted(self.other_count, other, hidden.other);
        Some((hidden.context, given))
    }

    /// Whether some context has another value here than at the same place of the committed tree: its nearest provider gave
    /// another one than its old node.
    pub fn has_moved(&self) -> bool
        ensures { result ≡ not (none_moved (moved_at self.now)) }
    {
        self.other_count != 0
    }

    /// What a context is here: what its nearest provider gives, else its default.
    pub fn read(&self, context: u32) -> Int
        requires { context < length (values_at self.now) }
        ensures { result ≡ value_at self.now context }
    {
        let index = context as usize;
        self.values[index]
    }

    /// The values of all contexts here, by their numbers.
    pub fn values(&self) -> &[Int]
        ensures { result.now ≡ values_at self.now }
    {
        &self.values
    }
}
