// Hooks that keep a state.

/// A hook that keeps a state: its number among those of its component that keep one, counted from 0 in the order of the text.
#[derive(Clone, Copy, Debug, PartialEq, Eq)]
pub enum HookKind {
    /// `useState` (react.dev, useState).
    State { number: u32 },
    /// `useReducer` with the number of its function (react.dev, useReducer).
    Reducer { number: u32, function: u32 },
    /// `useTransition` (react.dev, useTransition).
    Transition { number: u32 },
}
