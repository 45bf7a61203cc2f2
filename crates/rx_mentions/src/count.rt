// What is counted.

/// What is counted in a program or in a part of it.
#[derive(Clone, Copy, Debug, PartialEq, Eq)]
pub enum Count {
    /// Bytes of a name, or of a resource's name.
    Name,
    /// Bytes between quotes.
    Text,
    /// Declarations of the program.
    Declarations,
    /// Parameters of a function or a component.
    Parameters,
    /// Statements before a `return`.
    Statements,
    /// Attributes of an element, with `key`.
    Attributes,
    /// Values of an effect.
    Dependencies,
    /// The greatest count of items of a `for`.
    List,
    /// Different resources of the program.
    Resources,
    /// Levels of a tree of the program.
    Depth,
}
