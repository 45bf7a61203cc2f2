//! Lists of linked fibers in an arena: how they are made, read, marked and released. The two trees stand on it.
#![tactic(auto)]

mod links;
mod make;
mod mark;
mod release;
mod returns;
mod walk;

pub use links::old_children;
pub use make::{make_behind, make_child, make_root};
pub use mark::{Give, Mark, give_one, mark_list, mark_one, mark_up};
pub use release::{own_children, release_list};
pub use returns::adopt;
pub use walk::ids_into;
