// Elements that are as before.
ghost use Rattle.std.specs.Prelude.{◌≡◌, Some, is_some};
ghost use Rattle.rx_fiber.specs.Fibers as fibers;
ghost use Rattle.rx_links.specs.Drafts.{old_of};
ghost use Rattle.rx_links.specs.Readers.{made_value_of};
ghost use Rattle.rx_children.specs.Nodes.{IsBareAt, parts_in};
ghost use Rattle.rx_children.specs.Origins.{KnowsClone, TellsAgain};

use rx_children::{is_again, is_component};
use rx_fiber::Fiber;
use rx_links::{FiberId, FiberTree};

/// Whether the element of a place's fiber is that of the current fiber for which it was made, given again; or it is equal to that,
/// and a component's, whose body would give the same again. So each component is skipped as one is that is declared by `memo`
/// (react.dev, memo).
pub(crate) fn is_as_before(tree: &FiberTree<Fiber>, at: FiberId) -> bool
    requires bare { IsBareAt tree.now at }
    requires clone { KnowsClone tree.now at }
    ensures { (v : fibers.Fiber) → Some v ≡ made_value_of tree.now.draft at → TellsAgain (is_some (parts_in v.element)) tree.now.current (old_of tree.now.draft at) v result }
{
    tree.place_facts();
    let component = is_component(tree.value(at).element());
    is_again(tree, at, component)
}
