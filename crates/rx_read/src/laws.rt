// What holds of the numbers from one commit to the next.
ghost use Rattle.rx_elem.specs.Numbers.{Numbers, numbered};
ghost use Rattle.rx_elem.specs.Trees.{Node};
ghost use Rattle.rx_lists.specs.Shapes.{none};
ghost use Rattle.rx_links.specs.Drafts.{Draft, grafted};
ghost use Rattle.rx_fiber.specs.Fibers.{Fiber};
ghost use Rattle.rx_fiber.specs.Reading.{IsTreeOf};
ghost use Rattle.rx_read.specs.Numbering.{IsAllNumbered};
ghost use Rattle.std.specs.Prelude.{Some};

/// Each node of the current tree has its number: so it is while there is none, and again once a tree in progress that got its
/// numbers is the current one.
pub fn current_trees_have_numbers()
    ensures first { (w : Draft Fiber) → IsAllNumbered (record { current = none; draft = w }) }
    ensures swapped { (next : Numbers) (x : Node) (w d : Draft Fiber) → IsTreeOf (Some (numbered next x).1) (grafted w) → IsAllNumbered (record { current = grafted w; draft = d }) }
{}
