// The places of a render in progress, and the fibers that it makes for them.
ghost use Rattle.std.specs.Prelude.{◌+◌, ◌*◌, ◌≤◌, ℕ, Option};
ghost use Rattle.rx_ast.specs.Syntax.{Program};
ghost use Rattle.rx_rules.specs.Bounds.{node_bound};
ghost use Rattle.rx_rules.specs.Versions.{node_limit};
ghost use Rattle.rx_rules.specs.Keys.{KeysApart};
ghost use Rattle.rx_elem.specs.Trees.{Node};
ghost use Rattle.rx_meaning.specs.Fresh.{IsTree};
ghost use Rattle.rx_meaning.specs.Cursor.{Cursor, StandsAtNode};
ghost use Rattle.rx_elem.specs.Spots.{node_count};
ghost use Rattle.rx_ctx.specs.Contexts.{Stack};
ghost use Rattle.rx_lists.specs.Shapes.{Shape, size};
ghost use Rattle.rx_links.specs.Drafts.{Trees, made_size};
ghost use Rattle.rx_fiber.specs.Fibers.{Fiber};
ghost use Rattle.rx_fiber.specs.Reading.{IsTreeOf};
ghost use Rattle.rx_fiber.specs.Standing.{StandsAt};
ghost use Rattle.room_laws.specs.Reached.{IsReached};
ghost use Rattle.room_laws.specs.Places.{places_in};

/// A render of a program over one of its trees never has more places at once than the bound on nodes: those of the nodes
/// that are done or open, of what boundaries keep, and of the elements that are still to begin.
pub fn cursors_have_room()
    ensures { (p : Program) (tree : Option Node) (c : Cursor) → KeysApart p → node_bound p ≤ node_limit p → IsTree p tree
        → IsReached p tree c → places_in c ≤ node_bound p }
{}

/// A tree of fibers has at most two for each node, and a render in progress has made at most one for each of its places.
/// So the current tree and the one in progress together never have more than three for each node of the bound.
pub fn fibers_have_room()
    ensures made { (t : Trees Fiber) (st : Stack) (at : Option ℕ) (c : Cursor) → StandsAtNode c → StandsAt t st at c
        → made_size t.draft ≤ places_in c }
    ensures current { (tree : Option Node) (s : Shape Fiber) → IsTreeOf tree s → size s ≤ 2 * node_count tree }
    ensures both { (p : Program) (tree : Option Node) (t : Trees Fiber) (st : Stack) (at : Option ℕ) (c : Cursor) → KeysApart p
        → node_bound p ≤ node_limit p → IsTree p tree → IsTreeOf tree t.current → IsReached p tree c → StandsAtNode c
        → StandsAt t st at c → size t.current + made_size t.draft ≤ 3 * node_bound p }
{}
