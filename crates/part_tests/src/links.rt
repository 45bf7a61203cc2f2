// Trees with numbers in them.

use rx_links::*;
use std::alloc::AllocError;

#[derive(Clone, Copy, Drop)]
struct Lanes {
    bits: u32,
}

impl Mark<u32> for Lanes {
    ghost use Rattle.std.specs.Prelude.{bit_or};

    ghost marked = { λ by v. record v { bits = bit_or v.bits by } };

    fn mark(&mut self, by: &u32) {
        self.bits |= *by;
    }
}

#[test]
fn swaps_and_discards(rt: HostRuntime) -> Result<(), AllocError> {
    let alloc = rt.alloc();
    let mut tree = FiberTree::new(alloc);
    let root = tree.start(1_u32)?;
    let _child = tree.child(root, None, 2)?;
    tree.swap();
    let _next = tree.start(3)?;
    tree.discard();
    assert_eq!(rt; tree.ids(alloc)?.len(), 2);
    Ok(())
}

#[test]
fn makes_one_behind(rt: HostRuntime) -> Result<(), AllocError> {
    let mut tree = FiberTree::new(rt.alloc());
    let root = tree.start(1_u32)?;
    let _behind = tree.child_behind(root, None, 2)?;
    assert_eq!(rt; tree.live(), 2);
    Ok(())
}

#[test]
fn marks_a_fiber(rt: HostRuntime) -> Result<(), AllocError> {
    let mut tree = FiberTree::new(rt.alloc());
    let root = tree.start(Lanes { bits: 1 })?;
    tree.swap();
    tree.mark(root, &4);
    assert_eq!(rt; tree.value(root).bits, 5);
    Ok(())
}
