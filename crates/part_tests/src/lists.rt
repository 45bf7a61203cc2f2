// Lists with numbers in them.

use rx_arena::Arena;
use rx_lists::*;
use std::alloc::AllocError;

// A number that is given anew.
#[derive(Drop)]
struct Count {
    number: u32,
}

impl Give<u32> for Count {
    ghost given = { λ x c. record { number = x } };

    fn give(&mut self, what: u32) {
        self.number = what;
    }
}

#[test]
fn gives_a_value(rt: HostRuntime) -> Result<(), AllocError> {
    let mut arena = Arena::new(rt.alloc());
    arena.reserve(1)?;
    let id = make_root(&mut arena, None, Count { number: 5 });
    give_one(&mut arena, id, 6);
    assert_eq!(rt; arena.get(id).number, 6);
    Ok(())
}
