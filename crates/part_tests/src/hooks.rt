// What hooks answer over a render, a commit and transitions.
ghost use Rattle.std.specs.Prelude.{◌≡◌, length, IfOk};

use rx_base::{Cut, Int};
use rx_hooks::*;
use rx_lane::{Lane, Lanes};
use rx_queue::{Fold, Op, Update, Work};
use std::alloc::{AllocError, Global};
use std::test::Fail;

// A program whose functions all answer their argument.
struct Latest;

impl Fold for Latest {
    ghost answers = { λ _ f state x. x };

    fn apply(&self, op: &Op, state: Int) -> Int {
        match *op {
            Op::Set(x) | Op::Call(_, x) => x,
            Op::Refresh => state,
        }
    }
}

fn mounted(alloc: Global) -> Result<Hooks, AllocError>
    ensures { IfOk result (λ hooks. length hooks ≡ 2) }
{
    Hooks::mount(alloc, &[Int::of(5), Int::of(6)])
}

fn update(number: u64, value: i64, lane: Lane) -> Update {
    let op = Op::Set(Int::of(value));
    Update { number, op, lane }
}

const CUT: Cut = Cut {
    updates: 2,
    resolutions: 0,
};

#[test]
fn each_hook_has_a_state_of_its_own(rt: HostRuntime) -> Result<(), Fail> {
    let mut hooks = mounted(rt.alloc())?;
    hooks.reserve(1, 2)?;
    hooks.push(1, update(0, 7, Lane::Sync))?;
    hooks.push(1, update(1, 8, Lane::T1))?;
    let sync = Lanes::one(Lane::Sync);
    assert_eq!(rt; hooks.work(sync, CUT), Work::New);
    let values = hooks.render_values(rt.alloc(), &Latest, sync, CUT)?;
    assert_eq!(rt; values.as_slice(), [Int::of(5), Int::of(7)].as_slice());
    hooks.commit();
    assert_eq!(rt; hooks.work(sync, CUT), Work::Nothing);
    Ok(())
}
