// What a queue answers over rows of renders and commits.
use rx_base::{Cut, Int};
use rx_lane::{Lane, Lanes};
use rx_queue::*;
use std::alloc::{AllocError, Global};
use std::test::Fail;

// A program whose functions all write a digit behind the state.
struct Digits;

impl Fold for Digits {
    ghost use Rattle.std.specs.Prelude.{pos};
    ghost use Rattle.std.specs.Int.{int_wrapping_add, int_wrapping_mul, w64};

    ghost answers = { λ _ f state x. int_wrapping_add w64 (int_wrapping_mul w64 state (pos 10)) x };

    fn apply(&self, op: &Op, state: Int) -> Int {
        match *op {
            Op::Set(x) => x,
            Op::Call(_, x) => Int::of(state.value().wrapping_mul(10).wrapping_add(x.value())),
            Op::Refresh => state,
        }
    }
}

fn push_digits(alloc: Global, ops: &[Op]) -> Result<Queue, AllocError> {
    let mut queue = Queue::new(alloc, Int::of(0));
    let mut number = 0;
    for (op, lane) in ops.iter().zip([Lane::Sync, Lane::T1, Lane::Sync, Lane::T1]) {
        queue.push(Update {
            number,
            op: *op,
            lane,
        })?;
        number = number.wrapping_add(1);
    }
    Ok(queue)
}

fn render(queue: &mut Queue, lane: Lane) -> i64 {
    let cut = Cut {
        updates: 4,
        resolutions: 0,
    };
    let processed = queue.process(&Digits, Lanes::one(lane), cut);
    queue.commit(processed);
    queue.committed().value()
}

fn call(digit: i64) -> Op {
    Op::Call(0, Int::of(digit))
}

// A render skips what has another lane, and the next one applies all again on top of it.
#[test]
fn skipped_updates_keep_their_place(rt: HostRuntime) -> Result<(), Fail> {
    let mut queue = push_digits(rt.alloc(), &[call(1), call(2), call(3), call(4)])?;
    assert_eq!(rt; render(&mut queue, Lane::Sync), 13);
    assert_eq!(rt; queue.pending_lanes(), Lanes::one(Lane::T1));
    assert_eq!(rt; render(&mut queue, Lane::T1), 1234);
    assert_eq!(rt; queue.pending_lanes(), Lanes::none());
    Ok(())
}

#[test]
fn a_plain_value_replaces_what_came_before(rt: HostRuntime) -> Result<(), Fail> {
    let set = Op::Set(Int::of(9));
    let mut queue = push_digits(rt.alloc(), &[call(1), call(2), set, call(4)])?;
    assert_eq!(rt; render(&mut queue, Lane::Sync), 9);
    assert_eq!(rt; render(&mut queue, Lane::T1), 94);
    Ok(())
}

// An owed update is included for any lane, and a later one of its lane is not.
#[test]
fn an_owed_update_does_not_wait_for_its_lane(rt: HostRuntime) -> Result<(), Fail> {
    let mut queue = push_digits(rt.alloc(), &[call(1), call(2), call(3), call(4)])?;
    let early = Cut {
        updates: 2,
        resolutions: 0,
    };
    queue.mark_owed(Lanes::one(Lane::T1), early);
    assert_eq!(rt; queue.work(Lanes::none(), early), Work::Owed);
    assert_eq!(rt; render(&mut queue, Lane::Sync), 123);
    assert_eq!(rt; render(&mut queue, Lane::T1), 1234);
    Ok(())
}
