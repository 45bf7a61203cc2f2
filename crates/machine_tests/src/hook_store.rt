// What a store answers over a dispatch, a render and a commit.
ghost use Rattle.std.specs.Prelude.{◌≡◌, length, IfOk, IsSomeAnd};
ghost use Rattle.rx_hook_store.specs.Store.{kept_hooks};

use rx_base::{Cut, Int};
use rx_hook_store::HookStore;
use rx_hooks::Hooks;
use rx_lane::{Lane, Lanes};
use rx_queue::{Fold, Op, Update};
use rx_step::LaneWord;
use std::alloc::{AllocError, Global};
use std::test::Fail;

// A program whose functions all answer their argument.
struct Latest;

impl Fold for Latest {
    ghost answers = { λ _ f state x. x };

    fn apply(&self, op: &Op, state: Int) -> Int {
        match *op {
            Op::Set(x) | Op::Call(_, x) => x,
            Op::Refresh => state,
        }
    }
}

// A store with one hook of the instance 7.
fn with_hook(alloc: Global) -> Result<HookStore, AllocError>
    ensures { IfOk result (λ store. IsSomeAnd (kept_hooks store 7) (λ hooks. length hooks ≡ 1)) }
{
    let mut store = HookStore::new(alloc);
    store.reserve(1)?;
    let hooks = Hooks::mount(alloc, &[Int::of(5)])?;
    store.insert(7, hooks);
    Ok(store)
}

#[test]
fn a_dispatch_is_rendered(rt: HostRuntime) -> Result<(), Fail> {
    let mut store = with_hook(rt.alloc())?;
    let op = Op::Set(Int::of(8));
    let update = Update {
        number: 0,
        op,
        lane: Lane::T1,
    };
    let lanes = Lanes::one(Lane::T1);
    let linked = store.dispatch(7, 0, LaneWord::Transition, update, Lanes::none())?;
    assert_eq!(rt; linked, Some(lanes));
    let cut = Cut {
        updates: 1,
        resolutions: 0,
    };
    assert!(rt; store.stirred().is_some_and(|numbers| numbers.has(7)));
    assert!(rt; store.has_work(7, lanes, cut));
    assert!(rt; !store.has_work(7, Lanes::none(), cut));
    assert!(rt; store.has_news(7, lanes, cut));
    assert!(rt; !store.has_news(7, Lanes::none(), cut));
    let working = store.working(rt.alloc(), lanes, cut)?;
    assert!(rt; working.has(7));
    assert_eq!(rt; working.members().len(), 1);
    assert!(rt; store.working(rt.alloc(), Lanes::none(), cut)?.is_empty());
    store.owe_instance(7, lanes, cut);
    assert!(rt; store.has_work(7, lanes, cut));
    assert!(rt; !store.has_news(7, lanes, cut));
    let values = store.render_values(rt.alloc(), 7, &Latest, lanes, cut)?;
    assert_eq!(rt; values.as_slice(), [Int::of(8)].as_slice());
    store.commit_instance(7);
    assert!(rt; store.stirred().is_some_and(|numbers| numbers.is_empty()));
    assert!(rt; store.working(rt.alloc(), lanes, cut)?.is_empty());
    Ok(())
}
