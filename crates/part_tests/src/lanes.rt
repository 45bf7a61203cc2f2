// Sets of lanes, by example.
use rx_lane::*;

#[test]
fn sets_answer_by_priority(rt: HostRuntime) {
    let both = Lanes::one(Lane::T16).union(Lanes::one(Lane::Input));
    assert_eq!(rt; both.highest(), Some(Lane::Input));
    assert_eq!(rt; both.transitions(), Lanes::one(Lane::T16));
    assert_eq!(rt;
        both.minus(Lanes::one(Lane::Input)).only_transitions(),
        true
    );
    assert_eq!(rt; both.within(both.union(Lanes::one(Lane::Retry))), true);
    assert_eq!(rt; both.meets(Lanes::one(Lane::Retry)), false);
    assert_eq!(rt; both.intersection(Lanes::none()).is_none(), true);
    assert_eq!(rt; Lanes::none().highest(), None);
}
