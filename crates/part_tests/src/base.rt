// The base types, by example.
ghost use Rattle.std.specs.Prelude.{◌≡◌};

use rx_base::*;
use std::marker::Brand;
use std::sync::ledger::{Blank, Ledger};
use std::test::Fail;

#[test]
fn integers_wrap_at_their_width(rt: HostRuntime) {
    for (width, value, want) in [
        (Width::W32, 2147483647, -2147483648),
        (Width::W64, 2147483647, 2147483648),
        (Width::W64, 9223372036854775807, -9223372036854775808),
    ] {
        let sum = Int::add(width, Int::of(value), Int::of(1));
        assert_eq!(rt; sum.value(), want, "1 and {value}");
    }
}

#[test]
fn quotients_are_cut_toward_zero(rt: HostRuntime) {
    let smallest = Int::of(-2147483648);
    let minus_one = Int::of(-1);
    assert_eq!(rt;
        Int::div(Width::W32, smallest, minus_one).value(),
        -2147483648
    );
    assert_eq!(rt;
        Int::div(Width::W64, smallest, minus_one).value(),
        2147483648
    );
    assert_eq!(rt; Int::rem(Width::W32, smallest, minus_one).value(), 0);
    assert_eq!(rt; Int::rem(Width::W64, Int::of(-7), Int::of(3)).value(), -1);
}

#[test]
fn a_text_is_put_in_quotes(rt: HostRuntime) -> Result<(), Fail> {
    let text = Str::new(rt.alloc(), "a b")?;
    let quoted = quote(rt.alloc(), text.text())?;
    assert_eq!(rt; quoted.text(), "\"a b\"");
    Ok(())
}

#[test]
fn a_name_has_its_text(rt: HostRuntime) -> Result<(), Fail> {
    let name = Name::new(rt.alloc(), "App")?;
    assert_eq!(rt; name.text(), "App");
    Ok(())
}

#[test]
fn awaits_join(rt: HostRuntime) {
    let both = Awaits::one(3).union(Awaits::one(63));
    assert_eq!(rt; both.has(3) && both.has(63), true);
    assert_eq!(rt; both.has(4) || both.has(67), false);
    assert_eq!(rt; both.is_none(), false);
    assert_eq!(rt; Awaits::none().is_none(), true);
}

fn count_two<L: Ledger>(blank: Blank)
    requires name { blank.name ≡ L.name }
    requires parts { blank.parts ≡ L.parts }
    requires one { blank.parts ≡ 1 }
{
    let mut steps: Steps<L> = Steps::new(blank);
    steps.tick();
    steps.tick();
}

#[test]
fn steps_count_for_a_ledger() {
    count_two::<Brand>(Blank::new(1));
}
