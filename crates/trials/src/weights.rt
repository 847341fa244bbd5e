use crate::bench::{flags, minutes};
use scale::Scale;
use scale::flags::Flags;
use scale::minutes::Minutes;
use scale::yes_no::YesNo;

#[test]
fn minutes_stop_at_ten_thousand(rt: HostRuntime) {
    let sums = [
        (6_000, 4_000, 10_000),
        (6_000, 4_001, 10_000),
        (6_000, 3_999, 9_999),
        (0, 7, 7),
        (10_000, 0, 10_000),
        (4_294_967_295, 4_294_967_295, 10_000),
    ];
    for (first, second, sum) in sums {
        assert_eq!(rt;
            minutes(first).extend(minutes(second)).map(Minutes::count),
            Some(sum)
        );
    }
}

#[test]
fn minutes_combine_to_the_smaller(rt: HostRuntime) {
    let pairs = [
        (3, 5, 3),
        (5, 3, 3),
        (12_000, 10_000, 10_000),
        (0, 10_000, 0),
    ];
    for (first, second, smaller) in pairs {
        assert_eq!(rt;
            minutes(first).combine(minutes(second)).map(Minutes::count),
            Some(smaller)
        );
    }
    assert_eq!(rt;
        Option::<Minutes>::none()
            .combine(minutes(9))
            .map(Minutes::count),
        Some(9)
    );
    assert_eq!(rt; minutes(9).extend(Option::none()).map(Minutes::count), None);
    assert!(rt; Some(Minutes { count: 10_001 }).same(minutes(10_000)));
}

#[test]
fn set_flags_widen_what_is_kept(rt: HostRuntime) {
    let wide = flags(1, 6);
    assert_eq!(rt; wide.map(Flags::keep), Some(7));
    assert_eq!(rt; wide.map(Flags::set), Some(6));
    assert!(rt; wide.same(flags(7, 6)));
    assert!(rt; !wide.same(flags(7, 4)));
    assert!(rt; !Option::<Flags>::none().same(flags(0, 0)));
}

#[test]
fn flags_extend_in_order(rt: HostRuntime) {
    let sets = flags(0xffff_ffff, 1);
    let clears = flags(0xffff_fffe, 0);
    assert!(rt; sets.extend(clears).same(flags(0xffff_fffe, 0)));
    assert!(rt; clears.extend(sets).same(flags(0xffff_ffff, 1)));
    assert!(rt; sets.combine(clears).same(sets));
}

#[test]
fn yes_and_no(rt: HostRuntime) {
    let yes = YesNo::one();
    let no = YesNo::none();
    assert!(rt; yes.combine(no).reached);
    assert!(rt; !yes.extend(no).reached);
    assert!(rt; !yes.same(no));
}
