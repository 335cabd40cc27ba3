// The edges of each range, each refusal and their order, and the figures of both rules.
use super::Sharing;
use super::largest_remainder::LargestRemainder;
use super::refusal::SharingRefusal;
use super::running::Running;
use refusals::Tells;
use std::process::Abort;

// A page that no answer leaves so.
const BEFORE: [i64; 20] = [7; 20];

// Checks that the rule fills the page with these parts, and 0 past them.
fn shares<S: Sharing>(rt: &impl Abort, rule: &S, remainder: i64, weights: &[i64], first: [i64; 3]) {
    let mut parts = BEFORE;
    assert!(rt; rule.share(remainder, weights, &mut parts).is_ok());
    let mut expected = [0; 20];
    expected[..3].copy_from_slice(&first);
    assert_eq!(rt; parts, expected);
}

// Checks that the rule refuses with 4 and this place, and leaves the page.
fn refuses<S: Sharing>(
    rt: &impl Abort,
    rule: &S,
    remainder: i64,
    weights: &[i64],
    refusal: SharingRefusal,
    place: i64,
) {
    let mut parts = BEFORE;
    assert_eq!(rt; rule.share(remainder, weights, &mut parts), Err(refusal));
    assert_eq!(rt; refusal.number(), 4);
    assert_eq!(rt; refusal.place(), place);
    assert_eq!(rt; parts, BEFORE);
}

#[test]
fn running_takes_differences(rt: HostRuntime) {
    shares(&rt, &Running, 10, &[1, 1, 1], [3, 3, 4]);
    shares(&rt, &Running, -10, &[1, 1, 1], [-3, -3, -4]);
    shares(&rt, &Running, 45_000, &[900, 1_050], [20_769, 24_231, 0]);
}

#[test]
fn largest_remainder_serves_lower_parties_first(rt: HostRuntime) {
    shares(&rt, &LargestRemainder, 10, &[1, 1, 1], [4, 3, 3]);
    shares(&rt, &LargestRemainder, -10, &[1, 1, 1], [-4, -3, -3]);
    shares(&rt, &LargestRemainder, 10, &[1, 2, 4], [1, 3, 6]);
    shares(&rt, &LargestRemainder, 11, &[1, 1, 1], [4, 4, 3]);
}

#[test]
fn nothing_goes_to_no_weight(rt: HostRuntime) {
    shares(&rt, &Running, 10, &[0, 0], [0, 0, 0]);
    shares(&rt, &Running, 10, &[], [0, 0, 0]);
    shares(&rt, &Running, 10, &[0, 3, 0], [0, 10, 0]);
    shares(&rt, &LargestRemainder, 10, &[0, 0], [0, 0, 0]);
    shares(&rt, &LargestRemainder, 10, &[], [0, 0, 0]);
    shares(&rt, &LargestRemainder, 10, &[0, 3, 0], [0, 10, 0]);
}

#[test]
fn remainders_end_at_their_limit(rt: HostRuntime) {
    shares(
        &rt,
        &Running,
        600_000_000_000,
        &[499_999, 499_999],
        [300_000_000_000, 300_000_000_000, 0],
    );
    shares(
        &rt,
        &LargestRemainder,
        -600_000_000_000,
        &[499_999],
        [-600_000_000_000, 0, 0],
    );
    refuses(
        &rt,
        &Running,
        600_000_000_001,
        &[1],
        SharingRefusal::Remainder {
            halers: 600_000_000_001,
        },
        600_000_000_001,
    );
    refuses(
        &rt,
        &LargestRemainder,
        -600_000_000_001,
        &[1],
        SharingRefusal::Remainder {
            halers: -600_000_000_001,
        },
        -600_000_000_001,
    );
    refuses(
        &rt,
        &Running,
        i64::MIN,
        &[1],
        SharingRefusal::Remainder { halers: i64::MIN },
        i64::MIN,
    );
}

#[test]
fn twenty_weights_are_taken(rt: HostRuntime) {
    let mut parts = BEFORE;
    assert!(rt;
        Running
            .share(600_000_000_000, &[499_999; 20], &mut parts)
            .is_ok()
    );
    assert_eq!(rt; parts, [30_000_000_000; 20]);
    assert!(rt;
        LargestRemainder
            .share(-600_000_000_000, &[499_999; 20], &mut parts)
            .is_ok()
    );
    assert_eq!(rt; parts, [-30_000_000_000; 20]);
    refuses(
        &rt,
        &Running,
        1,
        &[1; 21],
        SharingRefusal::Count { weights: 21 },
        21,
    );
    refuses(
        &rt,
        &LargestRemainder,
        1,
        &[1; 21],
        SharingRefusal::Count { weights: 21 },
        21,
    );
}

#[test]
fn weights_end_at_their_limits(rt: HostRuntime) {
    shares(&rt, &Running, 5, &[0, 499_999], [0, 5, 0]);
    refuses(
        &rt,
        &Running,
        5,
        &[1, 500_000, -1],
        SharingRefusal::Weight { kwh: 500_000 },
        500_000,
    );
    refuses(
        &rt,
        &LargestRemainder,
        5,
        &[1, -1, 500_000],
        SharingRefusal::Weight { kwh: -1 },
        -1,
    );
}

#[test]
fn the_first_reason_is_told(rt: HostRuntime) {
    refuses(
        &rt,
        &Running,
        600_000_000_001,
        &[-1; 21],
        SharingRefusal::Remainder {
            halers: 600_000_000_001,
        },
        600_000_000_001,
    );
    refuses(
        &rt,
        &LargestRemainder,
        1,
        &[-1; 21],
        SharingRefusal::Count { weights: 21 },
        21,
    );
}
