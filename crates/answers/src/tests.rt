// The text of each answer, and the edges of what is answered.
use super::{Answer, write};

fn wrote(out: &[u8], len: Option<usize>, text: &[u8]) -> bool {
    len.is_some_and(|n| out.get(..n) == Some(text))
}

fn untouched(out: &[u8], from: usize) -> bool {
    out.iter().skip(from).all(|b| *b == 7)
}

#[test]
fn forms(rt: HostRuntime) {
    let mut out = [7u8; 4096];
    let n = write(&mut out, 1, &Answer::Accepted);
    assert!(rt; wrote(&out, n, b"(ok (line 1))\n"));
    assert!(rt; untouched(&out, 14));
    let n = write(
        &mut out,
        999_999_999,
        &Answer::Refused {
            layer: 3,
            number: 2,
            place: i64::MIN,
        },
    );
    assert!(rt;
        wrote(
            &out,
            n,
            b"(no (line 999999999) (layer 3) (number 2) (place -9223372036854775808))\n",
        )
    );
    assert!(rt; untouched(&out, 72));
    let n = write(
        &mut out,
        7,
        &Answer::Statement {
            party: 2,
            balance: -6_978_456,
            need: 0,
        },
    );
    assert!(rt;
        wrote(
            &out,
            n,
            b"(show (line 7) (party 2) (balance -6978456) (need 0))\n",
        )
    );
}

#[test]
fn payments(rt: HostRuntime) {
    let mut out = [7u8; 4096];
    let mut payments = [i64::MIN; 20];
    let n = write(
        &mut out,
        6,
        &Answer::Paid {
            parties: 0,
            payments,
            operator: 10,
        },
    );
    assert!(rt; wrote(&out, n, b"(operator (line 6) (haler 10))\n"));
    payments[0] = 5;
    payments[1] = -5;
    let n = write(
        &mut out,
        6,
        &Answer::Paid {
            parties: 2,
            payments,
            operator: 0,
        },
    );
    assert!(rt;
        wrote(
            &out,
            n,
            b"(pay (line 6) (party 1) (haler 5))\n(pay (line 6) (party 2) (haler -5))\n(operator (line 6) (haler 0))\n",
        )
    );
    let all = write(
        &mut out,
        999_999_999,
        &Answer::Paid {
            parties: 20,
            payments,
            operator: i64::MIN,
        },
    );
    assert_eq!(rt;
        write(
            &mut out,
            999_999_999,
            &Answer::Paid {
                parties: 21,
                payments,
                operator: i64::MIN,
            },
        ),
        all
    );
}

#[test]
fn refused(rt: HostRuntime) {
    let mut short = [7u8; 4095];
    assert_eq!(rt; write(&mut short, 1, &Answer::Accepted), None);
    assert!(rt; untouched(&short, 0));
    let mut out = [7u8; 4096];
    assert_eq!(rt; write(&mut out, 0, &Answer::Accepted), None);
    assert_eq!(rt; write(&mut out, -1, &Answer::Accepted), None);
    assert_eq!(rt; write(&mut out, 1_000_000_000, &Answer::Accepted), None);
    assert!(rt; untouched(&out, 0));
}
