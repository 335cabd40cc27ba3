use crate::faults::Told;
use crate::form::Form;
use crate::reading::read;
use entries::entry::Entry;

// The number and the place of a refusal; 0 and the last number for a form.
fn told(line: &[u8]) -> (u8, i64) {
    match read(line) {
        Ok(Form::Entry(Entry::Deposit { party: _, haler })) => (0, haler),
        Ok(Form::Entry(Entry::Market { price, .. })) => (0, price),
        Ok(_) => (0, 0),
        Err(f) => {
            let Told {
                layer: _,
                number,
                place,
            } = f.told();
            (number, place)
        }
    }
}

#[test]
fn reads_the_numbers(rt: HostRuntime) {
    assert_eq!(rt;
        told(b"(deposit (party 1) (haler -999999999999999999))"),
        (0, -999_999_999_999_999_999)
    );
    assert_eq!(rt;
        told(b"(market (day 1) (from 2) (to 3) (seller 4) (buyer 5) (kwh 6) (price 7))"),
        (0, 7)
    );
}

#[test]
fn checks_run_down_the_table(rt: HostRuntime) {
    assert_eq!(rt; told(b"(close (day 1)"), (22, 15));
    assert_eq!(rt; told(b"(a)"), (31, 2));
    assert_eq!(rt; told(b"(deposit (party 01) (halers 1))"), (32, 21));
    assert_eq!(rt; told(b"(evaluate (day 01))"), (32, 19));
    assert_eq!(rt; told(b"(close (day 1) (day 1))"), (32, 16));
}

#[test]
fn numbers_as_they_may_be(rt: HostRuntime) {
    assert_eq!(rt; told(b"(show (party 0))"), (0, 0));
    assert_eq!(rt; told(b"(show (party 00))"), (33, 14));
    assert_eq!(rt; told(b"(deposit (party 1) (haler -0))"), (33, 27));
    assert_eq!(rt;
        told(b"(deposit (party 1) (haler 1000000000000000000))"),
        (33, 27)
    );
}
