// The two directions of regulating deliveries: what tells them apart is which price is the extreme one.
ghost use Rattle.std.specs.Prelude.{◌≡◌, Bool, true, false};
ghost use Rattle.hourly.specs.Bounds.{further, not_beyond};

pub trait Direction {
    ghost upward: { Bool };

    // Whether a total is not beyond kWh × extreme price.
    fn admits(total: i64, limit: i64) -> bool
        ensures { result ≡ not_beyond upward total limit };

    // The extreme one of two prices.
    fn extreme(former: i64, price: i64) -> i64
        ensures { result ≡ further upward former price };
}

#[derive(Clone, Copy)]
pub struct Upward;

#[derive(Clone, Copy)]
pub struct Downward;

impl Direction for Upward {
    ghost upward = { true };

    fn admits(total: i64, limit: i64) -> bool {
        total <= limit
    }

    fn extreme(former: i64, price: i64) -> i64 {
        former.max(price)
    }
}

impl Direction for Downward {
    ghost upward = { false };

    fn admits(total: i64, limit: i64) -> bool {
        limit <= total
    }

    fn extreme(former: i64, price: i64) -> i64 {
        former.min(price)
    }
}
