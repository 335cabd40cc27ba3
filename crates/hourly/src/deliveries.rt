ghost use Rattle.std.specs.Prelude.{◌≡◌, true};
ghost use Rattle.hourly.specs.Bounds.{deliveries_ok};

use super::direction::Direction;
use std::alloc::AllocError;
use std::marker::PhantomData;

// The regulating deliveries of one direction in an hour: total kWh as a magnitude, total of kWh × price in tenths, and the extreme price, which is absent until there is a delivery. None exist outside the bounds of their direction.
pub struct Deliveries<D: Direction> {
    pub kwh: u64,
    pub total: i64,
    pub extreme: Option<i64>,
    pub direction: PhantomData<D>,
    pub ghost sound: { deliveries_ok D.upward kwh total extreme ≡ true },
}

// By hand, since no derive writes it for a struct with a ghost field and a type parameter.
impl<D: Direction> Clone for Deliveries<D> {
    ghost is_clone = { λ x y. y ≡ x };

    ghost is_infallible = { λ _. Unit {0} };

    fn clone(&self) -> Result<Deliveries<D>, AllocError> {
        Ok(*self)
    }
}

impl<D: Direction> Copy for Deliveries<D> {}
