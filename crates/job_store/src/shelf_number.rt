ghost use Rattle.std.specs.Prelude.{◌≡◌, ℕ};
ghost use Rattle.std.specs.Ordering.{nat_cmp};

/// The number by which a shelf is ordered.
pub trait ShelfNumber: Ord + Copy + Drop + Sized {
    ghost value: { Self → ℕ };

    /// The least number.
    fn zero() -> Self
        ensures { value result ≡ 0 };

    /// The same number in 64 bits.
    fn wide(&self) -> u64
        ensures { result ≡ value self.now };

    ghost in_order: { (x y : Self) → Self.cmp x y ≡ nat_cmp (value x) (value y) };
}

impl ShelfNumber for u32 {
    ghost use Rattle.std.specs.Prelude.{refl};

    ghost value = { λ n. n };

    ghost in_order = { λ x y. refl };

    fn zero() -> Self {
        0
    }

    fn wide(&self) -> u64 {
        u64::from(*self)
    }
}

impl ShelfNumber for u64 {
    ghost use Rattle.std.specs.Prelude.{refl};

    ghost value = { λ n. n };

    ghost in_order = { λ x y. refl };

    fn zero() -> Self {
        0
    }

    fn wide(&self) -> u64 {
        *self
    }
}
