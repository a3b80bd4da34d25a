ghost use Rattle.std.specs.Prelude.{◌≡◌, Option};

/// What becomes of the value of a tube.
pub trait ValueChange<V: Copy>: Drop + Sized {
    ghost after: { Self → Option V → V };

    /// The value after the change, of a tube that had this one or none.
    fn after(self, before: Option<V>) -> V
        ensures { result ≡ after self before };
}

/// The tube has this value, whatever it had before.
#[derive(Drop)]
pub struct To<V: Copy> {
    pub value: V,
}

impl<V: Copy> ValueChange<V> for To<V> {
    ghost after = { λ to before. to.value };

    fn after(self, _before: Option<V>) -> V
        ensures { result ≡ self.value }
    {
        self.value
    }
}
