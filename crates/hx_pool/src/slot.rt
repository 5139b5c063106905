ghost use Rattle.std.specs.Prelude.{◌≡◌, IsSome, Some};
ghost use Rattle.std.specs.Borrow.{Lends, sem};
ghost use Rattle.hx_pool.specs.Slots.{value_of};

/// What a slot holds: where it is free, the number of the next free slot, and else a value.
#[derive(Drop)]
pub(crate) enum Slot<T> {
    Free(Option<usize>),
    Live(T),
}

impl<T> Slot<T> {
    ghost use Rattle.hx_pool.specs.contracts.slot.Slot.{the_row};

    pub(crate) fn value_mut(&mut self) -> &mut T
        requires { IsSome (value_of self.old) }
        ensures* writes_back { sem 𝓛 (Lends (the_row T.row) T.row self.entry result Slot.Live) }
        ensures value { value_of self.old ≡ Some result.now }
    {
        match self {
            Slot::Live(value) => value,
            Slot::Free(_) => unreachable!(),
        }
    }
}
