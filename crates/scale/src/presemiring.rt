ghost use Rattle.std.specs.Prelude.{◌≡◌, Option};
ghost use Rattle.std.specs.Option.{option_map};
ghost use Rattle.scale.specs.WithNone.{Values, with_none};
ghost use Rattle.scale.specs.WithNoneLemmas as WithNone;
ghost use Rattle.scale.specs.WithNoneLemmas.{Lawful};
ghost use Rattle.std.proofs.Common.{rules};

use crate::Scale;

// Weights of which each is a way: a scale but for its none. An `Option` of them is a scale, with `None` for none. What it has in
// common with `Scale` stands in both: as a supertrait it would be owed by scales that are no `Option`, and by their none.
pub trait Presemiring: Sized + Copy {
    // Each weight stands for one value.
    ghost Value: { Type 0 };

    ghost value: { Self → Value };

    ghost values: { Values Value };

    fn one() -> Self
        ensures { value result ≡ values.one };

    fn combine(self, other: Self) -> Self
        ensures { value result ≡ values.combine (value self) (value other) };

    fn extend(self, other: Self) -> Self
        ensures { value result ≡ values.extend (value self) (value other) };

    fn same(self, other: Self) -> bool
        ensures { result ≡ values.same (value self) (value other) };

    ghost lawful: { Lawful values };
}

impl<W: Presemiring> Scale for Option<W> {
    ghost Value = { Option W.Value };

    ghost value = { option_map W.value };

    ghost values = { with_none W.values };

    ghost combines = { WithNone.combines W.lawful };

    ghost extends = { WithNone.extends W.lawful };

    ghost absorbs = { Prim.search rules };

    ghost distributes = { WithNone.distributes W.lawful };

    ghost proper = { Prim.search rules };

    ghost bounded = { WithNone.bounded W.lawful };

    ghost tells = { WithNone.tells W.lawful };

    fn none() -> Option<W> {
        None
    }

    fn one() -> Option<W> {
        Some(W::one())
    }

    fn combine(self, other: Option<W>) -> Option<W> {
        match (self, other) {
            (Some(one), Some(two)) => Some(one.combine(two)),
            (way, None) | (None, way) => way,
        }
    }

    fn extend(self, other: Option<W>) -> Option<W> {
        Some(self?.extend(other?))
    }

    // Not the `==` of `Option`, which would want one of `W`.
    fn same(self, other: Option<W>) -> bool {
        match (self, other) {
            (Some(one), Some(two)) => one.same(two),
            (one, two) => one.is_none() && two.is_none(),
        }
    }
}
