//! The order of byte strings, and the place of a needle.
ghost use Rattle.std.specs.Prelude.{◌≡◌, ℕ, List, Option};
ghost use Rattle.std.specs.declared.cmp.Ordering.{Ordering as Ordering_value};
ghost use Rattle.plain_cord.specs.Texts.{place_of};
ghost use Rattle.plain_cord.specs.Places.{IsFirstPlace};
ghost use Rattle.plain_cord.specs.Orders.{IsLess, ComparesAs};

/// Two byte strings stand in just one way to each other, and less is passed on.
pub fn order_is_total()
    ensures some { (xs ys : List ℕ) → (order : Ordering_value) × ComparesAs xs ys order }
    ensures one { (xs ys : List ℕ) (order other : Ordering_value) → ComparesAs xs ys order → ComparesAs xs ys other → order ≡ other }
    ensures through { (xs ys zs : List ℕ) → IsLess xs ys → IsLess ys zs → IsLess xs zs }
{}

/// A needle has one least place, or none at all.
pub fn first_place_is_one()
    ensures some { (bytes needle : List ℕ) → IsFirstPlace bytes needle (place_of bytes needle) }
    ensures one { (bytes needle : List ℕ) (place other : Option ℕ) → IsFirstPlace bytes needle place → IsFirstPlace bytes needle other → place ≡ other }
{}
