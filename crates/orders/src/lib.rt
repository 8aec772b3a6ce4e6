// Total orders.
#![tactic(auto)]

ghost use Rattle.std.specs.Prelude.{◌≡◌, Bool};
ghost use Rattle.orders.specs.Orders.{Total, InTurn};

// An order given by a type. Its call stands alone, so that one type of item can have several orders.
pub trait Order {
    type Item: Copy;

    ghost le: { Self.Item → Self.Item → Bool };

    // Whether a comes before b or is the same.
    fn at_most(a: Self::Item, b: Self::Item) -> bool
        ensures is_order { result ≡ le a b };

    ghost total: { Total le };
}

// Whether a comes before b or is the same: by the upper test, and where that holds both ways by the lower.
pub fn lexicographic<T: Copy, U: Fn(T, T) -> bool, L: FnOnce(T, T) -> bool>(
    a: T,
    b: T,
    upper: U,
    lower: L,
) -> bool
    requires upper_is_callable { U.IsAlwaysCallable upper }
    requires lower_is_callable { L.IsAlwaysCallable lower }
    ensures is_upper_then_lower { InTurn (U.post upper) (L.post lower) a b result }
{
    upper(a, b) && (!upper(b, a) || lower(a, b))
}
