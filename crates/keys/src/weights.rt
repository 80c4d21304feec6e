ghost use Rattle.std.specs.Prelude.{◌≡◌};
ghost use Rattle.keys.specs.Weights.{no_price, no_listing};

/// What a link can carry: a value that has a default.
// A trait beside `Default`, which says of each value whether it may be given, and names none.
pub trait Weight: Copy {
    ghost defaulted: { Self };

    /// The weight of a link that is given without one.
    fn default_weight() -> Self
        ensures { result ≡ defaulted };
}

/// A price in cents.
#[derive(Clone, Copy, PartialEq, Eq, PartialOrd, Ord, Default, Debug)]
pub struct Price(pub u32);

impl Weight for Price {
    ghost defaulted = { no_price };

    fn default_weight() -> Price {
        Price::default()
    }
}

/// A numbered offer with its price.
#[derive(Clone, Copy, PartialEq, Eq, Default, Debug)]
pub struct Listing {
    pub number: u32,
    pub price: Price,
}

impl Weight for Listing {
    ghost defaulted = { no_listing };

    fn default_weight() -> Listing {
        Listing::default()
    }
}
