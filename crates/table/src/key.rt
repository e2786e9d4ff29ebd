ghost use Rattle.std.specs.Prelude.{◌≡◌, Bool};
ghost use Rattle.table.specs.Order.{Total};

// A key. Its order is total: two keys neither of which is below the other are the same key.
// What the same key is says each kind of key: the same value, or whatever compares alike.
// It is not std's `Ord`, whose laws ask that keys that compare alike be equal by `==`, so that fewer types would be keys.
pub trait Key: Copy {
    ghost below: { Self → Self → Bool };

    ghost same: { Self → Self → Type 0 };

    fn below(&self, other: &Self) -> bool
        ensures { result ≡ below self.now other.now };

    ghost total: { Total below same };
}

// A row of a table. It has a key.
pub trait Element: Copy {
    type K: Key;

    ghost keyed: { Self → Self.K };

    fn key(&self) -> Self::K
        ensures { result ≡ keyed self.now };
}
