//! A list that contracts compare.

ghost use Rattle.std.specs.Prelude.{◌≡◌};

use std::marker::Model;

/// Values on the heap, which contracts see as a list.
#[derive(Debug, Drop)]
pub struct Items<T> {
    items: Vec<T>,
}

impl<T> Model for Items<T> {
    ghost use Rattle.std.specs.Prelude.{List};

    ghost Value = { List T };

    ghost view = { λ list. list.items.items };
}

impl<T> Items<T> {
    /// Holds the values that it is given.
    pub fn new(items: Vec<T>) -> Items<T>
        ensures value { result ≡ items.items }
    {
        Items { items }
    }

    /// The values, in order.
    pub fn list(&self) -> &[T]
        ensures value { result.now ≡ self.now }
    {
        &self.items
    }

    /// Hands the values out.
    pub fn take(self) -> Vec<T>
        ensures value { result.items ≡ self }
    {
        let Items { items } = self;
        items
    }
}
