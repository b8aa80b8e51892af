//! A growable list that contracts see as the list of its elements.

ghost use Rattle.std.specs.Prelude.{◌≡◌};
ghost use Rattle.std.specs.Borrow.{sem};

use std::marker::Model;

/// A list of any length. Its memory is that of the `Vec` that it was made from.
#[derive(Drop)]
pub struct List<T> {
    held: Vec<T>,
}

impl<T> Model for List<T> {
    ghost use Rattle.std.specs.Prelude.{List as Items};
    ghost use Rattle.std.specs.Coded.{coded_list};

    ghost Value = { Items T };

    ghost coded = { coded_list T.code };

    ghost view = { λ l. l.held.items };
}

impl<T> List<T> {
    ghost use Rattle.sd_types.specs.Lends.{lends_items};

    /// The list of the elements of `v`, which it takes over.
    pub fn from_vec(v: Vec<T>) -> List<T>
        ensures { result ≡ v.items }
    {
        List { held: v }
    }

    pub fn items(&self) -> &[T]
        ensures { result.now ≡ self.now }
    {
        &self.held
    }

    /// The elements, to be written. Their number stays.
    pub fn items_mut(&mut self) -> &mut [T]
        ensures* writes_back { sem 𝓛 (lends_items T.row self.entry result) }
        ensures value { result.now ≡ self.old }
    {
        self.held.as_mut_slice()
    }
}
