// Lists of values, which contracts see as lists.
ghost use Rattle.std.specs.Prelude.{◌≡◌, IfOk};

use crate::memory::NoMemory;
use std::marker::Model;

/// A value that can be made again, in memory of its own.
pub trait TryClone: Drop {
    /// The same value again.
    fn try_clone(&self) -> Result<Self, NoMemory>
        ensures { IfOk result (λ c. c ≡ self.now) };
}

/// A vector that contracts see as the list of its items.
#[derive(Debug, Drop)]
pub struct List<T> {
    list: Vec<T>,
}

/// Bytes.
pub type Bytes = List<u8>;

/// The bytes of a message.
pub type Message = List<u8>;

/// A name, as its bytes.
pub type Name = List<u8>;

/// Names, in their order.
pub type Names = List<Name>;

/// A text, as its bytes.
pub type Text = List<u8>;

impl<T> Model for List<T> {
    ghost use Rattle.std.specs.Prelude.{List};
    ghost use Rattle.std.specs.Coded.{coded_list};

    ghost Value = { List T };

    ghost coded = { coded_list T.code };

    ghost view = { λ a. a.list.items };
}

impl<T> List<T> {
    /// The list of these items.
    pub fn of(list: Vec<T>) -> Self
        ensures { result ≡ list.items }
    {
        List { list }
    }

    /// The items.
    pub fn items(&self) -> &[T]
        ensures { result.now ≡ self.now }
    {
        &self.list
    }
}

impl<T: Drop> List<T> {
    ghost use Rattle.std.specs.Prelude.{◌<◌, ◌++◌, ◌∷◌, [], OnOk, OnErr, length, slice_set};

    /// Puts this behind the last item.
    pub fn push(&mut self, item: T) -> Result<(), NoMemory>
        ensures ok { OnOk result (self.new ≡ self.old ++ item ∷ []) }
        ensures err { OnErr result (self.new ≡ self.old) }
    {
        self.list.push(item)?;
        Ok(())
    }

    /// Puts this at a place, in place of what stood there.
    pub fn set(&mut self, at: usize, to: T)
        requires { at < length self.old }
        ensures { self.new ≡ slice_set self.old at to }
    {
        self.list[at] = to;
    }
}

impl<T: TryClone> TryClone for List<T> {
    fn try_clone(&self) -> Result<Self, NoMemory> {
        let mut list = Vec::with_capacity(*self.list.allocator(), self.list.len())?;
        for item in &self.list {
            list.push(item.try_clone()?)?;
        }
        Ok(Self::of(list))
    }
}

impl TryClone for u8 {
    fn try_clone(&self) -> Result<Self, NoMemory> {
        Ok(*self)
    }
}

impl TryClone for u16 {
    fn try_clone(&self) -> Result<Self, NoMemory> {
        Ok(*self)
    }
}
