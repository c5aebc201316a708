// What can be wrong with an edit list (own).
ghost use Rattle.std.specs.Prelude.{◌≡◌};
ghost use Rattle.cut_list.specs.Faults.{name_of};
ghost use Rattle.cut_list.specs.declared.fault.ListFault.TheVariants.{NoMem};

use std::alloc::AllocFailed;

/// Why a line is bad, in the order in which it is looked for.
#[derive(Clone, Copy, Debug, PartialEq, Eq)]
pub enum Why {
    /// Line 1 is not `oggcut 1`.
    Head,
    /// An item has not four fields, or does not begin with `slice`.
    Word,
    /// A field is no number, or one above 2,147,483,647.
    Number,
    /// The slice has no frame.
    EmptySlice,
    /// It is line 10,001.
    TooMany,
    /// There is no item. This is said of the line behind the last.
    NoItem,
}

impl Why {
    /// Its name, as it is printed: that of the variant.
    pub fn name(self) -> &'static str
        ensures { result.now ≡ name_of self }
    {
        match self {
            Why::Head => "Head",
            Why::Word => "Word",
            Why::Number => "Number",
            Why::EmptySlice => "EmptySlice",
            Why::TooMany => "TooMany",
            Why::NoItem => "NoItem",
        }
    }
}

/// Why an edit list was not read: its first bad line, or want of memory. Lines count from 1.
#[derive(Clone, Copy, Debug, PartialEq, Eq)]
pub enum ListFault {
    Bad { line: u32, why: Why },
    NoMem,
}

impl<T: Drop> From<AllocFailed<T>> for ListFault {
    ghost from_gives = { λ _ fault. fault ≡ NoMem };

    fn from(_: AllocFailed<T>) -> Self {
        ListFault::NoMem
    }
}
