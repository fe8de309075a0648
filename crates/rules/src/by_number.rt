//! Rows by their number. Kinds, operations, slots and units of the library are numbered from 1.
ghost use Rattle.std.specs.Prelude.{◌≡◌};
ghost use Rattle.rules.specs.Jobs.{numbered};

/// The row with this number, from 1, if there is one.
pub fn numbered<T: Copy>(rows: &[T], number: u8) -> Option<T>
    ensures { result ≡ numbered rows.now number }
{
    let index = (number as usize).checked_sub(1)?;
    rows.get(index).copied()
}
