// Tables counted from 1, as products and accounts are.
#![tactic(auto)]

ghost use Rattle.std.specs.Prelude.{◌≡◌};
ghost use Rattle.tables.specs.Numbered.{numbered};

// The entry with a number, if there is one. `as`: std has no `From` from u32 to usize.
pub fn numbered<T: Copy>(table: &[T], number: u32) -> Option<T>
    ensures { result ≡ numbered table.now number }
{
    table.get(number.checked_sub(1)? as usize).copied()
}
