//! A name, and a value in parentheses, as faults, reasons and causes are told.
ghost use Rattle.std.specs.Prelude.{◌≡◌, ◌++◌, OnOk, decimal};
ghost use Rattle.nix_drv.specs.Strings.{string_text};
ghost use Rattle.run_report.specs.Words.{with_value};

use itoa::Buffer;
use nix_drv::write_string;
use std::alloc::AllocError;

/// Adds a name alone. An error where memory is refused, and no other; a part may be written then.
pub fn write_name(name: &[u8], out: &mut Vec<u8>) -> Result<(), AllocError>
    ensures { OnOk result (out.new.items ≡ out.old.items ++ name.now) }
{
    out.extend_from_slice(name)
}

// Adds a number in decimal digits.
pub(crate) fn write_number(number: usize, out: &mut Vec<u8>) -> Result<(), AllocError>
    ensures { OnOk result (out.new.items ≡ out.old.items ++ decimal number) }
{
    out.extend_from_slice(Buffer::new().format(number).as_bytes())
}

/// Adds a name, and a number in decimal digits in parentheses. An error where memory is refused,
/// and no other; a part may be written then.
pub fn write_with_number(name: &[u8], number: usize, out: &mut Vec<u8>) -> Result<(), AllocError>
    ensures { OnOk result (out.new.items ≡ out.old.items ++ with_value name.now (decimal number)) }
{
    write_with_value(name, Buffer::new().format(number).as_bytes(), out)
}

/// Adds a name, and a value in parentheses, as it is. An error where memory is refused, and no
/// other; a part may be written then.
pub fn write_with_value(name: &[u8], value: &[u8], out: &mut Vec<u8>) -> Result<(), AllocError>
    ensures { OnOk result (out.new.items ≡ out.old.items ++ with_value name.now value.now) }
{
    out.extend_from_slice(name)?;
    out.extend_from_slice(b"(")?;
    out.extend_from_slice(value)?;
    out.extend_from_slice(b")")
}

/// Adds a name, and in parentheses a text as the derivations' language spells it. An error where
/// memory is refused, and no other; a part may be written then.
pub fn write_with_string(name: &[u8], text: &[u8], out: &mut Vec<u8>) -> Result<(), AllocError>
    ensures { OnOk result (out.new.items ≡ out.old.items
        ++ with_value name.now (string_text text.now)) }
{
    out.extend_from_slice(name)?;
    out.extend_from_slice(b"(")?;
    write_string(out, text)?;
    out.extend_from_slice(b")")
}
