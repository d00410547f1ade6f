//! The text of a file of exportReferencesGraph without structured attributes.
ghost use Rattle.std.specs.Prelude.{◌≡◌, ◌++◌, IfOk, OnOk};
ghost use Rattle.structured_attrs.specs.Registrations.{header_text, path_line, registration_text as text_of, registrations_text};

use crate::decimal::push_decimal;
use nix_names::StorePath;
use std::alloc::{AllocError, Global};
use valid_table::Registration;

/// The text of a file that exportReferencesGraph makes without structured attributes: for each row,
/// in the order given, its path, an empty line for the deriver, the number of its references and
/// these, each on a line of its own. Want of memory is its only fault. Costs one pass over the rows
/// and memory for the text.
pub fn registration_text(alloc: Global, rows: &[Registration]) -> Result<Vec<u8>, AllocError>
    ensures { IfOk result (λ text. text.items ≡ registrations_text rows.now) }
{
    let mut out = Vec::new(alloc);
    'rows: for row in rows {
        push_registration(row, &mut out)?;
    }
    Ok(out)
}

// Adds the lines of a row.
fn push_registration(row: &Registration, out: &mut Vec<u8>) -> Result<(), AllocError>
    ensures { OnOk result (out.new.items ≡ out.old.items ++ text_of row.now) }
{
    push_header(row, out)?;
    'references: for reference in row.info.references() {
        push_path(reference, out)?;
    }
    Ok(())
}

// Adds a row's path, an empty line and the number of its references.
fn push_header(row: &Registration, out: &mut Vec<u8>) -> Result<(), AllocError>
    ensures { OnOk result (out.new.items ≡ out.old.items ++ header_text row.now) }
{
    push_path(&row.path, out)?;
    out.push(b'\n')?;
    push_decimal(row.info.references().len() as u64, out)?;
    out.push(b'\n')?;
    Ok(())
}

// Adds a path on a line of its own.
fn push_path(path: &StorePath, out: &mut Vec<u8>) -> Result<(), AllocError>
    ensures { OnOk result (out.new.items ≡ out.old.items ++ path_line path.now) }
{
    out.extend_from_slice(path.text())?;
    out.push(b'\n')?;
    Ok(())
}
