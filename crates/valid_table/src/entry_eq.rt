//! Equality of entries and of their parts.
use crate::entry::{Entry, Outputs, Record, Registration};

impl PartialEq for Record {
    ghost use Rattle.std.specs.Cmp.{partial_equiv_from_equiv};
    ghost use Rattle.valid_table.specs.Equality.{same_record, same_record_laws};

    ghost eq = { same_record };

    ghost laws = { partial_equiv_from_equiv same_record_laws };

    fn eq(&self, other: &Record) -> bool {
        self.references() == other.references()
            && self.digest() == other.digest()
            && self.nar() == other.nar()
    }
}

impl Eq for Record {
    ghost use Rattle.valid_table.specs.Equality.{same_record_laws};

    ghost laws = { same_record_laws };
}

impl PartialEq for Registration {
    ghost use Rattle.std.specs.Cmp.{partial_equiv_from_equiv};
    ghost use Rattle.valid_table.specs.Equality.{same_registration, same_registration_laws};

    ghost eq = { same_registration };

    ghost laws = { partial_equiv_from_equiv same_registration_laws };

    fn eq(&self, other: &Registration) -> bool {
        self.path == other.path && self.info == other.info
    }
}

impl Eq for Registration {
    ghost use Rattle.valid_table.specs.Equality.{same_registration_laws};

    ghost laws = { same_registration_laws };
}

impl PartialEq for Outputs {
    ghost use Rattle.std.specs.Cmp.{partial_equiv_from_equiv};
    ghost use Rattle.std.specs.Cmp.Lexicographic.{pointwise};
    ghost use Rattle.valid_table.specs.Equality.{same_registration, same_outputs_laws};

    ghost eq = { pointwise same_registration };

    ghost laws = { partial_equiv_from_equiv same_outputs_laws };

    fn eq(&self, other: &Outputs) -> bool {
        self.as_slice() == other.as_slice()
    }
}

impl Eq for Outputs {
    ghost use Rattle.valid_table.specs.Equality.{same_outputs_laws};

    ghost laws = { same_outputs_laws };
}

impl PartialEq for Entry {
    ghost use Rattle.std.specs.Cmp.{partial_equiv_from_equiv};
    ghost use Rattle.valid_table.specs.Equality.{same_entry, same_entry_laws};

    ghost eq = { same_entry };

    ghost laws = { partial_equiv_from_equiv same_entry_laws };

    fn eq(&self, other: &Entry) -> bool {
        match (self, other) {
            (Entry::Add(a), Entry::Add(b)) => a == b,
            (Entry::Done(deriver, outputs), Entry::Done(other, others)) => {
                deriver == other && outputs == others
            }
            _ => false,
        }
    }
}

impl Eq for Entry {
    ghost use Rattle.valid_table.specs.Equality.{same_entry_laws};

    ghost laws = { same_entry_laws };
}
