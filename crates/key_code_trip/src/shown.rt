//! Key codes, faults and bytes as text.
use exr_error::fault::Fault;
use exr_value::key_code::KeyCode;
use std::fmt;

/// The numbers of a key code, each in a line under the name of its field.
#[derive(Clone, Copy)]
pub(crate) struct Numbers(pub(crate) KeyCode);

impl fmt::Display for Numbers {
    fn fmt<W: fmt::Write>(&self, f: &mut fmt::Formatter<W>) -> fmt::Result {
        let k = self.0;
        writeln!(f, "  film_manufacturer_code: {}", k.film_manufacturer_code)?;
        writeln!(f, "  film_type: {}", k.film_type)?;
        writeln!(f, "  film_roll_prefix: {}", k.film_roll_prefix)?;
        writeln!(f, "  count: {}", k.count)?;
        writeln!(f, "  perforation_offset: {}", k.perforation_offset)?;
        writeln!(f, "  perforations_per_frame: {}", k.perforations_per_frame)?;
        writeln!(f, "  perforations_per_count: {}", k.perforations_per_count)
    }
}

/// The number of a refusal and the bytes given, in a line each.
#[derive(Clone, Copy)]
pub(crate) struct Refused(pub(crate) Fault);

impl fmt::Display for Refused {
    fn fmt<W: fmt::Write>(&self, f: &mut fmt::Formatter<W>) -> fmt::Result {
        writeln!(f, "refused: {}", self.0.refusal.number())?;
        writeln!(f, "bytes given: {}", self.0.bytes)
    }
}

/// Bytes in hexadecimal, four to a group, with a space before each group.
#[derive(Clone, Copy)]
pub(crate) struct Hex<'a>(pub(crate) &'a [u8]);

impl fmt::Display for Hex<'_> {
    fn fmt<W: fmt::Write>(&self, f: &mut fmt::Formatter<W>) -> fmt::Result {
        for group in self.0.chunks(4) {
            write!(f, " ")?;
            for byte in group {
                write!(f, "{byte:02x}")?;
            }
        }
        Ok(())
    }
}
