// Octets in hex, two digits each. The program `vectors` has its own: the one crate below both, `octets`, is the controller's,
// which prints nothing, and a new one would be longer than this. For run.rt.
use std::fmt;

#[derive(Drop)]
pub struct Hex<'a>(pub &'a [u8]);

impl fmt::Display for Hex<'_> {
    fn fmt<W: fmt::Write>(&self, f: &mut fmt::Formatter<W>) -> fmt::Result {
        for octet in self.0 {
            write!(f, "{octet:02x}")?;
        }
        Ok(())
    }
}
