// Reads octets and numbers, low octet first, from the front of a slice. None where fewer octets are left. For setup.rt and
// record.rt.
#[derive(Clone, Copy)]
pub struct Reader<'a> {
    rest: &'a [u8],
}

impl<'a> Reader<'a> {
    pub fn new(octets: &'a [u8]) -> Reader<'a> {
        Reader { rest: octets }
    }

    // What is left.
    pub fn rest(&self) -> &'a [u8] {
        self.rest
    }

    pub fn octet(&mut self) -> Option<u8> {
        let [octet] = self.octets::<1>()?;
        Some(octet)
    }

    pub fn word(&mut self) -> Option<u16> {
        Some(u16::from_le_bytes(self.octets()?))
    }

    // A number of four octets that says how many.
    pub fn size(&mut self) -> Option<usize> {
        usize::try_from(u32::from_le_bytes(self.octets()?)).ok()
    }

    pub fn long(&mut self) -> Option<u64> {
        Some(u64::from_le_bytes(self.octets()?))
    }

    // The next N octets.
    pub fn octets<const N: usize>(&mut self) -> Option<[u8; N]> {
        let (first, rest) = self.rest.split_first_chunk::<N>()?;
        self.rest = rest;
        Some(*first)
    }

    // The next octets, as many as count.
    pub fn slice(&mut self, count: usize) -> Option<&'a [u8]> {
        let (first, rest) = self.rest.split_at_checked(count)?;
        self.rest = rest;
        Some(first)
    }
}
