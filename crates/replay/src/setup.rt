// What a run is set up with, read from the octets of the sample. For main.rt, which reads those, and run.rt.
//
// A setup has 126 octets and then 5 for each row of the profile, at most 256 rows. Numbers stand low octet first:
//     0  hci_version                  88  supported_states (8)         104  max_tx_octets (2)
//     1  hci_subversion (2)           96  acl_len (2)                  106  max_tx_time (2)
//     3  lmp_version                  98  acl_count                    108  max_adv_data_len (2)
//     4  company (2)                  99  accept_list_size             110  adv_sets
//     6  lmp_subversion (2)          100  resolving_list_size          111  num_command_packets
//     8  supported_commands (64)     101  adv_tx_power, signed         112  the public address (6)
//    72  lmp_features (8)            102  tx_power_min, signed         118  the random number (8)
//    80  le_features (8)             103  tx_power_max, signed         126  the rows
// A row is its opcode (2), how it is answered (0 modelled, 1 unmodelled, 2 unknown) and its bit number (2).
use crate::reader::Reader;
use lists::Held;
use profile::ControllerRow;

// How many octets a run has of each; answers is the room for those.
#[derive(Clone, Copy)]
pub struct Sizes {
    pub setup: usize,
    pub pool: usize,
    pub events: usize,
    pub packets: usize,
    pub answers: usize,
    pub records: usize,
}

impl Sizes {
    // From the six numbers at the start of a run.
    pub fn of(head: &[u8]) -> Option<Sizes> {
        let mut numbers = Reader::new(head);
        Some(Sizes {
            setup: numbers.size()?,
            pool: numbers.size()?,
            events: numbers.size()?,
            packets: numbers.size()?,
            answers: numbers.size()?,
            records: numbers.size()?,
        })
    }
}

#[derive(Clone, Copy)]
pub struct Setup<'a> {
    pub profile: ControllerRow,
    pub address: [u8; 6],
    pub random: u64,
    rows: &'a [[u8; 5]],
}

impl<'a> Setup<'a> {
    // The setup that octets are, if a run can have it with a pool of so many octets: whole rows, a profile within its limits, and
    // a place of acl_len + 5 octets in the pool for each packet.
    pub fn of(octets: &'a [u8], pool: usize) -> Option<Setup<'a>> {
        let mut reader = Reader::new(octets);
        let profile = profile_of(&mut reader)?;
        let address = reader.octets()?;
        let random = reader.long()?;
        let (rows, behind) = reader.rest().as_chunks();
        let places = state::places(profile);
        let fits = behind.is_empty()
            && rows.len() <= 256
            && profile::within_limits(profile)
            && places.count <= pool / places.size;
        fits.then_some(Setup {
            profile,
            address,
            random,
            rows,
        })
    }

    // The columns of the rows. Each is a pattern: a function handed that as a closure would need a `requires`, and this program
    // has none. There is always room for the next row, since `of` takes no more than 256.
    pub fn opcodes(&self) -> Held<u16, 256> {
        let mut column: Held<u16, 256> = Held::new();
        for [low, high, ..] in self.rows {
            if column.len() < 256 {
                column.push(u16::from_le_bytes([*low, *high]));
            }
        }
        column
    }

    pub fn answers(&self) -> Held<u8, 256> {
        let mut column: Held<u8, 256> = Held::new();
        for [_, _, answer, ..] in self.rows {
            if column.len() < 256 {
                column.push(*answer);
            }
        }
        column
    }

    pub fn bits(&self) -> Held<u16, 256> {
        let mut column: Held<u16, 256> = Held::new();
        for [.., low, high] in self.rows {
            if column.len() < 256 {
                column.push(u16::from_le_bytes([*low, *high]));
            }
        }
        column
    }
}

fn profile_of(reader: &mut Reader<'_>) -> Option<ControllerRow> {
    Some(ControllerRow {
        hci_version: reader.octet()?,
        hci_subversion: reader.word()?,
        lmp_version: reader.octet()?,
        company: reader.word()?,
        lmp_subversion: reader.word()?,
        supported_commands: reader.octets()?,
        lmp_features: reader.octets()?,
        le_features: reader.long()?,
        supported_states: reader.octets()?,
        acl_len: reader.word()?,
        acl_count: reader.octet()?,
        accept_list_size: reader.octet()?,
        resolving_list_size: reader.octet()?,
        adv_tx_power: reader.octet()?.cast_signed(),
        tx_power_min: reader.octet()?.cast_signed(),
        tx_power_max: reader.octet()?.cast_signed(),
        max_tx_octets: reader.word()?,
        max_tx_time: reader.word()?,
        max_adv_data_len: reader.word()?,
        adv_sets: reader.octet()?,
        num_command_packets: reader.octet()?,
    })
}
