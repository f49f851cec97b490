// The table of opcodes and of how many parameter octets each takes (`param_len` of the source), in the order of the tables of
// `specs/Table.antt`. Columns and no array of rows: `hci::first_opcode` looks through opcodes that stand side by side, as it does
// for a profile's, which C hands over so. The part that each command changes is a third column, `PARTS` of `dispatch`.
ghost use Rattle.std.specs.Prelude.{◌≡◌, ◌==◌, get_or, position};
ghost use Rattle.commands.specs.Table.{opcodes, rows, no_row};
ghost use Rattle.commands.specs.Table.{fits as size_fits};

const OPCODES: [u16; 71] = [
    0x0406, 0x041D, 0x0C01, 0x0C03, 0x0C2D, 0x0C31, 0x0C33, 0x0C35, 0x0C63, 0x0C7B, 0x0C7C, 0x1001,
    0x1002, 0x1003, 0x1009, 0x1405, 0x2001, 0x2002, 0x2003, 0x2005, 0x2006, 0x2007, 0x2008, 0x2009,
    0x200A, 0x200B, 0x200C, 0x200D, 0x200E, 0x200F, 0x2010, 0x2011, 0x2012, 0x2013, 0x2014, 0x2015,
    0x2016, 0x2017, 0x2018, 0x2019, 0x201A, 0x201B, 0x2020, 0x2021, 0x2022, 0x2023, 0x2024, 0x2027,
    0x2028, 0x2029, 0x202A, 0x202B, 0x202C, 0x202D, 0x202E, 0x202F, 0x2030, 0x2031, 0x2032, 0x204E,
    0x201C, 0x201D, 0x201E, 0x201F, 0x2033, 0x2034, 0x203A, 0x203B, 0x204B, 0x204C, 0x204D,
];

// How many parameter octets, 256 where the command looks at their number itself, as one does: an array of `Option<u8>` would say
// `Some` in all other rows, a line for each, and is no plainer.
const SIZES: [u16; 71] = [
    3, 2, 8, 0, 3, 1, 7, 256, 8, 2, 4, 0, 0, 0, 0, 2, 8, 0, 0, 6, 15, 0, 32, 32, 1, 7, 2, 25, 0, 0,
    0, 7, 7, 14, 5, 2, 2, 32, 0, 28, 18, 2, 14, 3, 6, 0, 4, 39, 7, 0, 0, 7, 7, 1, 2, 0, 2, 3, 7, 8,
    0, 1, 3, 0, 3, 4, 0, 0, 0, 0, 4,
];

// The place of an opcode in the table.
pub fn place_of(op: u16) -> Option<usize>
    ensures { result ≡ position (λ x. x == op) opcodes }
{
    hci::first_opcode(&OPCODES, op)
}

// Whether the command at a place of the table takes n parameter octets.
pub fn fits(place: usize, n: usize) -> bool
    ensures { result ≡ size_fits (get_or rows place no_row).size n }
{
    SIZES
        .get(place)
        .is_some_and(|size| *size == 256 || n == usize::from(*size))
}
