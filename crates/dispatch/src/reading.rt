// The commands that change nothing: what they answer.
ghost use Rattle.std.specs.Prelude.{◌≡◌, ℕ, List, true, length};
ghost use Rattle.commands.specs.Outcome.{given, Ready, Gives};
ghost use Rattle.commands.specs.Table.{find, sized};
ghost use Rattle.dispatch.specs.declared.Part.TheVariants.{Nothing};
ghost use Rattle.dispatch.specs.Parts.{rows_of, known_reads, le_reads};

use crate::exactly;
use answers::Answer;
use hci::status::SUCCESS;
use profile::ControllerRow;
use state::Controller;

// The opcodes of the LE commands begin here.
const FIRST_LE: u16 = 0x2000;

// What a command that changes nothing answers; address is what Read BD_ADDR tells and random what LE Rand tells.
#[tactic(auto, using(crate::proofs::Halves::known_half, crate::proofs::Halves::le_half))]
pub fn read(
    s: Controller,
    profile: ControllerRow,
    address: [u8; 6],
    random: u64,
    op: u16,
    p: &[u8],
) -> Answer
    requires { Ready s profile × (sized op (rows_of Nothing) (length p.now) ≡ true) }
    ensures { Gives ((find op (rows_of Nothing)).does (given profile address random p.now)) profile s s result }
{
    if op < FIRST_LE {
        return known_read(s, profile, address, op, p);
    }
    le_read(s, profile, random, op, p)
}

// Of the commands below 0x2000. The last arm is never reached: `requires` rules it out.
#[tactic(auto, unfolding(commands::specs::Table::find))]
fn known_read(s: Controller, profile: ControllerRow, address: [u8; 6], op: u16, p: &[u8]) -> Answer
    requires { Ready s profile × (sized op known_reads (length p.now) ≡ true) }
    ensures { (random : ℕ) → Gives ((find op known_reads).does (given profile address random p.now)) profile s s result }
{
    match op {
        0x041D => known::read_remote_version(profile, exactly(p), s.masks, s.links),
        0x0C2D => known::read_transmit_power(profile, exactly(p), s.links),
        0x0C33 => known::host_buffer_size(),
        0x0C35 => known::host_completed_packets(p),
        0x0C7B => known::read_auth_payload_timeout(exactly(p), s.links),
        0x1001 => known::read_local_version(profile),
        0x1002 => known::read_supported_commands(profile),
        0x1003 => known::read_supported_features(profile),
        0x1009 => known::read_public_address(address),
        0x1405 => known::read_rssi(exactly(p), s.links),
        _ => unreachable!(),
    }
}

// Of the LE commands. The last arm is never reached.
#[tactic(auto, unfolding(commands::specs::Table::find, commands::specs::Link::set_host_channels))]
fn le_read(s: Controller, profile: ControllerRow, random: u64, op: u16, p: &[u8]) -> Answer
    requires { Ready s profile × (sized op le_reads (length p.now) ≡ true) }
    ensures { (address : List ℕ) → Gives ((find op le_reads).does (given profile address random p.now)) profile s s result }
{
    match op {
        0x2002 => air::read_buffer_size(profile),
        0x2003 => air::read_local_features(profile),
        0x2007 => air::read_advertising_power(profile),
        0x200F => air::read_accept_list_size(profile),
        0x2014 => answers::done(SUCCESS),
        0x2015 => link::read_channel_map(s.links, exactly(p)),
        0x2016 => link::read_remote_features(s.links, s.masks, profile, exactly(p)),
        0x2017 => link::encrypt(exactly(p)),
        0x2018 => link::rand(random),
        0x2019 => link::enable_encryption(s.links, s.masks, exactly(p)),
        0x2021 => link::parameter_request_negative_reply(s.links, exactly(p)),
        0x2023 => link::read_suggested_data_length(s.settings),
        0x202A => privacy::read_resolving_list_size(profile),
        0x202B | 0x202C => privacy::read_resolvable_address(),
        0x202F => privacy::read_maximum_data_length(profile),
        0x2030 => privacy::read_phy(exactly(p), s.links),
        0x201C => test_and_power::read_supported_states(profile),
        0x203A => test_and_power::read_maximum_advertising_length(profile),
        0x203B => test_and_power::read_advertising_sets(profile),
        0x204B => test_and_power::read_power_range(profile),
        0x204C => test_and_power::read_path_compensation(s.settings),
        _ => unreachable!(),
    }
}
