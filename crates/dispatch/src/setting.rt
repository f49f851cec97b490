// The commands that set the event masks, the settings, advertising or scanning: the part as it is to be, and the answer.
ghost use Rattle.dispatch.specs.declared.Part.TheVariants as part;

use crate::{CommandPart, exactly};
use commands::Answered;
use profile::ControllerRow;
use state::{Advertising, Controller, Masks, Scanning, Settings};

// None of the commands that set an event mask fails.
impl CommandPart for Masks {
    ghost part = { part.Masks };

    #[tactic(auto, unfolding(commands::specs::Table::find))]
    fn carry_out(s: Controller, _profile: ControllerRow, op: u16, p: &[u8]) -> Answered<Masks> {
        let masks = match op {
            0x0C01 => known::set_event_mask(s.masks, exactly(p)),
            0x0C63 => known::set_event_mask_page2(s.masks, exactly(p)),
            0x2001 => air::set_le_event_mask(s.masks, exactly(p)),
            _ => unreachable!(),
        };
        Answered::done(s.masks, Ok(masks))
    }
}

impl CommandPart for Settings {
    ghost part = { part.Settings };

    #[tactic(auto, unfolding(commands::specs::Table::find))]
    fn carry_out(s: Controller, profile: ControllerRow, op: u16, p: &[u8]) -> Answered<Settings> {
        let outcome = match op {
            0x0C31 => known::set_host_flow_control(s, exactly(p)),
            0x2005 => air::set_random_address(s, exactly(p)),
            0x2024 => link::write_suggested_data_length(s, exactly(p)),
            0x202D => privacy::set_address_resolution(s, exactly(p)),
            0x202E => privacy::set_address_timeout(s, exactly(p)),
            0x2031 => privacy::set_default_phy(s, profile, exactly(p)),
            0x201D => test_and_power::receiver_test(s, profile, exactly(p)),
            0x201E => test_and_power::transmitter_test(s, profile, exactly(p)),
            0x201F => {
                let outcome = test_and_power::test_end(s);
                return Answered::returning(s.settings, outcome, &[0, 0]);
            }
            0x2033 => test_and_power::receiver_test_v2(s, profile, exactly(p)),
            0x2034 => test_and_power::transmitter_test_v2(s, profile, exactly(p)),
            0x204D => test_and_power::write_path_compensation(s, exactly(p)),
            _ => unreachable!(),
        };
        Answered::done(s.settings, outcome)
    }
}

impl CommandPart for Advertising {
    ghost part = { part.Advertising };

    #[tactic(auto, unfolding(commands::specs::Table::find))]
    fn carry_out(
        s: Controller,
        _profile: ControllerRow,
        op: u16,
        p: &[u8],
    ) -> Answered<Advertising> {
        let outcome = match op {
            0x2006 => air::set_advertising_parameters(s, exactly(p)),
            0x2008 => air::set_advertising_data(s, exactly(p)),
            0x2009 => air::set_scan_response_data(s, exactly(p)),
            0x200A => air::set_advertising_enable(s, exactly(p)),
            _ => unreachable!(),
        };
        Answered::done(s.advertising, outcome)
    }
}

impl CommandPart for Scanning {
    ghost part = { part.Scanning };

    #[tactic(auto, unfolding(commands::specs::Table::find))]
    fn carry_out(s: Controller, _profile: ControllerRow, op: u16, p: &[u8]) -> Answered<Scanning> {
        match op {
            0x200B => Answered::done(s.scanning, air::set_scan_parameters(s, exactly(p))),
            0x200C => Answered::done(s.scanning, air::set_scan_enable(s, exactly(p))),
            0x200D => Answered::status(s.scanning, air::create_connection(s, exactly(p))),
            0x200E => air::create_connection_cancel(s),
            _ => unreachable!(),
        }
    }
}
