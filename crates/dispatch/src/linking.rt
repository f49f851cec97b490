// The commands that change a link, and Reset.
ghost use Rattle.dispatch.specs.declared.Part.TheVariants as part;

use crate::{CommandPart, exactly};
use commands::Answered;
use links::Links;
use profile::ControllerRow;
use state::Controller;

impl CommandPart for Links {
    ghost part = { part.Links };

    #[tactic(auto, unfolding(commands::specs::Table::find))]
    fn carry_out(s: Controller, profile: ControllerRow, op: u16, p: &[u8]) -> Answered<Links> {
        match op {
            0x0406 => Answered::status(s.links, known::disconnect(s, exactly(p))),
            0x0C7C => {
                let outcome = known::write_auth_payload_timeout(s, exactly(p));
                Answered::done_handle(s.links, outcome, octets::word_at(p, 0))
            }
            0x2013 => link::connection_update(s, exactly(p)),
            0x201A => link::long_term_key_reply(s, exactly(p)),
            0x201B => {
                let outcome = link::long_term_key_negative_reply(s, exactly(p));
                Answered::done_handle(s.links, outcome, octets::word_at(p, 0))
            }
            0x2020 => link::parameter_request_reply(s, exactly(p)),
            0x2022 => link::set_data_length(s, profile, exactly(p)),
            0x2032 => privacy::set_phy(s, profile, exactly(p)),
            _ => unreachable!(),
        }
    }
}

// Reset, the one command that changes more than a part.
impl CommandPart for Controller {
    ghost part = { part.Everything };

    #[tactic(auto, unfolding(commands::specs::Table::find))]
    fn carry_out(
        s: Controller,
        _profile: ControllerRow,
        _op: u16,
        _p: &[u8],
    ) -> Answered<Controller> {
        known::reset(s)
    }
}
