// The commands that change the accept list or the resolving list: the list as it is to be, and the answer.
ghost use Rattle.dispatch.specs.declared.Part.TheVariants as part;

use crate::{CommandPart, exactly};
use commands::Answered;
use filters::{AcceptList, ResolvingList};
use profile::ControllerRow;
use state::Controller;

impl CommandPart for AcceptList {
    ghost part = { part.AcceptList };

    #[tactic(auto, unfolding(commands::specs::Table::find))]
    fn carry_out(s: Controller, profile: ControllerRow, op: u16, p: &[u8]) -> Answered<AcceptList> {
        let outcome = match op {
            0x2010 => air::clear_accept_list(s),
            0x2011 => air::add_to_accept_list(s, profile, exactly(p)),
            0x2012 => air::remove_from_accept_list(s, exactly(p)),
            _ => unreachable!(),
        };
        Answered::done(s.accept_list, outcome)
    }
}

impl CommandPart for ResolvingList {
    ghost part = { part.ResolvingList };

    #[tactic(auto, unfolding(commands::specs::Table::find))]
    fn carry_out(
        s: Controller,
        profile: ControllerRow,
        op: u16,
        p: &[u8],
    ) -> Answered<ResolvingList> {
        let outcome = match op {
            0x2027 => privacy::add_to_resolving_list(s, profile, exactly(p)),
            0x2028 => privacy::remove_from_resolving_list(s, exactly(p)),
            0x2029 => privacy::clear_resolving_list(s),
            0x204E => privacy::set_privacy_mode(s, exactly(p)),
            _ => unreachable!(),
        };
        Answered::done(s.resolving_list, outcome)
    }
}
