// Where a register lies: a page, and a raw address under it.
ghost use Rattle.std.specs.Prelude.{◌≡◌};
ghost use Rattle.port_paging_laws.specs.Places.{page_of, raw_of, room_of, LeadsTo};

/// Where a register lies (docs/RULES.md, section 14): a register below 32 at its own raw address,
/// whatever the page, and the others on pages of 32, at the raw addresses 32 to 63.
#[derive(Debug, Clone, Copy, PartialEq, Eq)]
pub struct Place {
    pub page: u16,
    pub raw: u16,
}

impl Place {
    /// The place of a register by its number, for any number: below register 32 the page does not
    /// matter, and is 0. Under its page the raw address of a register 1 to 127 leads to it.
    pub fn of(register: u16) -> Place
        ensures page { result.page ≡ page_of register }
        ensures raw { result.raw ≡ raw_of register }
        ensures law { LeadsTo register result.page result.raw }
    {
        let page = register.saturating_sub(32) / 32;
        Place {
            page,
            raw: register - 32 * page,
        }
    }
}

/// How many registers, from this one on, lie before the next multiple of 32, where a run is cut
/// (docs/RULES.md, section 14): 1 to 32, for any number.
pub fn room_of(register: u16) -> u16
    ensures { result ≡ room_of register }
{
    32 - register % 32
}
