// The refusals of the store, by the numbers of 01 (Refusal numbers).

#![tactic(auto)]

ghost use Rattle.std.specs.Prelude.{◌≡◌};
ghost use Rattle.refusal.specs.Number.{number_of};

// Why a command is refused. The index alone has refusals of its own (the crate keys).
#[derive(Clone, Copy, PartialEq, Eq)]
pub enum Refusal {
    NoSlot = 1,
    Damaged = 2,
    BadArgument = 3,
    LowId = 4,
    NoIdLeft = 5,
    LongMessage = 6,
    Full = 7,
    ShortOutput = 8,
    NoGroup = 9,
    GroupExists = 10,
    MostGroups = 11,
    MostConsumers = 12,
    MostPending = 13,
    NotLive = 14,
    MostNodes = 15,
    NoSnapshot = 16,
    SmallStore = 17,
}

impl Refusal {
    pub fn number(self) -> u32
        ensures { result ≡ number_of self }
    {
        self as u32
    }
}
