// What the planner answers: types, and the number of a refusal. What every call must answer is defined in specs/.
#![tactic(auto)]

ghost use Rattle.std.specs.Prelude.{◌≡◌};
ghost use Rattle.model.specs.Answers.{refusal_number};

// One variant for each number: document 01's table in section 'Refused', 1 to 13, and then the numbers of document 02.
#[derive(Clone, Copy)]
pub enum Refusal {
    // 1, 'not a card'
    NotACard,
    // 2, 'version'
    Version,
    // 3, 'rack'
    RackSize,
    // 4, 'reel'
    SlotCount,
    // 5, 'length'
    CardLength,
    // 6, 'price'
    PriceRange,
    // 7, 'bend'
    NotConvex,
    // 8, 'glare'
    LoadRange,
    // 9, 'slope', which no call gives (02 §2)
    NotMonotone,
    // 10, 'desk'
    BufferTooShort,
    // 11, 'roll'
    WrongLength,
    // 12, 'entry'
    EntryRange,
    // 13, 'light'
    LoadNotServed,
    // 14, start 0 of a practice show (02 §1)
    ZeroStart,
    // 15, an act in a sitting that the caller has no right to (02 §4)
    NotPermitted,
    // 16, a seat that is unknown, numbered 0, taken or beyond the list (02 §4)
    SeatUnavailable,
    // 17, an allowance that is spent or outside its range (02 §4)
    AllowanceSpent,
    // 18, a list of allowed counts, or its ratio, against the rules (02 §8)
    CountList,
}

// The number of a refusal.
impl From<Refusal> for u64 {
    ghost from_gives = { λ x n. n ≡ refusal_number x };

    fn from(x: Refusal) -> u64 {
        match x {
            Refusal::NotACard => 1,
            Refusal::Version => 2,
            Refusal::RackSize => 3,
            Refusal::SlotCount => 4,
            Refusal::CardLength => 5,
            Refusal::PriceRange => 6,
            Refusal::NotConvex => 7,
            Refusal::LoadRange => 8,
            Refusal::NotMonotone => 9,
            Refusal::BufferTooShort => 10,
            Refusal::WrongLength => 11,
            Refusal::EntryRange => 12,
            Refusal::LoadNotServed => 13,
            Refusal::ZeroStart => 14,
            Refusal::NotPermitted => 15,
            Refusal::SeatUnavailable => 16,
            Refusal::AllowanceSpent => 17,
            Refusal::CountList => 18,
        }
    }
}

// The answer of a call: a cost (the rounded count in its place), or a refusal.
pub type Answer = Result<u64, Refusal>;

// A seat of a sitting (02 §4), a record without padding: a candidate's number, 0 in an empty record, and the lowest cost marked so far,
// which there is if `marked` is not 0.
#[repr(C)]
#[derive(Clone, Copy)]
pub struct Seat {
    pub lowest: u64,
    pub candidate: u16,
    pub marked: u16,
    pub reserved: u32,
}

// A sitting (02 §4), which the host keeps and hands to each act: `state` is 1 while it is open and 2 once it is closed.
#[repr(C)]
#[derive(Clone, Copy)]
pub struct Sitting {
    pub state: u64,
    pub allowance: u64,
    pub submissions: u64,
    pub least: u64,
}

// What an act of a sitting returns: a refusal's number, or 0, the cost, whether the cost is a lowest cost, and the sitting as the act
// leaves it.
#[repr(C)]
#[derive(Clone, Copy)]
pub struct Reply {
    pub number: u64,
    pub cost: u64,
    pub marked: u64,
    pub sitting: Sitting,
}

// What the explanation of a sheet returns (02 §7): a refusal's number and three times 0, or number 0 and where the points above the least cost
// went, in the paragraph's words: spread, swaps, counts.
#[repr(C)]
#[derive(Clone, Copy)]
pub struct Points {
    pub number: u64,
    pub spread: u64,
    pub swaps: u64,
    pub counts: u64,
}
