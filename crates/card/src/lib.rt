// The show card: a cursor that takes numbers from its bytes, and the checks behind refusals 1 to 8.
#![tactic(auto)]

ghost use Rattle.std.specs.Prelude.{◌≡◌, ◌+◌, ◌≤◌, ◌<◌, length, true, Err, MatchResult};
ghost use Rattle.basics.specs.Lists.{same_list};
ghost use Rattle.model.specs.Instance.{instance_of, head_length, load_place, mark_of, card_mark, version_of, rack_number};
ghost use Rattle.model.specs.Instance.{convex_at, convex, table_in_range, loads_in_range};
ghost use Rattle.model.specs.MoreLight.{active_step};
ghost use Rattle.model.specs.Specs.{front_tests, size_tests, body_tests};
ghost use Rattle.model.specs.Calls.{check_card, answer, Accepted};
ghost use Rattle.laws.specs.LeastSteps.{lowest_step as lowest_of};
ghost use Rattle.card.specs.Fields.{Within, ReadAt, HeaderOf, Sized, PlaceNear, EntryThere, TableEntry, LoadThere, SlotLoad};
ghost use Rattle.card.specs.Checking.{rack_fits, loads_fit, first_among};

use model::{Answer, Refusal};

// The places of a card's fields: the version, the modules, with which the rest of the head begins, and the table, where the head ends.
const VERSION_PLACE: usize = 3;

const MODULES_PLACE: usize = 5;

const HEAD_LENGTH: u64 = 17;

// A place in a card.
#[derive(Clone, Copy)]
struct Cursor {
    at: usize,
}

impl Cursor {
    // The number in the next W bytes, the lowest first, and the place after it.
    fn take<const W: usize>(self, bytes: &[u8]) -> (u64, Cursor)
        requires narrow { W ≤ 8 }
        requires within { Within bytes.now self.at W }
        ensures { ReadAt bytes.now self.at W result.0 result.1.at }
    {
        let mut value = 0;
        for k in (0..W).rev() {
            value = 256 * value + u64::from(bytes[self.at + k]);
        }
        (value, Cursor { at: self.at + W })
    }
}

// The numbers of a card's head.
#[derive(Clone, Copy)]
pub struct Header {
    pub modules: u64,
    pub top_step: u64,
    pub slots: u64,
    pub power_up: u64,
    pub power_down: u64,
}

// A card that is as long as its head says, with the numbers of its head.
#[derive(Clone, Copy)]
pub struct WholeCard<'a> {
    pub bytes: &'a [u8],
    pub header: Header,
    ghost sized: { Sized bytes.now header },
}

// An accepted card, with the numbers of its head and the lowest step of its table, which is the smallest step of least cost.
#[derive(Clone, Copy)]
pub struct Card<'a> {
    pub bytes: &'a [u8],
    pub header: Header,
    pub lowest_step: u64,
    ghost accepted: { Accepted bytes.now },
    ghost header_is: { HeaderOf bytes.now header },
    ghost lowest_is: { lowest_step ≡ lowest_of (instance_of bytes.now) },
}

// The place of the load of slot t; with the number of slots for t it is the card's length.
fn load_place(h: Header, t: u64) -> usize
    requires { PlaceNear h t }
    ensures { result ≡ load_place h.top_step t }
{
    (HEAD_LENGTH + 4 * (h.top_step + 1) + 2 * t) as usize
}

// The card begins with the mark.
fn has_mark(bytes: &[u8]) -> bool
    requires { head_length ≤ length bytes.now }
    ensures { result ≡ same_list (mark_of bytes.now) card_mark }
{
    let start = Cursor { at: 0 };
    let (first, next) = start.take::<1>(bytes);
    if first != 0x44 {
        return false;
    }
    let (second, last) = next.take::<1>(bytes);
    if second != 0x4C {
        return false;
    }
    let (third, _) = last.take::<1>(bytes);
    third == 0x53
}

fn version(bytes: &[u8]) -> u64
    requires { head_length ≤ length bytes.now }
    ensures { result ≡ version_of bytes.now }
{
    let place = Cursor { at: VERSION_PLACE };
    place.take::<2>(bytes).0
}

fn read_header(bytes: &[u8]) -> Header
    requires { head_length ≤ length bytes.now }
    ensures { HeaderOf bytes.now result }
{
    let place = Cursor { at: MODULES_PLACE };
    let (modules, at_top) = place.take::<1>(bytes);
    let (top_step, at_slots) = at_top.take::<1>(bytes);
    let (slots, at_up) = at_slots.take::<2>(bytes);
    let (power_up, at_down) = at_up.take::<4>(bytes);
    let (power_down, _) = at_down.take::<4>(bytes);
    Header {
        modules,
        top_step,
        slots,
        power_up,
        power_down,
    }
}

// The number is from 1 to 200.
pub fn rack_number(n: u64) -> bool
    ensures { result ≡ rack_number n }
{
    (1..=200).contains(&n)
}

// The modules and the top step are from 1 to 200.
fn rack_in_range(h: Header) -> bool
    ensures { result ≡ rack_fits h }
{
    rack_number(h.modules) && rack_number(h.top_step)
}

// Refusals 1 and 2.
fn check_front(bytes: &[u8]) -> Answer
    ensures { result ≡ first_among (front_tests bytes.now) }
{
    if bytes.len() < HEAD_LENGTH as usize {
        return Err(Refusal::NotACard);
    }
    if !has_mark(bytes) {
        return Err(Refusal::NotACard);
    }
    if version(bytes) != 1 {
        return Err(Refusal::Version);
    }
    Ok(0)
}

// Refusals 3 to 5.
fn check_size(bytes: &[u8], h: Header) -> Answer
    requires { HeaderOf bytes.now h }
    ensures { result ≡ first_among (size_tests bytes.now) }
{
    if !rack_in_range(h) {
        return Err(Refusal::RackSize);
    }
    if 1024 < h.slots {
        return Err(Refusal::SlotCount);
    }
    if bytes.len() != load_place(h, h.slots) {
        return Err(Refusal::CardLength);
    }
    Ok(0)
}

impl WholeCard<'_> {
    // The table's entry F(k).
    pub fn entry(&self, k: u64) -> u64
        requires { EntryThere self.now.header k }
        ensures { TableEntry self.now.bytes.now k result }
    {
        let place = Cursor {
            at: (HEAD_LENGTH + 4 * k) as usize,
        };
        place.take::<4>(self.bytes).0
    }

    // The load of slot t.
    pub fn load(&self, t: u64) -> u64
        requires { LoadThere self.now.header t }
        ensures { SlotLoad self.now.bytes.now t result }
    {
        let place = Cursor {
            at: load_place(self.header, t),
        };
        place.take::<2>(self.bytes).0
    }

    // F(0) to F(Q) are at most 1,000,000.
    fn table_in_range(&self) -> bool
        ensures { result ≡ table_in_range self.now.header.top_step (instance_of self.now.bytes.now).table }
    {
        let entries = self.header.top_step + 1;
        for k in 0..entries {
            if 1000000 < self.entry(k) {
                return false;
            }
        }
        true
    }

    // F(k) + F(k + 2) is at least 2F(k + 1).
    fn convex_at(&self, k: u64) -> bool
        requires { k + 2 ≤ self.now.header.top_step }
        ensures { result ≡ convex_at (instance_of self.now.bytes.now).table k }
    {
        let low = self.entry(k);
        let middle = self.entry(k + 1);
        let high = self.entry(k + 2);
        2 * middle <= low + high
    }

    fn is_convex(&self) -> bool
        ensures { result ≡ convex self.now.header.top_step (instance_of self.now.bytes.now).table }
    {
        for k in 0..self.header.top_step.saturating_sub(1) {
            if !self.convex_at(k) {
                return false;
            }
        }
        true
    }

    // The lowest step: where a convex table first does not fall.
    fn lowest_step(&self) -> u64
        requires { convex self.now.header.top_step (instance_of self.now.bytes.now).table ≡ true }
        ensures { result ≡ lowest_of (instance_of self.now.bytes.now) }
    {
        let top_step = self.header.top_step;
        for k in 0..top_step {
            if self.entry(k) <= self.entry(k + 1) {
                return k;
            }
        }
        top_step
    }

    // The loads of some slots, from the first on, are at most a bound. Each is compared, also behind one that is too large, so that several are
    // compared at once.
    #[tactic(auto, using(crate::proofs::CardTests::loads_compared))]
    fn loads_fit(&self, most: u64, first: u64, count: u64) -> bool
        requires { first + count ≤ self.now.header.slots }
        ensures { result ≡ loads_fit (instance_of self.now.bytes.now) most first count }
    {
        let mut fit = true;
        for k in 0..count {
            fit &= self.load(first + k) <= most;
        }
        fit
    }

    // The loads are compared block by block, up to the first block with a load that is too large.
    #[tactic(auto, using(crate::proofs::CardTests::blocks_compared))]
    fn loads_in_range(&self) -> bool
        ensures { result ≡ loads_in_range (instance_of self.now.bytes.now) }
    {
        let most = self.header.modules * self.header.top_step;
        let blocks = self.header.slots / 64;
        for block in 0..blocks {
            if !self.loads_fit(most, 64 * block, 64) {
                return false;
            }
        }
        self.loads_fit(most, 64 * blocks, self.header.slots % 64)
    }

    // Refusals 6 to 8.
    fn check_body(&self) -> Answer
        ensures { result ≡ first_among (body_tests (instance_of self.now.bytes.now)) }
    {
        let h = self.header;
        if 500000000 < h.power_up {
            return Err(Refusal::PriceRange);
        }
        if 500000000 < h.power_down {
            return Err(Refusal::PriceRange);
        }
        if !self.table_in_range() {
            return Err(Refusal::PriceRange);
        }
        if !self.is_convex() {
            return Err(Refusal::NotConvex);
        }
        if !self.loads_in_range() {
            return Err(Refusal::LoadRange);
        }
        Ok(0)
    }
}

// Refusals 1 to 8, or the accepted card.
pub fn check(bytes: &[u8]) -> Result<Card<'_>, Refusal>
    ensures { MatchResult result (λ card. card.bytes.now ≡ bytes.now) (λ x. answer (check_card bytes.now) ≡ Err x) }
{
    check_front(bytes)?;
    let header = read_header(bytes);
    check_size(bytes, header)?;
    let whole = WholeCard { bytes, header };
    whole.check_body()?;
    let lowest_step = whole.lowest_step();
    Ok(Card {
        bytes,
        header,
        lowest_step,
    })
}

impl<'a> Card<'a> {
    // An accepted card is as long as its head says.
    fn whole(&self) -> WholeCard<'a>
        ensures bytes { result.bytes.now ≡ self.now.bytes.now }
        ensures header { result.header ≡ self.now.header }
    {
        WholeCard {
            bytes: self.bytes,
            header: self.header,
        }
    }

    // The table's entry F(k).
    pub fn entry(&self, k: u64) -> u64
        requires { EntryThere self.now.header k }
        ensures { TableEntry self.now.bytes.now k result }
    {
        self.whole().entry(k)
    }

    // The load of slot t.
    pub fn load(&self, t: u64) -> u64
        requires { LoadThere self.now.header t }
        ensures { SlotLoad self.now.bytes.now t result }
    {
        self.whole().load(t)
    }

    // The step at which a module is active for step k: on a convex table the greater of k and the lowest step.
    pub fn active_step(&self, k: u64) -> u64
        ensures { result ≡ active_step (instance_of self.now.bytes.now) k }
    {
        k.max(self.lowest_step)
    }
}
