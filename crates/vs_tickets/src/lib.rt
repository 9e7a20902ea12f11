//! Tickets that workers draw from one word: the word counts those drawn, none is drawn twice, and who has gathered all seats knows how many
//! were below the limit.
#![tactic(auto)]

ghost use Rattle.std.specs.Prelude.{◌≡◌, ◌<◌, ◌+◌, [], min, ◌-◌, IfOk, true, false};
ghost use Rattle.vs_tickets.specs.Rule.{share, all_parts, dealt_from, dealt, gathered, IsSeatOf};

use atomic_table::{Join, Play, Seat, Split, Table, TableRule};
use std::alloc::{AllocError, Global};

#[cfg(test)]
mod tests;

/// What a seat knows: its parts of all, how many tickets below the limit it drew, how many past it, and the limit. No value of it is made.
pub struct View {
    pub parts: u64,
    pub below: u64,
    pub past: u64,
    pub limit: u32,
}

/// The rule on the word, whose key is the limit.
pub struct Law;

impl TableRule<u8, View, u32> for Law {
    ghost use Rattle.vs_tickets.specs.Rule.{all_parts, share, Kept};

    ghost holds = { λ limit s. Kept limit s };

    ghost first = { λ limit. share all_parts 0 0 limit };
}

/// The word of which tickets are drawn.
pub type TicketWord = Table<u8, View, u32, Law, Global>;

/// What a worker draws tickets with.
pub type TicketSeat = Seat<u8, View>;

struct Deals;

impl Split<View> for Deals {
    ghost use Rattle.vs_tickets.specs.Rule.{dealt_from, dealt};

    ghost left = { dealt_from };

    ghost right = { dealt };
}

struct Gathers;

impl Join<View> for Gathers {
    ghost use Rattle.vs_tickets.specs.Rule.{gathered, share};

    ghost both = { gathered };

    ghost spent = { share 0 0 0 0 };
}

struct Draws;

impl Play<u8, View> for Draws {
    ghost use Rattle.vs_tickets.specs.Rule.{Drawn};

    ghost then = { λ _ me found now. Drawn me found now };
}

struct Learns;

impl Play<u8, View> for Learns {
    ghost use Rattle.vs_tickets.specs.Rule.{Learned};

    ghost then = { λ _ me found now. Learned me found now };
}

/// A word of which no ticket is drawn, and the seat with all parts.
pub fn open(alloc: Global, limit: u32) -> Result<(TicketWord, TicketSeat), AllocError>
    ensures word { IfOk result (λ t. IsSeatOf t.0.shared.table_id t.1.table_id × (t.0.shared.key ≡ limit)) }
    ensures seat { IfOk result (λ t. t.1.me ≡ (share all_parts 0 0 limit, [])) }
{
    TicketWord::of_words(alloc, &[0], &limit)
}

/// A seat with one part, for a worker.
pub fn deal(word: &TicketWord, maker: &mut TicketSeat) -> TicketSeat
    requires table { IsSeatOf word.now.shared.table_id maker.old.table_id }
    requires parts { maker.old.me.0.past + 1 < maker.old.me.0.parts }
    ensures maker { (maker.new.table_id ≡ maker.old.table_id) × (maker.new.me ≡ (dealt_from maker.old.me.0, maker.old.me.1)) }
    ensures seat { (result.table_id ≡ maker.old.table_id) × (result.me ≡ (dealt maker.old.me.0, [])) }
{
    word.shared.split_seat::<Deals>(maker)
}

/// Draws a ticket, by one fetch and add. True where it is below the limit. A seat goes past the limit at most as often as it has parts.
pub fn draw(word: &TicketWord, seat: &mut TicketSeat, limit: u32) -> bool
    requires table { IsSeatOf word.now.shared.table_id seat.old.table_id × (word.now.shared.key ≡ limit) }
    requires parts { (seat.old.me.0.past < seat.old.me.0.parts) × (seat.old.me.0.limit ≡ limit) }
    ensures table { (seat.new.table_id ≡ seat.old.table_id) × (seat.new.me.1 ≡ seat.old.me.1) }
    ensures below { result ≡ true → seat.new.me.0 ≡ share seat.old.me.0.parts (seat.old.me.0.below + 1) seat.old.me.0.past seat.old.me.0.limit }
    ensures past { result ≡ false → seat.new.me.0 ≡ share seat.old.me.0.parts seat.old.me.0.below (seat.old.me.0.past + 1) seat.old.me.0.limit }
{
    word.shared.fetch_add::<Draws>(seat, 0, 1) < u64::from(limit)
}

/// Ends a worker's seat: the maker takes its parts and its tickets.
pub fn gather(word: &TicketWord, maker: &mut TicketSeat, ended: TicketSeat)
    requires table { IsSeatOf word.now.shared.table_id maker.old.table_id }
    requires ended { (ended.table_id ≡ maker.old.table_id) × (ended.me.1 ≡ []) }
    requires parts { (0 < maker.old.me.0.parts) × (maker.old.me.0.limit ≡ word.now.shared.key) }
    ensures table { maker.new.table_id ≡ maker.old.table_id }
    ensures gathered { maker.new.me ≡ (gathered maker.old.me.0 ended.me.0, maker.old.me.1) }
{
    word.shared.join_seat::<Gathers>(maker, ended);
}

/// How many tickets were drawn in all. The seat has all parts again, so its tickets below the limit and past it are all that were drawn.
pub fn learn(word: &TicketWord, maker: &mut TicketSeat) -> u64
    requires table { IsSeatOf word.now.shared.table_id maker.old.table_id }
    requires parts { (maker.old.me.0.parts ≡ all_parts) × (maker.old.me.0.limit ≡ word.now.shared.key) }
    ensures same { (maker.new.table_id ≡ maker.old.table_id) × (maker.new.me ≡ maker.old.me) }
    ensures below { maker.old.me.0.below ≡ min result maker.old.me.0.limit }
    ensures past { maker.old.me.0.past ≡ result - maker.old.me.0.limit }
{
    word.shared.load::<Learns>(maker, 0)
}
