// How a reply is made inside, and how it is handed to the C side as one number.
#![tactic(auto)]

ghost use Rattle.std.specs.Prelude.{◌≡◌, ℕ, [], ◌∷◌, ◌<◌};
ghost use Rattle.definitions.specs.Reply as answer;
ghost use Rattle.reply.specs.Reasons.{reason_number};

use definitions::{Place, Refusal, Reply};

// Why an operation refuses: the rows of the reply table.
#[derive(Clone, Copy, Debug, PartialEq, Eq)]
pub enum Reason {
    BadMapLength,
    NoMatch,
    NoResult,
    NoRoom,
    NewCycle,
    // What is wrong with a graph block.
    BadGraphHeader,
    BadGraphRecord,
    BadGraphName,
    GraphHasCycle,
    BadGraphCount,
    // What is wrong with a rule block.
    BadRuleHeader,
    BadRuleRecord,
    BadRuleOrder,
    BadRuleOutputs,
    BadRuleExpression,
    // The list of moves is not 2N bytes.
    BadMovesLength,
    // The map is no match.
    NotAMatch,
    // The vertex is a rule input, or no source vertex.
    NoSuchVertex,
    // The text buffer is shorter than the listing.
    ShortText,
    // The text is no listing.
    BadListing,
    // The graph of the listing is not sound.
    UnsoundListing,
    // The graph buffer is not as long as the block of the listing's graph.
    BadGraphLength,
}

// The number of a reason in the reply table, which C is told.
impl From<Reason> for u8 {
    ghost from_gives = { λ reason number. number ≡ reason_number reason };

    fn from(reason: Reason) -> u8 {
        match reason {
            Reason::BadMapLength => 1,
            Reason::NoMatch => 4,
            Reason::NoResult => 5,
            Reason::NoRoom => 6,
            Reason::NewCycle => 7,
            Reason::BadGraphHeader => 20,
            Reason::BadGraphRecord => 21,
            Reason::BadGraphName => 22,
            Reason::GraphHasCycle => 23,
            Reason::BadGraphCount => 24,
            Reason::BadRuleHeader => 30,
            Reason::BadRuleRecord => 31,
            Reason::BadRuleOrder => 32,
            Reason::BadRuleOutputs => 33,
            Reason::BadRuleExpression => 34,
            Reason::BadMovesLength => 40,
            Reason::NotAMatch => 41,
            Reason::NoSuchVertex => 42,
            Reason::ShortText => 43,
            Reason::BadListing => 44,
            Reason::UnsoundListing => 45,
            Reason::BadGraphLength => 46,
        }
    }
}

// What tells why an operation refuses: a reason, or the number of a row of the reply table itself.
pub trait Cause {
    ghost told: { Self → ℕ };

    fn to_number(self) -> u8
        ensures { result ≡ told self };
}

impl Cause for Reason {
    ghost told = { reason_number };

    fn to_number(self) -> u8 {
        u8::from(self)
    }
}

impl Cause for u8 {
    ghost told = { λ number. number };

    fn to_number(self) -> u8 {
        self
    }
}

// The refusal for this cause, with this place. No request names a value beside the place yet.
pub fn refuse_at<C: Cause + Copy>(cause: C, index: u32) -> Reply
    ensures { result ≡ answer.refused_at (C.told cause) index }
{
    Err(Refusal {
        number: cause.to_number(),
        place: Place { index, value: 0 },
    })
}

// The refusal for this cause, for which no request names a place.
pub fn refuse<C: Cause + Copy>(cause: C) -> Reply
    ensures { result ≡ answer.refused (C.told cause) }
{
    refuse_at(cause, 0)
}

// Done, with the answer to a question: value 1 is yes, and 0 is no.
pub fn answer_with(yes: bool) -> Reply
    ensures { result ≡ answer.answered yes }
{
    Ok(u32::from(yes))
}

// The first of two replies that refuses, or done.
pub fn first_refusal(one: Reply, other: Reply) -> Reply
    ensures { result ≡ answer.first_refusal (one ∷ other ∷ []) }
{
    one?;
    other?;
    Ok(0)
}

// In the number that the C side gets, where the place begins, at bit 8, and where the value does, at bit 40.
const PLACE_UNIT: u64 = 256;

const VALUE_UNIT: u64 = 1099511627776;

// The number in bits 0 to 7, the place in bits 8 to 39, the value in bits 40 to 63.
pub fn pack(reply: Reply) -> u64
    requires { answer.value_beside reply < answer.value_limit }
    ensures { result ≡ answer.packed reply }
{
    match reply {
        Ok(value) => VALUE_UNIT * u64::from(value),
        Err(refusal) => {
            let number = u64::from(refusal.number);
            let index = u64::from(refusal.place.index);
            let value = u64::from(refusal.place.value);
            number + PLACE_UNIT * index + VALUE_UNIT * value
        }
    }
}
