// The types of a table of credentials and of a query, as docs/DEFINITION.md lays them out, and why an input is stopped. What an
// accepted table and a valid query are is in specs/Checks.antt; what an accepted table gives its readers, in
// proofs/WellFormed.antt. The crate `checks` makes the checks.
#![tactic(auto)]

pub mod layout; // layout.rt: the records of a table, by number

ghost use Rattle.std.specs.Prelude.{◌≡◌, eqb};
ghost use Rattle.table.specs.Kinds.{Reads, kind_number, label_number, mark_number};
ghost use Rattle.table.specs.Checks.{number_of};

use few::Few;

// The width of every number of a table, a query and a record.
pub type Number = u16;

// Principals and role names are separate sorts: neither stands for the other, though both are numbers.
#[derive(Clone, Copy, Debug, PartialEq, Eq)]
pub struct Principal(pub Number);

#[derive(Clone, Copy, Debug, PartialEq, Eq)]
pub struct Name(pub Number);

#[derive(Clone, Copy, Debug, PartialEq, Eq)]
pub struct Role {
    pub owner: Principal,
    pub name: Name,
}

// A principal's membership in a role.
#[derive(Clone, Copy, Debug, PartialEq, Eq)]
pub struct Goal {
    pub principal: Principal,
    pub role: Role,
}

#[derive(Clone, Copy)]
pub struct Query {
    pub principal: Principal,
    pub owner: Principal,
    pub name: Name,
    pub depth: Number,
}

// The kind says what first and second are: a principal, a name, a part cell or 0. automaton is 0 or the constraint's.
#[derive(Clone, Copy)]
pub struct Credential {
    pub role: Role,
    pub kind: Number,
    pub first: Number,
    pub second: Number,
    pub automaton: Number,
}

impl Credential {
    pub fn is(self, kind: Kind) -> bool
        ensures { result ≡ eqb self.kind (kind_number kind) }
    {
        self.kind == kind as Number
    }
}

// A number that stands for nothing where it is.
#[derive(Clone, Copy, Debug, PartialEq, Eq)]
pub struct OutOfRange;

// The kinds of a credential.
#[derive(Clone, Copy, Debug, PartialEq, Eq)]
pub enum Kind {
    SimpleMembership = 1,
    SimpleContainment = 2,
    LinkingContainment = 3,
    IntersectionContainment = 4,
}

impl TryFrom<Number> for Kind {
    type Error = OutOfRange;

    ghost try_from_gives = { Reads kind_number };

    fn try_from(number: Number) -> Result<Kind, OutOfRange> {
        match number {
            1 => Ok(Kind::SimpleMembership),
            2 => Ok(Kind::SimpleContainment),
            3 => Ok(Kind::LinkingContainment),
            4 => Ok(Kind::IntersectionContainment),
            _ => Err(OutOfRange),
        }
    }
}

// One part of an intersection; next is the number of the following cell, or 0.
#[derive(Clone, Copy)]
pub struct Cell {
    pub role: Role,
    pub next: Number,
}

// The parts of an intersection, in chain order.
pub type Chain = Few<Role, { layout::MOST_PARTS }>;

// Sets of states: state s counts 2^s. The mark says what is demanded of a record's words: that every one is accepted, or one.
#[derive(Clone, Copy)]
pub struct Automaton {
    pub starting: Number,
    pub accepting: Number,
    pub mark: Number,
}

impl Automaton {
    pub fn demands(self, mark: Mark) -> bool
        ensures { result ≡ eqb self.mark (mark_number mark) }
    {
        self.mark == mark as Number
    }
}

// The marks of an automaton.
#[derive(Clone, Copy, Debug, PartialEq, Eq)]
pub enum Mark {
    EveryWord = 0,
    SomeWord = 1,
}

impl TryFrom<Number> for Mark {
    type Error = OutOfRange;

    ghost try_from_gives = { Reads mark_number };

    fn try_from(number: Number) -> Result<Mark, OutOfRange> {
        match number {
            0 => Ok(Mark::EveryWord),
            1 => Ok(Mark::SomeWord),
            _ => Err(OutOfRange),
        }
    }
}

#[derive(Clone, Copy)]
pub struct Edge {
    pub automaton: Number,
    pub from: Number,
    pub label: Number,
    pub role: Role,
    pub to: Number,
}

// The labels of an edge: exactly its role, every role, every role but its own, every role of its owner.
#[derive(Clone, Copy, Debug, PartialEq, Eq)]
pub enum Label {
    ThisRole = 1,
    EveryRole = 2,
    OtherRoles = 3,
    RolesOfOwner = 4,
}

impl TryFrom<Number> for Label {
    type Error = OutOfRange;

    ghost try_from_gives = { Reads label_number };

    fn try_from(number: Number) -> Result<Label, OutOfRange> {
        match number {
            1 => Ok(Label::ThisRole),
            2 => Ok(Label::EveryRole),
            3 => Ok(Label::OtherRoles),
            4 => Ok(Label::RolesOfOwner),
            _ => Err(OutOfRange),
        }
    }
}

// Why an input is stopped, by the numbers of docs/DEFINITION.md, "Where each input is stopped". The row of marks has the last
// number, though it is made right behind the row of edges.
#[derive(Clone, Copy, Debug, PartialEq, Eq)]
pub enum Reason {
    ShortHead = 1,
    CountOverLimit = 2,
    WrongLength = 3,
    Credential = 4,
    Cell = 5,
    Chain = 6,
    Edge = 7,
    Query = 8,
    NoMinimalSet = 9,
    LongerThanBuffer = 10,
    RecordLength = 11,
    Node = 12,
    Branch = 13,
    Word = 14,
    NotListed = 15,
    LongerRecord = 16,
    Mark = 17,
}

impl Reason {
    pub fn number(self) -> u32
        ensures { result ≡ number_of self }
    {
        u32::from(self)
    }
}

// The definition's number of a reason.
impl From<Reason> for u32 {
    ghost from_gives = { λ reason number. number ≡ number_of reason };

    fn from(reason: Reason) -> u32 {
        reason as u32
    }
}

// The position is a record's, a field's, a node's or an automaton's number, or 0.
#[derive(Clone, Copy, Debug, PartialEq, Eq)]
pub struct Refusal {
    pub reason: Reason,
    pub position: usize,
}

// A refusal of the whole: its position is 0.
impl From<Reason> for Refusal {
    ghost from_gives = { λ reason why. why ≡ record { reason = reason; position = 0 } };

    fn from(reason: Reason) -> Refusal {
        Refusal {
            reason,
            position: 0,
        }
    }
}
