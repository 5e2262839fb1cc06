// What a single record must be, given by value: the ranges of docs/DEFINITION.md, "The table", by kind and by label.
#![tactic(auto)]

ghost use Rattle.std.specs.Prelude.{◌≡◌};
ghost use Rattle.table.specs.Checks;

use table::layout::{LAST_STATE, MOST_NAMES, MOST_PRINCIPALS, wide};
use table::{Cell, Credential, Edge, Kind, Label, Mark, Name, Number, OutOfRange, Principal, Role};

pub fn within(low: usize, high: usize, x: Number) -> bool
    ensures { result ≡ Checks.within low high x }
{
    let x = wide(x);
    low <= x && x <= high
}

pub fn is_principal(p: Principal) -> bool
    ensures { result ≡ Checks.is_principal p }
{
    within(1, MOST_PRINCIPALS as usize, p.0)
}

pub fn is_name(n: Name) -> bool
    ensures { result ≡ Checks.is_name n }
{
    within(1, MOST_NAMES as usize, n.0)
}

pub fn is_role(role: Role) -> bool
    ensures { result ≡ Checks.is_role role }
{
    is_principal(role.owner) && is_name(role.name)
}

// Whether first and second are what the kind allows, where there are `cells` part cells.
pub fn meaning_ok(kind: Number, first: Number, second: Number, cells: usize) -> bool
    ensures { result ≡ Checks.meaning_ok kind first second cells }
{
    match Kind::try_from(kind) {
        Ok(Kind::SimpleMembership) => is_principal(Principal(first)) && second == 0,
        Ok(Kind::SimpleContainment) => is_principal(Principal(first)) && is_name(Name(second)),
        Ok(Kind::LinkingContainment) => is_name(Name(first)) && is_name(Name(second)),
        Ok(Kind::IntersectionContainment) => within(1, cells, first) && second == 0,
        Err(_) => false,
    }
}

pub fn credential_ok(c: Credential, cells: usize, automata: usize) -> bool
    ensures { result ≡ Checks.credential_ok cells automata c }
{
    is_role(c.role)
        && (meaning_ok(c.kind, c.first, c.second, cells) && wide(c.automaton) <= automata)
}

// Whether cell j is in range: its chain ends with it, or goes on to a greater cell.
pub fn cell_ok(c: Cell, j: usize, cells: usize) -> bool
    ensures { result ≡ Checks.cell_ok cells j c }
{
    let next = wide(c.next);
    is_role(c.role) && (next == 0 || (j < next && next <= cells))
}

// Whether the label is one of the four, with a role or an owner where it names one, and zeros where it names none.
pub fn label_ok(label: Number, role: Role) -> bool
    ensures { result ≡ Checks.label_ok label role }
{
    match Label::try_from(label) {
        Ok(Label::ThisRole | Label::OtherRoles) => is_role(role),
        Ok(Label::EveryRole) => role.owner.0 == 0 && role.name.0 == 0,
        Ok(Label::RolesOfOwner) => is_principal(role.owner) && role.name.0 == 0,
        Err(_) => false,
    }
}

pub fn edge_ok(e: Edge, automata: usize) -> bool
    ensures { result ≡ Checks.edge_ok automata e }
{
    within(1, automata, e.automaton)
        && (e.from <= LAST_STATE && (e.to <= LAST_STATE && label_ok(e.label, e.role)))
}

pub fn mark_ok(mark: Number) -> bool
    ensures { result ≡ Checks.mark_ok mark }
{
    Mark::try_from(mark).is_ok()
}
