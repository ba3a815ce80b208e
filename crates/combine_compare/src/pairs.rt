// The independent combination: the pairs of a rule's states and a property's states, with the edges between them as a
// set of pairs of pairs; and what the call must answer.
ghost use Rattle.std.specs.Prelude.{◌≤◌};

use crate::draws::{Combination, Fault};
use exhaustive::{Model, holds};

// The steps of the rule, implied ones included, and the edges of the property, the letters and the masks, each in one
// number, and how many states the property has.
#[derive(Clone, Copy)]
struct Sets {
    rule: u64,
    property: u64,
    letters: u64,
    masks: u64,
    size: usize,
}

// The letter of a state.
fn letter(letters: u64, s: usize) -> usize {
    if s < 3 {
        ((letters >> (8 * s)) % 256) as usize
    } else {
        0
    }
}

// The mask at a place: that of the edge from place / 2 to place % 2.
pub fn mask(masks: u64, place: usize) -> usize {
    if place < 4 {
        ((masks >> (16 * place)) % 65536) as usize
    } else {
        0
    }
}

// Whether the property has the edge of the mask at a place.
pub fn leads(edges: u64, place: usize) -> bool {
    place < 4 && holds(edges, 8 * (place / 2) + place % 2)
}

// Whether the pair (s, q) leads to the pair (t, u), where place is 2 × q + u.
fn joined(x: Sets, s: usize, t: usize, place: usize) -> bool
    requires { (s ≤ 2) × (t ≤ 2) }
{
    holds(x.rule, 8 * s + t)
        && leads(x.property, place)
        && holds(mask(x.masks, place) as u64, letter(x.letters, s))
}

// The number of a pair, where the property has one state or two.
fn pair(size: usize, s: usize, q: usize) -> usize
    requires { (s ≤ 3) × (q ≤ 1) }
    ensures { result ≤ 7 }
{
    if size == 1 { s } else { 2 * s + q }
}

// The set that holds the edge from (s, q) to (t, u), if there is one.
fn edge(x: Sets, s: usize, q: usize, t: usize, u: usize) -> u64
    requires { (s ≤ 2) × (q ≤ 1) × (t ≤ 2) × (u ≤ 1) }
{
    if joined(x, s, t, 2 * q + u) {
        1 << (8 * pair(x.size, s, q) + pair(x.size, t, u))
    } else {
        0
    }
}

// The edges from (s, q) to all pairs.
fn edges_from(x: Sets, s: usize, q: usize) -> u64
    requires { (s ≤ 2) × (q ≤ 1) }
{
    let mut set = 0;
    for t in 0..3 {
        set |= edge(x, s, q, t, 0) | edge(x, s, q, t, 1);
    }
    set
}

// The edges between all pairs.
fn edges(x: Sets) -> u64 {
    let mut set = 0;
    for s in 0..3 {
        set |= edges_from(x, s, 0) | edges_from(x, s, 1);
    }
    set
}

// The marks of all pairs: those of the property, once for each state of the rule.
fn marks(states: usize, size: usize, first: u64) -> u64 {
    let second = first << pair(size, 1, 0);
    let third = first << pair(size, 2, 0);
    match states {
        1 => first,
        2 => first | second,
        _ => first | second | third,
    }
}

// The model of all pairs.
pub fn model_of(c: Combination) -> Model
    requires { (c.rule.states ≤ 3) × (c.rule.start ≤ 2) × (c.property.start ≤ 1) }
    ensures { result.states ≤ 7 }
{
    let rule = c.rule;
    let stepping = exhaustive::explicit(rule);
    let property = c.property;
    let size = property.states;
    let x = Sets {
        rule: stepping.edges,
        property: property.edges,
        letters: c.letters,
        masks: c.masks,
        size,
    };
    Model {
        states: pair(size, rule.states, 0),
        start: pair(size, rule.start, property.start),
        edges: edges(x),
        marks: marks(rule.states, size, property.marks),
        stays: false,
    }
}

// Whether a letter of so many states is above 15.
fn high_letter(letters: u64, states: usize) -> bool {
    match states {
        1 => letters & 0xf0 != 0,
        2 => letters & 0xf0f0 != 0,
        _ => letters & 0xf0f0f0 != 0,
    }
}

// Whether the property has an edge whose mask, at a place, is zero.
fn zero_at(edges: u64, masks: u64, place: usize) -> bool {
    leads(edges, place) && mask(masks, place) == 0
}

// Whether an edge of the property has a zero mask.
fn zero_mask(edges: u64, masks: u64) -> bool {
    (0..4).any(|place| zero_at(edges, masks, place))
}

// Whether the letters are to be refused.
fn bad_letters(faults: u64, letters: u64, states: usize) -> bool {
    Fault::LettersShort.is_in(faults)
        || Fault::LettersLong.is_in(faults)
        || high_letter(letters, states)
}

// Whether the property is to be refused.
fn bad_property(faults: u64, edges: u64, masks: u64) -> bool {
    Fault::PropertyShort.is_in(faults) || zero_mask(edges, masks)
}

// What the call must answer, where the result has so many bytes: the number of the first refusal, or those bytes.
pub fn answer_of(c: Combination, total: usize) -> Result<usize, u16> {
    if Fault::RuleShort.is_in(c.faults) {
        Err(7)
    } else if bad_letters(c.faults, c.letters, c.rule.states) {
        Err(16)
    } else if bad_property(c.faults, c.property.edges, c.masks) {
        Err(17)
    } else if Fault::OutputShort.is_in(c.faults) {
        Err(15)
    } else {
        Ok(total)
    }
}
