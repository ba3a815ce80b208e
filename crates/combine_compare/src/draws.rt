// The combinations that are compared: all rules of one to three states, without implied steps and with them, and all
// properties of one and two, with letters, masks, faults, the rule's mark tables and what bytes 6–7 of the property hold from
// a generator.
ghost use Rattle.std.specs.Prelude.{◌≤◌, ◌<◌};

use exhaustive::{Model, drawn, holds};

// How many rules there are, by their edges and their initial state, and how many properties, by their marks too.
const RULES: u64 = 1570;

const PROPERTIES: u64 = 132;

// A rule with its letters and a property with its masks. Byte s of the letters is the letter of state s. The mask of the
// edge from q to t is the 16-bit number at place 2 × q + t of the masks. The faults are a set. If the rule has a second mark
// table, it has the marks `second`; the result is the same without it.
#[derive(Clone, Copy)]
pub struct Combination {
    pub rule: Model,
    pub second: Option<u64>,
    pub property: Model,
    pub letters: u64,
    pub masks: u64,
    pub faults: u64,
}

// What is lent wrongly: the rule, the letters, the property or the output with a byte too few, the letters with one too
// many, a letter above 15. The number of each is its place in the set of faults. With other faults a mask is zero.
#[derive(Clone, Copy)]
pub enum Fault {
    RuleShort = 16,
    LettersShort = 17,
    LettersLong = 18,
    PropertyShort = 19,
    OutputShort = 20,
    LettersHigh = 21,
}

impl Fault {
    // Whether a set of faults holds this one.
    pub fn is_in(self, faults: u64) -> bool {
        holds(faults, self as usize)
    }
}

// The bits of a draw that bytes 6–7 of the property, whether the rule has two mark tables, and the marks of the second are
// taken from.
const PROPERTY_STAYS: usize = 40;

const RULE_TABLES: usize = 41;

const SECOND_MARKS: usize = 42;

// The set of edges among so many states that a number gives, one bit for each pair of states.
fn edges_of(states: usize, bits: u64) -> u64 {
    match states {
        1 => bits % 2,
        2 => (bits % 4) ^ ((bits / 4 % 4) << 8),
        _ => (bits % 8) ^ ((bits / 8 % 8) << 8) ^ ((bits / 64 % 8) << 16),
    }
}

// The marks of so many states that a draw gives.
fn marks_of(states: usize, x: u64) -> u64 {
    match states {
        1 => x % 2,
        2 => x % 4,
        _ => x % 8,
    }
}

// The rule with a number; its marks are drawn.
fn rule_at(number: u64, x: u64, stays: bool) -> Model
    ensures { (0 < result.states) × (result.states ≤ 3) × (result.start ≤ 2) }
{
    let (states, start, edges) = if number < 2 {
        (1, 0, edges_of(1, number))
    } else if number < 34 {
        (2, number % 2, edges_of(2, (number - 2) / 2))
    } else {
        (3, number % 3, edges_of(3, (number - 34) / 3))
    };
    Model {
        states,
        start: start as usize,
        edges,
        marks: marks_of(states, x),
        stays,
    }
}

// The property with a number.
fn property_at(number: u64, stays: bool) -> Model
    ensures { (0 < result.states) × (result.states ≤ 2) × (result.start ≤ 1) × (result.marks < 4) }
{
    if number < 4 {
        return Model {
            states: 1,
            start: 0,
            edges: number % 2,
            marks: number / 2,
            stays,
        };
    }
    Model {
        states: 2,
        start: (number % 2) as usize,
        edges: edges_of(2, (number - 4) / 8),
        marks: number / 2 % 4,
        stays,
    }
}

// Four masks from two draws, by kind: one letter in two, in four, three in four; each holds one letter at least.
fn masks_of(x: u64, y: u64, z: u64) -> u64 {
    let one = 0x0001000100010001 << (z % 16);
    match z / 16 % 3 {
        0 => x | one,
        1 => x & y | one,
        _ => x | y | one,
    }
}

// The masks as they are, or with one of them zero.
fn with_zero(masks: u64, which: u64) -> u64 {
    match which {
        0 => masks,
        1 => masks & 0xffffffffffff0000,
        2 => masks & 0xffffffff0000ffff,
        4 => masks & 0xffff0000ffffffff,
        _ => masks & 0x0000ffffffffffff,
    }
}

// The letters of a draw: 0 to 15, or with a fault 0 to 31.
fn letters_of(x: u64, fault: bool) -> u64 {
    x & if fault { 0x1f1f1f } else { 0x0f0f0f }
}

// A draw of faults, none for an even number.
fn faults_if(number: u64, x: u64) -> u64 {
    if number % 2 == 0 { 0 } else { x }
}

// The combination with a number: each second one has faults, each of them about every fourth time. Once all rules have
// been gone through, they come again with implied steps.
pub fn drawn_at(number: u64) -> Combination
    ensures { (0 < result.rule.states) × (result.rule.states ≤ 3) × (result.rule.start ≤ 2) × (0 < result.property.states) × (result.property.states ≤ 2) × (result.property.start ≤ 1) × (result.property.marks < 4) }
{
    let x = drawn(drawn(number ^ 0x9e3779b97f4a7c15));
    let y = drawn(x);
    let z = drawn(y);
    let v = drawn(z);
    let faults = faults_if(number, z & v);
    let masks = masks_of(x, y, z >> 8);
    let turn = number / 2 / PROPERTIES;
    let rule = rule_at(turn % RULES, v, turn / RULES % 2 == 1);
    Combination {
        rule,
        second: holds(v, RULE_TABLES).then_some(marks_of(rule.states, v >> SECOND_MARKS)),
        property: property_at(number / 2 % PROPERTIES, holds(v, PROPERTY_STAYS)),
        letters: letters_of(y >> 16, Fault::LettersHigh.is_in(faults)),
        masks: with_zero(masks, faults % 8),
        faults,
    }
}
