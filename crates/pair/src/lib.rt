// The pair test of document 01: whether two conditions on one variable conflict. Constants are compared, never
// subtracted; the meaning is in specs/Pair.antt and in form's Conflict.
#![tactic(auto)]

ghost use Rattle.std.specs.Prelude.{◌≡◌};
ghost use Rattle.lower_laws.specs.PairTest.{low, level, high, apart, some_of};
ghost use Rattle.pair.specs.Pair.{conflicting};

// A choice among the numbers below a constant, the constant itself and the numbers above it.
#[derive(Clone, Copy)]
struct Sides {
    below: bool,
    level: bool,
    above: bool,
}

// Those that meet the relation to the constant; a number above 5 is no relation, and nothing meets it.
impl From<u8> for Sides {
    ghost from_gives = { λ relation sides. (sides.below ≡ low relation)
        × (sides.level ≡ level relation) × (sides.above ≡ high relation) };

    fn from(relation: u8) -> Sides {
        Sides {
            below: relation == 1 || relation == 2 || relation == 5,
            level: relation == 0 || relation == 3 || relation == 5,
            above: relation == 1 || relation == 3 || relation == 4,
        }
    }
}

impl Sides {
    // Whether both have one in common. Kept without branches: with && and ||, and with matches! above, the pair test
    // takes twice as long.
    fn overlaps(self, other: Sides) -> bool
        ensures { result ≡ some_of self.below self.level self.above other.below other.level other.above }
    {
        (self.below & other.below) | (self.level & other.level) | (self.above & other.above)
    }
}

// Whether a whole number lies between a and b.
fn apart(a: i32, b: i32) -> bool
    ensures { result ≡ apart a b }
{
    a < b && a < b - 1
}

// Whether no whole number has both relations, each to its constant. (a) Relations are numbers here: this and C's call
// promise for numbers above 5 too.
pub fn conflicting(relation1: u8, constant1: i32, relation2: u8, constant2: i32) -> bool
    ensures { result ≡ conflicting relation1 constant1 relation2 constant2 }
{
    let less = constant1 < constant2;
    let more = constant2 < constant1;
    let second = Sides::from(relation2);
    // on which sides of the second constant the numbers below the first lie, the first itself, and those above it
    let below = Sides {
        below: true,
        level: more,
        above: apart(constant2, constant1),
    };
    let level = Sides {
        below: less,
        level: constant1 == constant2,
        above: more,
    };
    let above = Sides {
        below: apart(constant1, constant2),
        level: less,
        above: true,
    };
    let met = Sides {
        below: second.overlaps(below),
        level: second.overlaps(level),
        above: second.overlaps(above),
    };
    !Sides::from(relation1).overlaps(met)
}
