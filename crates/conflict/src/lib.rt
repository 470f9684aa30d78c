// The join types of hypergraph.rs and its three compatibility tables.
#![tactic(auto)]

ghost use Rattle.std.specs.Prelude.{◌≡◌, ℕ, ◌<◌};
ghost use Rattle.definition.specs.Tables.{type_of, assoc, l_asscom, r_asscom, asked};
ghost use Rattle.conflict.specs.Views.{type_number, asked_of, table_at, place, Says, Numbered};

// A join as the tables know it: document 01's types 0 to 7, in that order.
#[derive(Clone, Copy, Debug, Default, PartialEq, Eq)]
pub enum HyperedgeJoinType {
    #[default]
    Inner,
    LeftSemi,
    LeftOuter,
    LeftOuterNullRejectingLeft,
    FullOuter,
    FullOuterNullRejectingLeft,
    FullOuterNullRejectingRight,
    FullOuterNullRejectingBoth,
}

// A number that is no type's.
#[derive(Clone, Copy, Debug, PartialEq, Eq)]
pub struct UnknownType;

// The three tables, by their places.
#[derive(Clone, Copy)]
enum Table {
    Assoc,
    LAsscom,
    RAsscom,
}

// The three tables, eight rows of eight bits each: bit j of row i is 1 where the table allows the reordering for the types i, j.
const ASSOC: [u8; 8] = [9, 0, 0, 248, 240, 240, 240, 240];

const L_ASSCOM: [u8; 8] = [15, 15, 15, 255, 0, 255, 0, 255];

const R_ASSCOM: [u8; 8] = [1, 0, 0, 0, 0, 0, 192, 192];

// The tables by their places, so that one test goes over the cells of all three.
const TABLES: [[u8; 8]; 3] = [ASSOC, L_ASSCOM, R_ASSCOM];

impl HyperedgeJoinType {
    // The type of a join of this item kind. RightOuter is not turned around. Kinds above 8 are no joins, and are given Inner.
    // kept: several kinds have one type, and a kind's number is another than its type's, which TryFrom reads.
    #[tactic(auto, unfolding(definition::specs::Tables::type_of, definition::specs::Lists::member))]
    pub fn from_join_type(kind: u32) -> Self
        ensures { type_number result ≡ type_of kind }
    {
        match kind {
            1 | 2 | 6 | 7 => Self::LeftSemi,
            3 | 4 => Self::LeftOuter,
            5 => Self::FullOuter,
            _ => Self::Inner,
        }
    }

    // The type's number.
    // kept: a method. `From` for u32 would say the same in more lines, and `u32::from(t)` wouldn't say that the number is document 01's.
    pub fn number(self) -> u32
        ensures { result ≡ type_number self }
    {
        self as u32
    }
}

// The type of this number.
impl TryFrom<u32> for HyperedgeJoinType {
    type Error = UnknownType;

    ghost try_from_gives = { Numbered };

    fn try_from(number: u32) -> Result<Self, UnknownType> {
        match number {
            0 => Ok(Self::Inner),
            1 => Ok(Self::LeftSemi),
            2 => Ok(Self::LeftOuter),
            3 => Ok(Self::LeftOuterNullRejectingLeft),
            4 => Ok(Self::FullOuter),
            5 => Ok(Self::FullOuterNullRejectingLeft),
            6 => Ok(Self::FullOuterNullRejectingRight),
            7 => Ok(Self::FullOuterNullRejectingBoth),
            _ => Err(UnknownType),
        }
    }
}

impl Table {
    // kept: a method. `usize::from(table)` wouldn't say that it is the place in TABLES.
    fn place(self) -> usize
        ensures { result ≡ place self }
    {
        self as usize
    }
}

// Bit b of row a of a table.
fn look_up(tables: [[u8; 8]; 3], table: Table, a: HyperedgeJoinType, b: HyperedgeJoinType) -> bool
    ensures { Says tables (place table) (type_number a) (type_number b) (asked_of (Ok result)) }
{
    let row = a.number() as usize;
    (tables[table.place()][row] >> b.number()) % 2 == 1
}

// Whether a table allows the reordering for joins of the types a, b.
fn allows(table: Table, a: HyperedgeJoinType, b: HyperedgeJoinType) -> bool
    ensures { result ≡ table_at (place table) (type_number a) (type_number b) }
{
    look_up(TABLES, table, a, b)
}

// What a table says of the types with the numbers a, b.
// kept: numbers, as the three below take them.
fn ask(table: Table, a: u32, b: u32) -> Result<bool, UnknownType>
    ensures { asked_of result ≡ asked (table_at (place table)) a b }
{
    let a = HyperedgeJoinType::try_from(a)?;
    let b = HyperedgeJoinType::try_from(b)?;
    Ok(allows(table, a, b))
}

// Whether the table allows (x a y) b z to become x a (y b z), for joins of the types with the numbers a, b.
// kept: the Rust's three names over one body, ask. Any number was taken, and one that is no type's has an answer: an enum would ask more of callers.
pub fn assoc(a: u32, b: u32) -> Result<bool, UnknownType>
    ensures { asked_of result ≡ asked assoc a b }
{
    ask(Table::Assoc, a, b)
}

// Whether the table allows (x a y) b z to become (x b z) a y, for joins of the types with the numbers a, b.
// kept: as assoc.
pub fn l_asscom(a: u32, b: u32) -> Result<bool, UnknownType>
    ensures { asked_of result ≡ asked l_asscom a b }
{
    ask(Table::LAsscom, a, b)
}

// Whether the table allows x a (y b z) to become y b (x a z), for joins of the types with the numbers a, b.
// kept: as assoc.
pub fn r_asscom(a: u32, b: u32) -> Result<bool, UnknownType>
    ensures { asked_of result ≡ asked r_asscom a b }
{
    ask(Table::RAsscom, a, b)
}
