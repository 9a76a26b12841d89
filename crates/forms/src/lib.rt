// The forms of a line: a row for each, in the definition's order. A form's place is its tag.
#![tactic(auto)]

ghost use Rattle.std.specs.Prelude.{◌≡◌, true, false, ◌<◌};
ghost use Rattle.sheet.specs.Forms.{form_of};
ghost use Rattle.forms.specs.Rows.{row, coded, unpacked, Packed, place_in, code_in, NONE, FLAT};
ghost use Rattle.forms.specs.Keys.{key_row, keyed};

// ---- keys

// kept: keys, and tags and letters below, stand as numbers in the words of the lent slices, where rows are found by them: fixed memory.
pub const SHEET: usize = 0;

pub const TEXT: usize = 1;

pub const KIND: usize = 2;

pub const TYPE: usize = 3;

pub const SHAPE: usize = 4;

pub const VALUE: usize = 5;

pub const ENTITY: usize = 6;

pub const PRINCIPAL: usize = 7;

pub const ACTION: usize = 8;

pub const RESOURCE: usize = 9;

pub const CONTEXT: usize = 10;

pub const DAY: usize = 11;

pub const NODE: usize = 12;

pub const POLICY: usize = 13;

pub const LINK: usize = 14;

pub const TERM: usize = 15;

// What no form has as its key.
pub const NO_KEY: usize = 16;

// Rows that stand in words only, after those of the keys: the policies that run, and made values.
pub const RUN: usize = NO_KEY;

pub const MADE: usize = RUN + 1;

// ---- what may stand at a place

// kept: a byte for a place, as a whole form is one word in a table that is read for each line of a sheet: fixed memory, and `unpacked` says so.
// A number below 16 for what refers to no line; 16 and a key for a line of it, 32, 48 and 64 and a key for a line of it or `?`, `-`, `*`.

pub const NONE: u8 = 0;

pub const NUMBER: u8 = 1;

pub const ENTRY: u8 = 2;

pub const KIND_LETTER: u8 = 3;

pub const FIELD_LETTER: u8 = 4;

pub const BIT: u8 = 5;

pub const PART_LETTER: u8 = 6;

pub const EFFECT: u8 = 7;

pub const DATE: u8 = 8;

pub const SLOT_LETTER: u8 = 9;

pub const LINE: u8 = 16;

pub const UNKNOWN: u8 = 32;

pub const DASH: u8 = 48;

pub const STAR: u8 = 64;

pub const OF_TEXT: u8 = LINE + TEXT as u8;

pub const OF_KIND: u8 = LINE + KIND as u8;

pub const OF_TYPE: u8 = LINE + TYPE as u8;

pub const OF_VALUE: u8 = LINE + VALUE as u8;

pub const OF_NODE: u8 = LINE + NODE as u8;

pub const OF_POLICY: u8 = LINE + POLICY as u8;

pub const TEXT_OR_UNKNOWN: u8 = UNKNOWN + TEXT as u8;

pub const VALUE_OR_UNKNOWN: u8 = UNKNOWN + VALUE as u8;

pub const TYPE_OR_DASH: u8 = DASH + TYPE as u8;

pub const VALUE_OR_DASH: u8 = DASH + VALUE as u8;

pub const TEXT_OR_STAR: u8 = STAR + TEXT as u8;

// What a mark is in a row.
pub const MARK: u32 = 10000;

// ---- words at a place: what each is in a row

// `e` and `a` of a kind.
pub const ORDINARY: u32 = 0;

pub const OF_ACTIONS: u32 = 1;

// `o` and `r` of an attribute.
pub const OPTIONAL: u32 = 0;

pub const REQUIRED: u32 = 1;

// `p`, `a`, `r` and `c` of a variable.
pub const PART_P: u32 = 0;

pub const PART_A: u32 = 1;

pub const PART_R: u32 = 2;

pub const PART_C: u32 = 3;

// `p` and `r` of a slot.
pub const SLOT_P: u32 = 0;

pub const SLOT_R: u32 = 1;

// The effects of a policy.
pub const PERMIT: u32 = 0;

pub const FORBID: u32 = 1;

// ---- tags

pub const SHEET_LINE: u32 = 0;

pub const TEXT_LINE: u32 = SHEET_LINE + 1;

pub const KIND_LINE: u32 = TEXT_LINE + 1;

pub const BOOL_TYPE: u32 = KIND_LINE + 1;

pub const LONG_TYPE: u32 = BOOL_TYPE + 1;

pub const STRING_TYPE: u32 = LONG_TYPE + 1;

pub const ENTITY_TYPE: u32 = STRING_TYPE + 1;

pub const SET_TYPE: u32 = ENTITY_TYPE + 1;

pub const RECORD_TYPE: u32 = SET_TYPE + 1;

pub const SHAPE_LINE: u32 = RECORD_TYPE + 1;

pub const BOOL_VALUE: u32 = SHAPE_LINE + 1;

pub const LONG_VALUE: u32 = BOOL_VALUE + 1;

pub const TEXT_VALUE: u32 = LONG_VALUE + 1;

pub const ENTITY_VALUE: u32 = TEXT_VALUE + 1;

pub const SET_VALUE: u32 = ENTITY_VALUE + 1;

pub const RECORD_VALUE: u32 = SET_VALUE + 1;

pub const ENTITY_LINE: u32 = RECORD_VALUE + 1;

pub const PRINCIPAL_LINE: u32 = ENTITY_LINE + 1;

pub const ACTION_LINE: u32 = PRINCIPAL_LINE + 1;

pub const RESOURCE_LINE: u32 = ACTION_LINE + 1;

pub const CONTEXT_LINE: u32 = RESOURCE_LINE + 1;

pub const LIT: u32 = CONTEXT_LINE + 1;

pub const ERR: u32 = LIT + 1;

pub const VAR: u32 = ERR + 1;

pub const AND: u32 = VAR + 1;

pub const OR: u32 = AND + 1;

pub const EQ: u32 = OR + 1;

pub const LT: u32 = EQ + 1;

pub const LE: u32 = LT + 1;

pub const ADD: u32 = LE + 1;

pub const SUB: u32 = ADD + 1;

pub const MUL: u32 = SUB + 1;

pub const IN: u32 = MUL + 1;

pub const GETTAG: u32 = IN + 1;

pub const HASTAG: u32 = GETTAG + 1;

pub const CONTAINS: u32 = HASTAG + 1;

pub const ALL: u32 = CONTAINS + 1;

pub const ANY: u32 = ALL + 1;

pub const IF: u32 = ANY + 1;

pub const IS: u32 = IF + 1;

pub const LIKE: u32 = IS + 1;

pub const GET: u32 = LIKE + 1;

pub const HAS: u32 = GET + 1;

pub const HASPATH: u32 = HAS + 1;

pub const NOT: u32 = HASPATH + 1;

pub const NEG: u32 = NOT + 1;

pub const EMPTY: u32 = NEG + 1;

pub const SET_OF: u32 = EMPTY + 1;

pub const RECORD_OF: u32 = SET_OF + 1;

pub const SLOT: u32 = RECORD_OF + 1;

pub const POLICY_LINE: u32 = SLOT + 1;

pub const DAY_LINE: u32 = POLICY_LINE + 1;

pub const LINK_LINE: u32 = DAY_LINE + 1;

pub const TERM_LINE: u32 = LINK_LINE + 1;

// How many forms there are; a tag that no form has.
pub const NO_TAG: u32 = TERM_LINE + 1;

// ---- the table

// The place from which on the items of a form ascend that has none which must: past its places.
pub const FLAT: usize = 5;

// A form: its key, how many items it has and how many may follow in a group, any number of times, the place from which on the first of each
// group ascend, and what may stand at its places, those of the group after the others.
#[derive(Clone, Copy)]
pub struct Form {
    pub key: usize,
    pub items: usize,
    pub group: usize,
    pub from: usize,
    pub first: u8,
    pub second: u8,
    pub third: u8,
    pub fourth: u8,
}

// A form as one word: a byte for each of its numbers, the first the lowest.
fn packed(f: Form) -> u64
    requires { (f.key < 256) × (f.items < 256) × (f.group < 256) × (f.from < 256) }
    ensures { unpacked result ≡ f }
{
    let counts = f.key + 0x100 * f.items + 0x1_0000 * f.group + 0x100_0000 * f.from;
    let slots = f.first as u64
        + 0x100 * f.second as u64
        + 0x1_0000 * f.third as u64
        + 0x100_0000 * f.fourth as u64;
    counts as u64 + 0x1_0000_0000 * slots
}

// A form without a group.
fn plain(key: usize, items: usize, first: u8, second: u8, third: u8, fourth: u8) -> u64
    requires { (key < 256) × (items < 256) }
    ensures { unpacked result ≡ row key items 0 FLAT first second third fourth }
{
    with(key, items, 0, first, second, third, fourth)
}

// One with a group.
fn with(key: usize, items: usize, group: usize, first: u8, second: u8, third: u8, fourth: u8) -> u64
    requires { (key < 256) × (items < 256) × (group < 256) }
    ensures { unpacked result ≡ row key items group FLAT first second third fourth }
{
    packed(Form {
        key,
        items,
        group,
        from: FLAT,
        first,
        second,
        third,
        fourth,
    })
}

// One whose groups ascend.
fn rising(
    key: usize,
    items: usize,
    group: usize,
    first: u8,
    second: u8,
    third: u8,
    fourth: u8,
) -> u64
    requires { (key < 256) × (items < 256) × (group < 256) }
    ensures { unpacked result ≡ row key items group items first second third fourth }
{
    packed(Form {
        key,
        items,
        group,
        from: items,
        first,
        second,
        third,
        fourth,
    })
}

// One item or more, all alike, which ascend.
fn rising_all(key: usize, slot: u8) -> u64
    requires { key < 256 }
    ensures { unpacked result ≡ row key 1 1 0 slot slot NONE NONE }
{
    packed(Form {
        key,
        items: 1,
        group: 1,
        from: 0,
        first: slot,
        second: slot,
        third: NONE,
        fourth: NONE,
    })
}

// The table. The forms of one key stand together.
fn form_word(tag: u32) -> u64
    ensures { unpacked result ≡ coded (form_of tag) }
{
    match tag {
        SHEET_LINE => plain(SHEET, 1, ENTRY, NONE, NONE, NONE),
        TEXT_LINE => plain(TEXT, 0, NONE, NONE, NONE, NONE),
        KIND_LINE => plain(KIND, 2, OF_TEXT, KIND_LETTER, NONE, NONE),
        BOOL_TYPE => plain(TYPE, 0, NONE, NONE, NONE, NONE),
        LONG_TYPE => plain(TYPE, 0, NONE, NONE, NONE, NONE),
        STRING_TYPE => plain(TYPE, 0, NONE, NONE, NONE, NONE),
        ENTITY_TYPE => rising_all(TYPE, OF_KIND),
        SET_TYPE => plain(TYPE, 1, OF_TYPE, NONE, NONE, NONE),
        RECORD_TYPE => rising(TYPE, 0, 3, OF_TEXT, FIELD_LETTER, OF_TYPE, NONE),
        SHAPE_LINE => rising(SHAPE, 2, 1, OF_TYPE, TYPE_OR_DASH, OF_KIND, NONE),
        BOOL_VALUE => plain(VALUE, 1, BIT, NONE, NONE, NONE),
        LONG_VALUE => plain(VALUE, 1, NUMBER, NONE, NONE, NONE),
        TEXT_VALUE => plain(VALUE, 1, OF_TEXT, NONE, NONE, NONE),
        ENTITY_VALUE => plain(VALUE, 2, OF_KIND, OF_TEXT, NONE, NONE),
        SET_VALUE => rising(VALUE, 0, 1, OF_VALUE, NONE, NONE, NONE),
        RECORD_VALUE => rising(VALUE, 0, 2, OF_TEXT, OF_VALUE, NONE, NONE),
        ENTITY_LINE => plain(
            ENTITY,
            4,
            OF_VALUE,
            VALUE_OR_UNKNOWN,
            VALUE_OR_UNKNOWN,
            VALUE_OR_UNKNOWN,
        ),
        PRINCIPAL_LINE => plain(PRINCIPAL, 2, OF_KIND, TEXT_OR_UNKNOWN, NONE, NONE),
        ACTION_LINE => plain(ACTION, 2, OF_KIND, OF_TEXT, NONE, NONE),
        RESOURCE_LINE => plain(RESOURCE, 2, OF_KIND, TEXT_OR_UNKNOWN, NONE, NONE),
        CONTEXT_LINE => plain(CONTEXT, 2, OF_TYPE, VALUE_OR_UNKNOWN, NONE, NONE),
        LIT => plain(NODE, 2, OF_TYPE, OF_VALUE, NONE, NONE),
        ERR => plain(NODE, 1, OF_TYPE, NONE, NONE, NONE),
        VAR => plain(NODE, 2, OF_TYPE, PART_LETTER, NONE, NONE),
        AND => plain(NODE, 3, OF_TYPE, OF_NODE, OF_NODE, NONE),
        OR => plain(NODE, 3, OF_TYPE, OF_NODE, OF_NODE, NONE),
        EQ => plain(NODE, 3, OF_TYPE, OF_NODE, OF_NODE, NONE),
        LT => plain(NODE, 3, OF_TYPE, OF_NODE, OF_NODE, NONE),
        LE => plain(NODE, 3, OF_TYPE, OF_NODE, OF_NODE, NONE),
        ADD => plain(NODE, 3, OF_TYPE, OF_NODE, OF_NODE, NONE),
        SUB => plain(NODE, 3, OF_TYPE, OF_NODE, OF_NODE, NONE),
        MUL => plain(NODE, 3, OF_TYPE, OF_NODE, OF_NODE, NONE),
        IN => plain(NODE, 3, OF_TYPE, OF_NODE, OF_NODE, NONE),
        GETTAG => plain(NODE, 3, OF_TYPE, OF_NODE, OF_NODE, NONE),
        HASTAG => plain(NODE, 3, OF_TYPE, OF_NODE, OF_NODE, NONE),
        CONTAINS => plain(NODE, 3, OF_TYPE, OF_NODE, OF_NODE, NONE),
        ALL => plain(NODE, 3, OF_TYPE, OF_NODE, OF_NODE, NONE),
        ANY => plain(NODE, 3, OF_TYPE, OF_NODE, OF_NODE, NONE),
        IF => plain(NODE, 4, OF_TYPE, OF_NODE, OF_NODE, OF_NODE),
        IS => plain(NODE, 3, OF_TYPE, OF_NODE, OF_KIND, NONE),
        LIKE => with(NODE, 2, 1, OF_TYPE, OF_NODE, TEXT_OR_STAR, NONE),
        GET => plain(NODE, 3, OF_TYPE, OF_NODE, OF_TEXT, NONE),
        HAS => plain(NODE, 3, OF_TYPE, OF_NODE, OF_TEXT, NONE),
        HASPATH => with(NODE, 3, 1, OF_TYPE, OF_NODE, OF_TEXT, OF_TEXT),
        NOT => plain(NODE, 2, OF_TYPE, OF_NODE, NONE, NONE),
        NEG => plain(NODE, 2, OF_TYPE, OF_NODE, NONE, NONE),
        EMPTY => plain(NODE, 2, OF_TYPE, OF_NODE, NONE, NONE),
        SET_OF => with(NODE, 1, 1, OF_TYPE, OF_NODE, NONE, NONE),
        RECORD_OF => rising(NODE, 1, 2, OF_TYPE, OF_TEXT, OF_NODE, NONE),
        SLOT => plain(NODE, 2, OF_TYPE, SLOT_LETTER, NONE, NONE),
        POLICY_LINE => plain(POLICY, 3, OF_TEXT, EFFECT, OF_NODE, NONE),
        DAY_LINE => plain(DAY, 1, DATE, NONE, NONE, NONE),
        LINK_LINE => plain(LINK, 3, OF_POLICY, VALUE_OR_DASH, VALUE_OR_DASH, NONE),
        TERM_LINE => plain(TERM, 3, OF_POLICY, DATE, DATE, NONE),
        _ => plain(NO_KEY, 1, NONE, NONE, NONE, NONE),
    }
}

// The form of a tag.
pub fn form_of(tag: u32) -> Form
    ensures { result ≡ coded (form_of tag) }
{
    let w = form_word(tag);
    Form {
        key: (w % 256) as usize,
        items: (w / 0x100 % 256) as usize,
        group: (w / 0x1_0000 % 256) as usize,
        from: (w / 0x100_0000 % 256) as usize,
        first: (w / 0x1_0000_0000 % 256) as u8,
        second: (w / 0x100_0000_0000 % 256) as u8,
        third: (w / 0x1_0000_0000_0000 % 256) as u8,
        fourth: (w / 0x100_0000_0000_0000 % 256) as u8,
    }
}

// Its key alone.
pub fn key_for(tag: u32) -> usize
    ensures { result ≡ (form_of tag).key }
{
    (form_word(tag) % 256) as usize
}

// What may stand at the four places of a form as one word: a byte each, the first the lowest.
pub fn slots_of(f: Form) -> u32
    ensures { Packed f result }
{
    f.first as u32
        + 0x100 * f.second as u32
        + 0x1_0000 * f.third as u32
        + 0x100_0000 * f.fourth as u32
}

// The place of a form that place `j` of a line is: past its items those of its group come again and again. A form has at most four.
fn place_of(f: Form, j: usize) -> usize
    ensures { result ≡ place_in f j }
{
    if j < f.items {
        return j;
    }
    if f.group == 0 {
        return 4;
    }
    f.items + (j - f.items) % f.group
}

// What may stand at place `j` of a line.
pub fn code_at(f: Form, j: usize) -> u8
    ensures { result ≡ code_in f j }
{
    match place_of(f, j) {
        0 => f.first,
        1 => f.second,
        2 => f.third,
        3 => f.fourth,
        _ => NONE,
    }
}

// ---- the keys' table

// The greatest number of lines of a key, where it is not one, and of made values.
const TEXTS: u32 = 512;

const KINDS: u32 = 32;

const TYPES: u32 = 128;

const VALUES: u32 = 1024;

const ENTITIES: u32 = 128;

const NODES: u32 = 1024;

const POLICIES: u32 = 64;

// The words that say where a key's rows begin: one a row, and one for the end of the last. Before them stand how many rows each key has, how many
// policies run, how many values were made, where the next row begins, and a word that nothing uses.
const SHEET_ROWS: usize = MADE + 3;

const TEXT_ROWS: usize = SHEET_ROWS + 2;

const KIND_ROWS: usize = TEXT_ROWS + TEXTS as usize + 1;

const TYPE_ROWS: usize = KIND_ROWS + KINDS as usize + 1;

const SHAPE_ROWS: usize = TYPE_ROWS + TYPES as usize + 1;

const VALUE_ROWS: usize = SHAPE_ROWS + KINDS as usize + 1;

const ENTITY_ROWS: usize = VALUE_ROWS + VALUES as usize + 1;

const PRINCIPAL_ROWS: usize = ENTITY_ROWS + ENTITIES as usize + 1;

const ACTION_ROWS: usize = PRINCIPAL_ROWS + 2;

const RESOURCE_ROWS: usize = ACTION_ROWS + 2;

const CONTEXT_ROWS: usize = RESOURCE_ROWS + 2;

const DAY_ROWS: usize = CONTEXT_ROWS + 2;

const NODE_ROWS: usize = DAY_ROWS + 2;

const POLICY_ROWS: usize = NODE_ROWS + NODES as usize + 1;

const LINK_ROWS: usize = POLICY_ROWS + POLICIES as usize + 1;

const TERM_ROWS: usize = LINK_ROWS + POLICIES as usize + 1;

const RUN_ROWS: usize = TERM_ROWS + POLICIES as usize + 1;

const MADE_ROWS: usize = RUN_ROWS + POLICIES as usize + 1;

// Where the first row begins.
pub const HEAP: usize = MADE_ROWS + VALUES as usize + 1;

// A key: the word that says where its first row begins, how many rows it may have, and its tag where it has no constructors.
#[derive(Clone, Copy)]
pub struct Key {
    pub base: usize,
    pub most: u32,
    pub tag: u32,
}

fn of_key(base: usize, most: u32, tag: u32) -> Key
    ensures { result ≡ key_row base most tag }
{
    Key { base, most, tag }
}

// The policies that run and made values stand after the keys.
pub fn key_row(key: usize) -> Key
    ensures { result ≡ keyed key }
{
    match key {
        SHEET => of_key(SHEET_ROWS, 1, SHEET_LINE),
        TEXT => of_key(TEXT_ROWS, TEXTS, TEXT_LINE),
        KIND => of_key(KIND_ROWS, KINDS, KIND_LINE),
        TYPE => of_key(TYPE_ROWS, TYPES, NO_TAG),
        SHAPE => of_key(SHAPE_ROWS, KINDS, SHAPE_LINE),
        VALUE => of_key(VALUE_ROWS, VALUES, NO_TAG),
        ENTITY => of_key(ENTITY_ROWS, ENTITIES, ENTITY_LINE),
        PRINCIPAL => of_key(PRINCIPAL_ROWS, 1, PRINCIPAL_LINE),
        ACTION => of_key(ACTION_ROWS, 1, ACTION_LINE),
        RESOURCE => of_key(RESOURCE_ROWS, 1, RESOURCE_LINE),
        CONTEXT => of_key(CONTEXT_ROWS, 1, CONTEXT_LINE),
        DAY => of_key(DAY_ROWS, 1, DAY_LINE),
        NODE => of_key(NODE_ROWS, NODES, NO_TAG),
        POLICY => of_key(POLICY_ROWS, POLICIES, POLICY_LINE),
        LINK => of_key(LINK_ROWS, POLICIES, LINK_LINE),
        TERM => of_key(TERM_ROWS, POLICIES, TERM_LINE),
        RUN => of_key(RUN_ROWS, POLICIES, NO_TAG),
        MADE => of_key(MADE_ROWS, VALUES, NO_TAG),
        _ => of_key(0, 0, NO_TAG),
    }
}
