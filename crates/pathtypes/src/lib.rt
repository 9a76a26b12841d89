// The typing of paths: the record types that the steps of a `haspath` reach, as a set of bits. A path of n steps over a group of k kinds has up to k^n
// ways, so no way is followed alone.
#![tactic(auto)]

ghost use Rattle.std.specs.Prelude.{◌≡◌, true, ◌-◌, ◌*◌, ◌≤◌, ◌<◌, length, get_or, drop};
ghost use Rattle.sheet.specs.Forms.{TYPE};
ghost use Rattle.typesets.specs.Sets.{TYPES, TYPE_WORDS, SLOTS, PLACES, Gathered, set_at};
ghost use Rattle.pathtypes.specs.Paths.{SETS, Skipped, Placed, PlaceOf, RecordsOf, Learned, PlacedIn, Seen, of_type, of_row, of_each, of_declared, of_step, of_place, of_slot, path_from, path_at};

use fits::kinds;
use forms::{ENTITY_TYPE, RECORD_TYPE, TYPE};
use table::{count, item, row, tag};
use typerows::{attribute, attribute_type, is_record};
use typesets::{PLACES, SLOTS, TYPE_WORDS, TYPES, are_seen, join_places, next, settle};
use words::{add, cut, has, join, read, store};

// The words of a set for each type, and of a set of texts.
const SETS: usize = TYPES * TYPE_WORDS;

const TEXT_WORDS: usize = 16;

// Those of the places that are seen, and of a set for each place.
const SEEN: usize = SLOTS * TYPE_WORDS;

const IMAGES: usize = PLACES * TYPE_WORDS;

// The words of a long record type, and the fewest steps for which it is searched once for each text.
const LONG: usize = 96;

const FEW: usize = 16;

// ---- the record types of types

// A record type joins a set; no other type does.
fn add_record(rows: &[u32], records: &mut [u32], ty: u32) -> bool
    requires { (get_or rows.now TYPE 0 ≤ TYPES) × (length records.old ≡ TYPE_WORDS) }
    ensures { Gathered records.old records.new (of_type rows.now ty) result }
{
    if !is_record(rows, ty) {
        return false;
    }
    add(records, ty as usize);
    true
}

// The record types of the attributes of all kinds of an entity type's row.
fn add_kinds(rows: &[u32], records: &mut [u32], type_row: &[u32]) -> bool
    requires { (get_or rows.now TYPE 0 ≤ TYPES) × (length records.old ≡ TYPE_WORDS) }
    ensures { Gathered records.old records.new (of_row rows.now type_row.now) result }
{
    for &kind in kinds(type_row) {
        if !add_record(rows, records, attribute_type(rows, kind)) {
            return false;
        }
    }
    true
}

// The record types of an entity or record type, worked out.
fn add_type(rows: &[u32], records: &mut [u32], ty: u32) -> bool
    requires { (get_or rows.now TYPE 0 ≤ TYPES) × (length records.old ≡ TYPE_WORDS) }
    ensures { Gathered records.old records.new (of_each rows.now ty) result }
{
    let q = row(rows, TYPE, ty);
    if tag(q) == ENTITY_TYPE {
        return add_kinds(rows, records, q);
    }
    add_record(rows, records, ty)
}

// What is worked out while a path is typed, so that nothing is twice: the record types of types, and those that record types reach by texts.
#[derive(Drop)]
struct Memory<'a> {
    rows: &'a [u32],
    // The types whose record types are known, and a set of these for each.
    known: [u32; TYPE_WORDS],
    sets: [u32; SETS],
    // The texts of the slots, the places that are seen, and a set of what is reached for each.
    texts: [u32; SLOTS],
    seen: [u32; SEEN],
    images: [u32; IMAGES],
    ghost few: { get_or rows.now TYPE 0 ≤ TYPES },
    ghost learned: { Learned rows.now known sets },
    ghost looked: { Seen rows.now texts seen images },
}

impl<'a> Memory<'a> {
    // The record types of a type are in its own set among `sets`, worked out unless they are known.
    fn learn(&mut self, ty: usize) -> bool
        requires { ty < TYPES }
        ensures set { RecordsOf self.old.rows.now (set_at self.new.sets ty) ty result }
        ensures rows { self.new.rows.now ≡ self.old.rows.now }
        ensures texts { self.new.texts ≡ self.old.texts }
    {
        if has(&self.known, ty) {
            return true;
        }
        let mut own = [0u32; TYPE_WORDS];
        if !add_type(self.rows, &mut own, ty as u32) {
            return false;
        }
        store(&mut self.sets, ty * TYPE_WORDS, &own);
        add(&mut self.known, ty);
        true
    }

    // The record types of a type join a set.
    fn add_known(&mut self, records: &mut [u32], ty: usize) -> bool
        requires { (length records.old ≡ TYPE_WORDS) × (ty < TYPES) }
        ensures gathered { Gathered records.old records.new (of_each self.old.rows.now ty) result }
        ensures rows { self.new.rows.now ≡ self.old.rows.now }
        ensures texts { self.new.texts ≡ self.old.texts }
    {
        if !self.learn(ty) {
            return false;
        }
        join(
            records,
            cut(&self.sets, ty * TYPE_WORDS, ty * TYPE_WORDS + TYPE_WORDS),
        );
        true
    }

    // The record types of the type that a record type declares for a text join a set, if it declares one.
    fn add_declared(&mut self, records: &mut [u32], ty: u32, text: u32) -> bool
        requires { length records.old ≡ TYPE_WORDS }
        ensures gathered { Gathered records.old records.new (of_declared self.old.rows.now text ty) result }
        ensures rows { self.new.rows.now ≡ self.old.rows.now }
        ensures texts { self.new.texts ≡ self.old.texts }
    {
        let Some(z) = attribute(self.rows, ty, text) else {
            return true;
        };
        if z >= count(self.rows, TYPE) {
            return false;
        }
        self.add_known(records, z as usize)
    }

    // Those of the record type and the text of a place are in their own set among `images`, worked out unless they are seen.
    fn look(&mut self, place: usize) -> bool
        requires { place < PLACES }
        ensures placed { PlacedIn self.old.rows.now self.old.texts self.new.images place result }
        ensures rows { self.new.rows.now ≡ self.old.rows.now }
        ensures texts { self.new.texts ≡ self.old.texts }
    {
        if has(&self.seen, place) {
            return true;
        }
        let mut own = [0u32; TYPE_WORDS];
        let text = self.texts[place / TYPES];
        if !self.add_declared(&mut own, (place % TYPES) as u32, text) {
            return false;
        }
        store(&mut self.images, place * TYPE_WORDS, &own);
        add(&mut self.seen, place);
        true
    }

    // They join a set.
    fn add_place(&mut self, reached: &mut [u32], place: usize) -> bool
        requires { (length reached.old ≡ TYPE_WORDS) × (place < PLACES) }
        ensures gathered { Gathered reached.old reached.new (of_place self.old.rows.now self.old.texts place) result }
        ensures rows { self.new.rows.now ≡ self.old.rows.now }
        ensures texts { self.new.texts ≡ self.old.texts }
    {
        if !self.look(place) {
            return false;
        }
        join(
            reached,
            cut(
                &self.images,
                place * TYPE_WORDS,
                place * TYPE_WORDS + TYPE_WORDS,
            ),
        );
        true
    }

    // Those of all record types of a set join another.
    fn add_places(&mut self, reached: &mut [u32], records: &[u32], slot: usize) -> bool
        requires { (length reached.old ≡ TYPE_WORDS) × (length records.now ≡ TYPE_WORDS) × (slot < SLOTS) }
        ensures gathered { Gathered reached.old reached.new (of_slot self.old.rows.now self.old.texts records.now slot) result }
        ensures rows { self.new.rows.now ≡ self.old.rows.now }
    {
        let mut y = next(records, 0);
        while y < TYPES {
            if !self.add_place(reached, slot * TYPES + y) {
                return false;
            }
            y = next(records, y + 1);
        }
        true
    }

    // Those that all record types of a set reach by the text of a slot.
    fn add_step(&mut self, reached: &mut [u32], records: &[u32], slot: usize) -> bool
        requires { (length reached.old ≡ TYPE_WORDS) × (length records.now ≡ TYPE_WORDS) × (slot < SLOTS) }
        ensures gathered { Gathered reached.old reached.new (of_slot self.old.rows.now self.old.texts records.now slot) result }
        ensures rows { self.new.rows.now ≡ self.old.rows.now }
    {
        if are_seen(&self.seen, records, slot) {
            join_places(&self.images, reached, records, slot);
            return true;
        }
        self.add_places(reached, records, slot)
    }

    // Those that they reach by a text.
    fn step(&mut self, reached: &mut [u32], records: &[u32], text: u32) -> bool
        requires { (length reached.old ≡ TYPE_WORDS) × (length records.now ≡ TYPE_WORDS) }
        ensures gathered { Gathered reached.old reached.new (of_step self.old.rows.now records.now text) result }
        ensures rows { self.new.rows.now ≡ self.old.rows.now }
    {
        let slot = settle(&mut self.texts, &mut self.seen, text);
        self.add_step(reached, records, slot)
    }
}

// ---- a path, from a group on

// The first word from `start` on whose step, the word before it, is none of the texts of a set.
fn skip(line: &[u32], texts: &[u32], start: usize) -> usize
    requires { 1 ≤ start }
    ensures { Skipped line.now texts.now start result }
{
    for i in start..line.len() {
        if !has(texts, item(line, i - 1) as usize) {
            return i;
        }
    }
    start.max(line.len())
}

// Whether the steps of a path from word `start` on, the first of them the word before it, are typed from a type. Texts whose step leaves the set
// of record types as it is are kept in a set of their own, until it changes.
fn group_typed(rows: &[u32], line: &[u32], ty: u32, start: usize) -> bool
    requires { (get_or rows.now TYPE 0 ≤ TYPES) × (ty < get_or rows.now TYPE 0) × (1 ≤ start) }
    ensures { result ≡ path_from rows.now (drop start line.now) (get_or line.now (start - 1) 0) ty }
{
    let mut records = [0u32; TYPE_WORDS];
    if !add_type(rows, &mut records, ty) {
        return false;
    }
    let mut kept = [0u32; TEXT_WORDS];
    let mut memory = Memory {
        rows,
        known: [0; TYPE_WORDS],
        sets: [0; SETS],
        texts: [0; SLOTS],
        seen: [0; SEEN],
        images: [0; IMAGES],
    };
    // kept: steps that change nothing are skipped, so the index leaps.
    let mut i = start;
    loop {
        i = skip(line, &kept, i);
        if i >= line.len() {
            break true;
        }
        let text = item(line, i - 1);
        let mut reached = [0u32; TYPE_WORDS];
        if !memory.step(&mut reached, &records, text) {
            break false;
        }
        i += 1;
        if records == reached {
            add(&mut kept, text as usize);
            continue;
        }
        kept = [0u32; TEXT_WORDS];
        records = reached;
    }
}

// ---- any path

// The one record type of a type; or more kinds than one; or neither.
#[derive(Clone, Copy)]
pub enum Place {
    Alone(u32),
    Group,
    Nowhere,
}

// That of an entity type's row.
fn kinds_place(rows: &[u32], type_row: &[u32]) -> Place
    ensures { PlaceOf (of_row rows.now type_row.now) result }
{
    if type_row.len() > 2 {
        return Place::Group;
    }
    let y = attribute_type(rows, item(type_row, 1));
    if is_record(rows, y) {
        return Place::Alone(y);
    }
    Place::Nowhere
}

fn place_of(rows: &[u32], ty: u32) -> Place
    ensures { Placed rows.now ty result }
{
    let q = row(rows, TYPE, ty);
    match tag(q) {
        RECORD_TYPE => Place::Alone(ty),
        ENTITY_TYPE => kinds_place(rows, q),
        _ => Place::Nowhere,
    }
}

// Whether a path with so many steps left, from a type with this record type, is worked as those from groups are, so that a long record type is
// searched once for each text. Either way gives the same where the type is there.
fn is_searched_once(rows: &[u32], ty: u32, record: u32, left: usize) -> bool
    ensures { result ≡ true → ty < get_or rows.now TYPE 0 }
{
    if ty >= count(rows, TYPE) {
        return false;
    }
    if left < FEW {
        return false;
    }
    row(rows, TYPE, record).len() >= LONG
}

// Whether all steps of a row's path, from a type on, are typed.
pub fn path_typed(rows: &[u32], line: &[u32], ty: u32) -> bool
    ensures { result ≡ path_at rows.now line.now ty }
{
    if count(rows, TYPE) as usize > TYPES {
        return false;
    }
    let mut z = ty;
    // kept: the type behind the last step is asked for its place too, which a range over the steps would have to do once more.
    let mut i: usize = 4;
    loop {
        let p = place_of(rows, z);
        match p {
            Place::Nowhere => break false,
            Place::Group => break group_typed(rows, line, z, i),
            Place::Alone(y) => {
                if i >= line.len() {
                    break true;
                }
                if is_searched_once(rows, z, y, line.len() - i) {
                    break group_typed(rows, line, z, i);
                }
                let Some(t) = attribute(rows, y, item(line, i - 1)) else {
                    break true;
                };
                z = t;
                i += 1;
            }
        }
    }
}
