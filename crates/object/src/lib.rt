// Fill, strip, and what goes of a point's versions, in one point block of the lent bytes. The block's check is made after the last of them.
#![tactic(auto)]

ghost use Rattle.std.specs.Prelude.{◌≡◌, Bool, true, not, ◌≤◌, ◌<◌, max, length, leb, ltb, if◌then◌else◌};
ghost use Rattle.numbers.specs.Words.{keep, map, some?, ascends?, place};
ghost use Rattle.numbers.specs.Numbers.{counter, controllers, Crew};
ghost use Rattle.block.specs.Fields.{field};
ghost use Rattle.block.specs.Block.{Laid};
ghost use Rattle.meaning.specs.Context.{entry, is_empty, covers, fill_context, strip_context};
ghost use Rattle.meaning.specs.Object.{Version, version_before, has_value, fill, strip, gone};
ghost use Rattle.layout.specs.PointBlock.{form_1, encode_slot, decode_slot, decode_context, decode_point};
ghost use Rattle.layout.specs.Clocks.{decode_clock};
ghost use Rattle.record.specs.Crewed.{crewed};
ghost use Rattle.object.specs.Dropping.{MayBeAsked, SaysWhatGoes};
ghost use Rattle.object.specs.Versions.{VersionIn};
ghost use Rattle.record_edits.specs.Written.{lay_point, point_block, with_object, with_versions};

use numbers::{Controller, Counter, Dot};

pub fn filled_entry(e: Counter, holder: bool, base: u32) -> Counter
    ensures { result ≡ (if holder then counter (max e.0 base) else e) }
{
    if holder {
        if e.0 < base {
            return Counter(base);
        }
    }
    e
}

fn stripped_entry(e: Counter, base: u32) -> Counter
    ensures { result ≡ (if leb e.0 base then counter 0 else e) }
{
    if e.0 <= base {
        return Counter(0);
    }
    e
}

// "Fill raises each context entry n, for n holding the point's job, to the base of row n."
pub fn fill_in(b: &mut [u8], table: &[u8], rows: &[u8])
    requires { (length b.old ≡ 512) × Laid lay_point point_block b.old × (length table.now ≡ 8) × (length rows.now ≡ 96) }
    ensures { (point_block b.new ≡ with_object (point_block b.old) (fill table.now (decode_point form_1 b.old).key.job (decode_clock rows.now) (decode_point form_1 b.old).object))
        × Laid lay_point point_block b.new }
{
    let job = block::u8_at(b, 4);
    for who in 1..9 {
        let n = Controller(who);
        let e = record::context_entry(b, n);
        let r = parts::row_at(rows, n);
        let filled = filled_entry(e, parts::holds(table, n, job), r.base);
        record_edits::set_entry(b, n, filled);
    }
}

// "Strip sets to 0 each entry not above its base."
pub fn strip_off(b: &mut [u8], rows: &[u8])
    requires { (length b.old ≡ 512) × Laid lay_point point_block b.old × (length rows.now ≡ 96) }
    ensures { (point_block b.new ≡ with_object (point_block b.old) (strip (decode_clock rows.now) (decode_point form_1 b.old).object)) × Laid lay_point point_block b.new }
{
    for who in 1..9 {
        let n = Controller(who);
        let e = record::context_entry(b, n);
        let r = parts::row_at(rows, n);
        record_edits::set_entry(b, n, stripped_entry(e, r.base));
    }
}

// Versions go: those of which `goes` says so, asked of the block and of the version's place in it. The last is looked at first, so that those
// still to come stand where they stood.
pub fn drop_where<F: Fn(&[u8], usize) -> bool>(b: &mut [u8], goes: F)
    requires laid { (length b.old ≡ 512) × Laid lay_point point_block b.old }
    requires asked { MayBeAsked (F.pre goes) (decode_point form_1 b.old).object.versions }
    ensures { (stays : Version → Bool) → SaysWhatGoes (F.post goes) stays
        → (point_block b.new ≡ with_versions (point_block b.old) (keep stays (decode_point form_1 b.old).object.versions)) × Laid lay_point point_block b.new }
{
    for i in (0..record::version_count(b) as usize).rev() {
        if goes(b, i) {
            record_edits::remove_version(b, i);
        }
    }
}

// The versions that are deletions go.
pub fn drop_deleted(b: &mut [u8])
    requires { (length b.old ≡ 512) × Laid lay_point point_block b.old }
    ensures { (point_block b.new ≡ with_versions (point_block b.old) (keep (λ v. has_value v.contents) (decode_point form_1 b.old).object.versions)) × Laid lay_point point_block b.new }
{
    drop_where(b, |b, i| record::said_length(b, i) == 255);
}

// A given context of eight counters covers the dot.
pub fn given_covers(context: &[u32], d: Dot) -> bool
    requires { (length context.now ≡ 8) × Crew d.who }
    ensures { result ≡ covers (map counter context.now) d }
{
    let who = d.who.0;
    d.count.0 <= context[(who - 1) as usize]
}

// "drop the versions that the given context covers": how many stay.
pub fn staying(b: &[u8], context: &[u32]) -> usize
    requires { (length b.now ≡ 512) × (field b.now 5 1 ≤ 8) × (length context.now ≡ 8) × (crewed (decode_point form_1 b.now).object.versions ≡ true) }
    ensures { result ≡ length (keep (λ v. not (covers (map counter context.now) v.dot)) (decode_point form_1 b.now).object.versions) }
{
    (0..record::version_count(b) as usize)
        .filter(|i| !given_covers(context, record::version_dot(b, *i)))
        .count()
}

// "drop the versions that the given context covers"
pub fn drop_covered(b: &mut [u8], context: &[u32])
    requires { (length b.old ≡ 512) × Laid lay_point point_block b.old × (length context.now ≡ 8) × (crewed (decode_point form_1 b.old).object.versions ≡ true) }
    ensures { (point_block b.new ≡ with_versions (point_block b.old) (keep (λ v. not (covers (map counter context.now) v.dot)) (decode_point form_1 b.old).object.versions)) × Laid lay_point point_block b.new }
{
    drop_where(b, |b, i| given_covers(context, record::version_dot(b, i)));
}

// "Strip sets to 0 each entry not above its base": no entry would be left.
fn strips_to_none(b: &[u8], rows: &[u8]) -> bool
    requires { (length b.now ≡ 512) × (length rows.now ≡ 96) }
    ensures { result ≡ is_empty (strip_context (decode_clock rows.now) (decode_point form_1 b.now).object.context) }
{
    (1..9).all(|who| {
        let n = Controller(who);
        record::context_entry(b, n).0 <= parts::row_at(rows, n).base
    })
}

// "A record goes when its stripped context is empty and no version has a value": whether it would, stripped by these rows. Nothing is written,
// so that a step can be judged before it is made.
pub fn goes(b: &[u8], rows: &[u8]) -> bool
    requires { (length b.now ≡ 512) × (field b.now 5 1 ≤ 8) × (length rows.now ≡ 96) }
    ensures { result ≡ gone (strip (decode_clock rows.now) (decode_point form_1 b.now).object) }
{
    if !strips_to_none(b, rows) {
        return false;
    }
    record::all_deleted(b, record::version_count(b) as usize)
}

// "given context above the present reading's in any entry": the reading's context is the stored one, of 32 bytes, filled.
pub fn ahead(stored: &[u8], job: u8, table: &[u8], rows: &[u8], context: &[u32]) -> bool
    requires { (length stored.now ≡ 32) × (length table.now ≡ 8) × (length rows.now ≡ 96) × (length context.now ≡ 8) }
    ensures { result ≡ some? (λ n. ltb (entry (fill_context table.now job (decode_clock rows.now) (decode_context stored.now)) n).0 (entry (map counter context.now) n).0) controllers }
{
    (0..8).any(|i| {
        let n = Controller(i + 1);
        let at = i as usize;
        let e = Counter(block::u32_at(stored, 4 * at));
        let present = filled_entry(e, parts::holds(table, n, job), parts::row_at(rows, n).base);
        present.0 < context[at]
    })
}

// Where the version of this dot stands, or the place before which it would stand: "ascending by dot". They are at most eight, so each is
// looked at in turn.
pub fn find_version(b: &[u8], d: Dot) -> Result<usize, usize>
    requires { (length b.now ≡ 512) × (field b.now 5 1 ≤ 8) × (ascends? version_before (decode_point form_1 b.now).object.versions ≡ true) }
    ensures { VersionIn (decode_point form_1 b.now).object.versions d result }
{
    let count = record::version_count(b) as usize;
    for i in 0..count {
        let v = record::version_dot(b, i);
        if d.before(v) {
            return Err(i);
        }
        if !v.before(d) {
            return Ok(i);
        }
    }
    Err(count)
}

// A slot alone: "controller, length (255 = deleted), two zero bytes, counter (4)".
fn slot_dot(slot: &[u8]) -> Dot
    requires { length slot.now ≡ 32 }
    ensures { result ≡ (decode_slot form_1 slot.now).dot }
{
    Dot {
        who: Controller(block::u8_at(slot, 0)),
        count: Counter(block::u32_at(slot, 4)),
    }
}

// A version at its place among the others, "ascending by dot". One of the same dot goes.
pub fn put_version(b: &mut [u8], slot: &[u8])
    requires { (length b.old ≡ 512) × Laid lay_point point_block b.old × (ascends? version_before (decode_point form_1 b.old).object.versions ≡ true) × (length (decode_point form_1 b.old).object.versions < 8)
        × (length slot.now ≡ 32) × (encode_slot form_1 (decode_slot form_1 slot.now) ≡ slot.now) }
    ensures { (point_block b.new ≡ with_versions (point_block b.old) (place version_before (decode_slot form_1 slot.now) (decode_point form_1 b.old).object.versions))
        × Laid lay_point point_block b.new }
{
    match find_version(b, slot_dot(slot)) {
        Ok(i) => {
            record_edits::remove_version(b, i);
            record_edits::insert_version(b, i, slot);
        }
        Err(i) => record_edits::insert_version(b, i, slot),
    }
}
