// Merging a message's point into a point block of the lent bytes, in place, and the questions by which such a merge is judged before it is made.
// A context stands beside its block as eight counters: `here` is the local one, filled by our clock, and `there` the message's, which a repair
// has filled with the sender's.
#![tactic(auto)]

ghost use Rattle.std.specs.Prelude.{◌≡◌, true, ◌||◌, ◌&&◌, not, ◌+◌, ◌*◌, ◌≤◌, ◌<◌, max, length};
ghost use Rattle.numbers.specs.Words.{map, some?, ascends?, place_all};
ghost use Rattle.numbers.specs.Numbers.{counter, Crew};
ghost use Rattle.block.specs.Fields.{cut, field};
ghost use Rattle.block.specs.Block.{Laid};
ghost use Rattle.meaning.specs.Context.{is_empty, covers, fill_context, strip_context, higher};
ghost use Rattle.meaning.specs.Object.{version_before, has_value, has_dot, strip, survivors, merge, gone};
ghost use Rattle.layout.specs.PointBlock.{form_1, decode_slot, decode_context, decode_point};
ghost use Rattle.layout.specs.Clocks.{decode_clock};
ghost use Rattle.record.specs.Crewed.{crewed};
ghost use Rattle.record_edits.specs.Written.{lay_point, point_block, with_object, with_versions};
ghost use Rattle.merging.specs.Merging.{ours, theirs, none_here, arriving, agreeing, with_context};

use numbers::{Controller, Counter, Dot};

// "Fill raises each context entry n, for n holding the point's job, to the base of row n": a stored context, of 32 bytes, filled, as eight
// counters.
pub fn filled_context(stored: &[u8], job: u8, table: &[u8], rows: &[u8], out: &mut [u32])
    requires { (length stored.now ≡ 32) × (length table.now ≡ 8) × (length rows.now ≡ 96) × (length out.old ≡ 8) }
    ensures { (map counter out.new ≡ fill_context table.now job (decode_clock rows.now) (decode_context stored.now)) × (length out.new ≡ 8) }
{
    for i in 0..8 {
        let n = Controller(i + 1);
        let at = i as usize;
        let e = Counter(block::u32_at(stored, 4 * at));
        let r = parts::row_at(rows, n);
        let filled = object::filled_entry(e, parts::holds(table, n, job), r.base);
        out[at] = filled.0;
    }
}

// "Merge keeps the versions in both objects and those in one that the other's context does not cover": whether the version of this dot stays.
fn survives(d: Dot, m: &[u8], there: &[u32]) -> bool
    requires { Crew d.who × (length m.now ≡ 512) × (field m.now 5 1 ≤ 8) × (length there.now ≡ 8) }
    ensures { result ≡ (has_dot (decode_point form_1 m.now).object.versions d || not (covers (map counter there.now) d)) }
{
    if apart::has_version(m, d) {
        return true;
    }
    !object::given_covers(there, d)
}

// How many of the local versions stay.
pub fn surviving(b: &[u8], m: &[u8], there: &[u32]) -> usize
    requires { (length b.now ≡ 512) × (field b.now 5 1 ≤ 8) × (crewed (decode_point form_1 b.now).object.versions ≡ true)
        × (length m.now ≡ 512) × (field m.now 5 1 ≤ 8) × (length there.now ≡ 8) }
    ensures { result ≡ length (survivors (decode_point form_1 b.now).object (theirs m.now there.now)) }
{
    let count = record::version_count(b) as usize;
    (0..count)
        .filter(|i| survives(record::version_dot(b, *i), m, there))
        .count()
}

// The local versions that the message's context covers and the message lacks go.
pub fn drop_missed(b: &mut [u8], m: &[u8], there: &[u32])
    requires { (length b.old ≡ 512) × Laid lay_point point_block b.old × (crewed (decode_point form_1 b.old).object.versions ≡ true)
        × (length m.now ≡ 512) × (field m.now 5 1 ≤ 8) × (length there.now ≡ 8) }
    ensures { (point_block b.new ≡ with_versions (point_block b.old) (survivors (decode_point form_1 b.old).object (theirs m.now there.now))) × Laid lay_point point_block b.new }
{
    object::drop_where(b, |b, i| !survives(record::version_dot(b, i), m, there));
}

// The higher of two entries.
fn higher_entry(e: Counter, other: u32) -> Counter
    ensures { result ≡ counter (max e.0 other) }
{
    if e.0 < other {
        return Counter(other);
    }
    e
}

// Merge "takes the higher context entries".
pub fn raise_to(b: &mut [u8], there: &[u32])
    requires { (length b.old ≡ 512) × Laid lay_point point_block b.old × (length there.now ≡ 8) }
    ensures { (point_block b.new ≡ with_context (point_block b.old) (higher (decode_point form_1 b.old).object.context (map counter there.now))) × Laid lay_point point_block b.new }
{
    for i in 0..8 {
        let n = Controller(i + 1);
        let e = record::context_entry(b, n);
        let other = there[i as usize];
        record_edits::set_entry(b, n, higher_entry(e, other));
    }
}

// The message's versions that the local context does not cover come to their places, "ascending by dot".
pub fn put_arriving(b: &mut [u8], m: &[u8], here: &[u32])
    requires { (length b.old ≡ 512) × Laid lay_point point_block b.old × (ascends? version_before (decode_point form_1 b.old).object.versions ≡ true)
        × (length m.now ≡ 512) × Laid lay_point point_block m.now × (crewed (decode_point form_1 m.now).object.versions ≡ true) × (length here.now ≡ 8)
        × (length (decode_point form_1 b.old).object.versions + length (arriving (map counter here.now) (decode_point form_1 m.now).object.versions) ≤ 8) }
    ensures { (point_block b.new ≡ with_versions (point_block b.old) (place_all version_before (arriving (map counter here.now) (decode_point form_1 m.now).object.versions) (decode_point form_1 b.old).object.versions))
        × Laid lay_point point_block b.new }
{
    let count = record::version_count(m) as usize;
    for i in (0..count).rev() {
        if !object::given_covers(here, record::version_dot(m, i)) {
            let at = 40 + 32 * i;
            object::put_version(b, &m[at..at + 32]);
        }
    }
}

// "Merge keeps the versions in both objects and those in one that the other's context does not cover, and takes the higher context entries":
// those that go make room for those that arrive. A version of both objects never goes, and says the same in both.
pub fn merge_in(b: &mut [u8], m: &[u8], here: &[u32], there: &[u32])
    requires { (length b.old ≡ 512) × Laid lay_point point_block b.old × (length m.now ≡ 512) × Laid lay_point point_block m.now × (length here.now ≡ 8) × (length there.now ≡ 8)
        × ((decode_point form_1 b.old).object.context ≡ map counter here.now)
        × (ascends? version_before (decode_point form_1 b.old).object.versions ≡ true) × (crewed (decode_point form_1 b.old).object.versions ≡ true)
        × (ascends? version_before (decode_point form_1 m.now).object.versions ≡ true) × (crewed (decode_point form_1 m.now).object.versions ≡ true)
        × (agreeing (decode_point form_1 b.old).object.versions (decode_point form_1 m.now).object.versions ≡ true)
        × (length (survivors (decode_point form_1 b.old).object (theirs m.now there.now)) + length (arriving (map counter here.now) (decode_point form_1 m.now).object.versions) ≤ 8) }
    ensures { (point_block b.new ≡ with_object (point_block b.old) (merge (decode_point form_1 b.old).object (theirs m.now there.now))) × Laid lay_point point_block b.new }
{
    drop_missed(b, m, there);
    put_arriving(b, m, here);
    raise_to(b, there);
}

// ---- judging, before a byte is written: "A record goes when its stripped context is empty and no version has a value."

// "Strip sets to 0 each entry not above its base": none of the higher entries would be left.
pub fn settled_by(here: &[u32], there: &[u32], rows: &[u8]) -> bool
    requires { (length here.now ≡ 8) × (length there.now ≡ 8) × (length rows.now ≡ 96) }
    ensures { result ≡ is_empty (strip_context (decode_clock rows.now) (higher (map counter here.now) (map counter there.now))) }
{
    (0..8).all(|i| {
        let at = i as usize;
        let e = higher_entry(Counter(here[at]), there[at]);
        e.0 <= parts::row_at(rows, Controller(i + 1)).base
    })
}

// Version i of the local ones has a value and stays.
fn value_stays(b: &[u8], i: usize, m: &[u8], there: &[u32]) -> bool
    requires { (length b.now ≡ 512) × (i < 8) × Crew (decode_slot form_1 (cut b.now (40 + 32 * i) 32)).dot.who × (length m.now ≡ 512) × (field m.now 5 1 ≤ 8) × (length there.now ≡ 8) }
    ensures { result ≡ (has_value (decode_slot form_1 (cut b.now (40 + 32 * i) 32)).contents && (has_dot (decode_point form_1 m.now).object.versions (decode_slot form_1 (cut b.now (40 + 32 * i) 32)).dot || not (covers (map counter there.now) (decode_slot form_1 (cut b.now (40 + 32 * i) 32)).dot))) }
{
    if record::said_length(b, i) == 255 {
        return false;
    }
    survives(record::version_dot(b, i), m, there)
}

// None of the local versions that stay has a value.
pub fn survivors_deleted(b: &[u8], m: &[u8], there: &[u32]) -> bool
    requires { (length b.now ≡ 512) × (field b.now 5 1 ≤ 8) × (crewed (decode_point form_1 b.now).object.versions ≡ true)
        × (length m.now ≡ 512) × (field m.now 5 1 ≤ 8) × (length there.now ≡ 8) }
    ensures { result ≡ not (some? (λ v. has_value v.contents) (survivors (decode_point form_1 b.now).object (theirs m.now there.now))) }
{
    let count = record::version_count(b) as usize;
    !(0..count).any(|i| value_stays(b, i, m, there))
}

// Version i of the message has a value and arrives.
fn value_arrives(m: &[u8], i: usize, here: &[u32]) -> bool
    requires { (length m.now ≡ 512) × (i < 8) × Crew (decode_slot form_1 (cut m.now (40 + 32 * i) 32)).dot.who × (length here.now ≡ 8) }
    ensures { result ≡ (has_value (decode_slot form_1 (cut m.now (40 + 32 * i) 32)).contents && not (covers (map counter here.now) (decode_slot form_1 (cut m.now (40 + 32 * i) 32)).dot)) }
{
    if record::said_length(m, i) == 255 {
        return false;
    }
    !object::given_covers(here, record::version_dot(m, i))
}

// None of the message's versions that arrive has a value.
pub fn arrivals_deleted(m: &[u8], here: &[u32]) -> bool
    requires { (length m.now ≡ 512) × (field m.now 5 1 ≤ 8) × (crewed (decode_point form_1 m.now).object.versions ≡ true) × (length here.now ≡ 8) }
    ensures { result ≡ not (some? (λ v. has_value v.contents) (arriving (map counter here.now) (decode_point form_1 m.now).object.versions)) }
{
    let count = record::version_count(m) as usize;
    !(0..count).any(|i| value_arrives(m, i, here))
}

// The record that a merge would leave would go, stripped by these rows.
pub fn goes_with(b: &[u8], m: &[u8], here: &[u32], there: &[u32], rows: &[u8]) -> bool
    requires { (length b.now ≡ 512) × (field b.now 5 1 ≤ 8) × (length m.now ≡ 512) × (field m.now 5 1 ≤ 8) × (length here.now ≡ 8) × (length there.now ≡ 8) × (length rows.now ≡ 96)
        × (ascends? version_before (decode_point form_1 b.now).object.versions ≡ true) × (crewed (decode_point form_1 b.now).object.versions ≡ true)
        × (ascends? version_before (decode_point form_1 m.now).object.versions ≡ true) × (crewed (decode_point form_1 m.now).object.versions ≡ true)
        × (agreeing (decode_point form_1 b.now).object.versions (decode_point form_1 m.now).object.versions ≡ true) }
    ensures { result ≡ gone (strip (decode_clock rows.now) (merge (ours b.now here.now) (theirs m.now there.now))) }
{
    if !settled_by(here, there, rows) {
        return false;
    }
    if !arrivals_deleted(m, here) {
        return false;
    }
    survivors_deleted(b, m, there)
}

// The same where there is no local record.
pub fn goes_alone(m: &[u8], here: &[u32], there: &[u32], rows: &[u8]) -> bool
    requires { (length m.now ≡ 512) × (field m.now 5 1 ≤ 8) × (crewed (decode_point form_1 m.now).object.versions ≡ true) × (length here.now ≡ 8) × (length there.now ≡ 8) × (length rows.now ≡ 96) }
    ensures { result ≡ gone (strip (decode_clock rows.now) (merge (none_here here.now) (theirs m.now there.now))) }
{
    if !settled_by(here, there, rows) {
        return false;
    }
    arrivals_deleted(m, here)
}
