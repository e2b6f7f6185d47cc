// A write and a delete: judged on the lent image, then made: the message, the clock, the list, the record.
#![tactic(auto)]

ghost use Rattle.std.specs.Prelude.{[], ◌∷◌, ◌≡◌, Bool, true, false, ◌&&◌, ◌≤◌, ◌<◌, length, leb, Ok};
ghost use Rattle.numbers.specs.Words.{map};
ghost use Rattle.numbers.specs.Numbers.{counter, last_counter};
ghost use Rattle.block.specs.Fields.{field};
ghost use Rattle.block.specs.Block.{Laid};
ghost use Rattle.meaning.specs.CrewTable.{holds};
ghost use Rattle.meaning.specs.Message.{most_versions, contents_formed};
ghost use Rattle.meaning.specs.Object.{has_value};
ghost use Rattle.meaning.specs.State.{own_base, look_up};
ghost use Rattle.meaning.specs.Settle.{most_points, most_listed, put, settled};
ghost use Rattle.meaning.specs.OwnSteps.{ours, next_dot, written, put_down, write, delete};
ghost use Rattle.layout.specs.PointBlock.{form_1, encode_slot, decode_slot, decode_point, decode_stored};
ghost use Rattle.layout.specs.Image.{image_length, encode, decode, good_image};
ghost use Rattle.layout.specs.Messages.{encode_outgoing};
ghost use Rattle.layout.specs.Calls.{afterwards};
ghost use Rattle.record.specs.Crewed.{crewed};
ghost use Rattle.record_edits.specs.Said.{contents_of};
ghost use Rattle.record_edits.specs.Written.{lay_point, point_block};
ghost use Rattle.refusal.specs.Refusal.{verdict_of};
ghost use Rattle.store.specs.HasRecord.{has_record};
ghost use Rattle.writing.specs.Judged.{staying, own_judged, judged};
ghost use Rattle.writing.specs.LeftBy.{left_by};
ghost use Rattle.writing.specs.Recorded.{next_clock, recorded};

use block::Kind;
use dots::DotList;
use numbers::{Counter, Dot, Key};
use refusal::Refusal;
use row::Row;

// The base of the own row.
fn own_base(image: &[u8]) -> u32
    requires { (length image.now ≡ image_length) × (good_image image.now ≡ true) }
    ensures { result ≡ own_base (decode image.now) }
{
    let own = head::own_of(&image[0..512]);
    let r = parts::row_at(&image[16..112], own);
    r.base
}

// "Write, delete: the dot is the own number with own base + 1."
fn next_dot(image: &[u8]) -> Dot
    requires { (length image.now ≡ image_length) × (good_image image.now ≡ true) × (own_base (decode image.now) < last_counter) }
    ensures { result ≡ next_dot (decode image.now) }
{
    Dot {
        who: head::own_of(&image[0..512]),
        count: Counter(own_base(image) + 1),
    }
}

// ---- judging, on the lent image alone

// 14: "60 own dots listed already". 15: "own base is 4,294,967,295".
fn judge_own(image: &[u8]) -> Result<(), Refusal>
    requires { (length image.now ≡ image_length) × (good_image image.now ≡ true) }
    ensures { result ≡ verdict_of (own_judged (decode image.now) true) }
{
    if 60 <= dots::entry_count(&image[512..1024]) {
        return Err(Refusal::OwnListFull);
    }
    if 4294967295 <= own_base(image) {
        return Err(Refusal::CountersUsedUp);
    }
    Ok(())
}

// The point has the record b: 8 by its context, 12 by the versions that stay. It has its place, so 13 never applies.
fn judge_record(image: &[u8], b: &[u8], context: &[u32]) -> Result<(), Refusal>
    requires { (length image.now ≡ image_length) × (good_image image.now ≡ true) × (length b.now ≡ 512) × (field b.now 5 1 ≤ 8) × (crewed (decode_point form_1 b.now).object.versions ≡ true) × (length context.now ≡ 8)
        × (has_record (decode_point form_1 b.now).key (decode image.now).points ≡ true) × (look_up (decode_point form_1 b.now).key (decode image.now).points ≡ (decode_point form_1 b.now).object) }
    ensures { (valued : Bool) → result ≡ verdict_of (judged (decode image.now) (decode_point form_1 b.now).key valued (map counter context.now) true) }
{
    if object::ahead(
        &b[8..40],
        block::u8_at(b, 4),
        &image[8..16],
        &image[16..112],
        context,
    ) {
        return Err(Refusal::ContextAhead);
    }
    if 8 <= object::staying(b, context) {
        return Err(Refusal::TooManyVersions);
    }
    judge_own(image)
}

// A value needs a place, and all are taken.
fn no_place(count: usize, valued: bool) -> bool
    ensures { result ≡ (valued && leb most_points count) }
{
    if !valued {
        return false;
    }
    64 <= count
}

// The point has no record: 8 by an empty context; no version stays, so 12 never applies; 13 where a value needs a place.
fn judge_new(
    image: &[u8],
    count: usize,
    k: Key,
    valued: bool,
    context: &[u32],
) -> Result<(), Refusal>
    requires { (length image.now ≡ image_length) × (good_image image.now ≡ true) × (count ≡ length (decode image.now).points) × (length context.now ≡ 8) × (has_record k (decode image.now).points ≡ false) }
    ensures { result ≡ verdict_of (judged (decode image.now) k valued (map counter context.now) true) }
{
    let none: [u8; 32] = [0; 32];
    if object::ahead(&none, k.job, &image[8..16], &image[16..112], context) {
        return Err(Refusal::ContextAhead);
    }
    if no_place(count, valued) {
        return Err(Refusal::TooManyPoints);
    }
    judge_own(image)
}

// The first refusal from 8 on that applies to writing a value, or to deleting, at k with this context.
fn judge(image: &[u8], k: Key, valued: bool, context: &[u32]) -> Result<(), Refusal>
    requires { (length image.now ≡ image_length) × (good_image image.now ≡ true) × (length context.now ≡ 8) }
    ensures { result ≡ verdict_of (judged (decode image.now) k valued (map counter context.now) true) }
{
    let count = image::stored_count(image);
    match image::find_point(image, count, k) {
        Ok(i) => {
            let at = 512 * (3 + i);
            judge_record(image, &image[at..at + 512], context)
        }
        Err(_) => judge_new(image, count, k, valued, context),
    }
}

// ---- making it

// "From the filled local object drop the versions that the given context covers; add the new version; raise the own context entry to the new
// counter." "This filled object is the outgoing message." The new version stands in slot, and d is its dot.
fn write_message(image: &[u8], k: Key, d: Dot, slot: &[u8], context: &[u32], out: &mut [u8])
    requires { (length image.now ≡ image_length) × (good_image image.now ≡ true) × (holds (decode image.now).table (decode image.now).own k.job ≡ true) × (d ≡ next_dot (decode image.now))
        × (length slot.now ≡ 32) × (encode_slot form_1 (decode_slot form_1 slot.now) ≡ slot.now) × ((decode_slot form_1 slot.now).dot ≡ d)
        × (length context.now ≡ 8) × (length (staying (decode image.now) k (map counter context.now)) < most_versions) × (length out.old ≡ 512) }
    ensures { out.new ≡ encode_outgoing (record { sender = (decode image.now).own; key = k; object = written (decode image.now) k (decode_slot form_1 slot.now).contents (map counter context.now) }) }
{
    let count = image::stored_count(image);
    image_edits::fetch(image, count, k, Kind::Outgoing, d.who, out);
    object::fill_in(out, &image[8..16], &image[16..112]);
    object::drop_covered(out, context);
    object::put_version(out, slot);
    record_edits::set_entry(out, d.who, d.count);
    block::seal_block(out);
}

// The write whose message stands in b is recorded: the own row counts its dot, the own list has it, and its point has its place.
fn keep_written(image: &mut [u8], d: Dot, b: &[u8])
    requires { (length image.old ≡ image_length) × (good_image image.old ≡ true) × (d ≡ next_dot (decode image.old)) × (length (decode image.old).own_dots < most_listed) × (length b.now ≡ 512) × Laid lay_point point_block b.now
        × (length (put (next_clock (decode image.old)) (decode image.old).points (decode_stored form_1 b.now)) ≤ most_points) }
    ensures { image.new ≡ encode (recorded (decode image.old) (decode_stored form_1 b.now)) }
{
    image_edits::set_row(
        image,
        d.who,
        Row {
            base: d.count.0,
            bits: 0,
        },
    );
    let listed = dots::entry_count(&image[512..1024]) as usize;
    image_edits::insert_dot(image, DotList::Own, listed, d, record::key_of(b));
    let mut rows: [u8; 96] = [0; 96];
    block::copy_in(&mut rows, 0, &image[16..112]);
    let count = image::stored_count(image);
    store::put_result(image, count, b, &rows);
}

// A write or a delete that was judged, with its version in slot and d as its dot: the message, and then the image that records it.
fn put_down(image: &mut [u8], k: Key, d: Dot, slot: &[u8], context: &[u32], out: &mut [u8])
    requires { (length image.old ≡ image_length) × (good_image image.old ≡ true) × (ours (decode image.old) k ≡ true) × (d ≡ next_dot (decode image.old))
        × (length slot.now ≡ 32) × (encode_slot form_1 (decode_slot form_1 slot.now) ≡ slot.now) × ((decode_slot form_1 slot.now).dot ≡ d) × (contents_formed (decode_slot form_1 slot.now).contents ≡ true)
        × (length context.now ≡ 8) × (verdict_of (judged (decode image.old) k (has_value (decode_slot form_1 slot.now).contents) (map counter context.now) true) ≡ Ok tt) × (length out.old ≡ 512) }
    ensures { (image.new ≡ encode (settled (decode image.old) (decode image.old).clock (record { key = k; object = written (decode image.old) k (decode_slot form_1 slot.now).contents (map counter context.now) } ∷ [])))
        × (out.new ≡ encode_outgoing (record { sender = (decode image.old).own; key = k; object = written (decode image.old) k (decode_slot form_1 slot.now).contents (map counter context.now) })) }
{
    write_message(image, k, d, slot, context, out);
    keep_written(image, d, out);
}

// A value or a deletion that was judged.
fn put_said(image: &mut [u8], k: Key, said: Option<&[u8]>, context: &[u32], out: &mut [u8])
    requires { (length image.old ≡ image_length) × (good_image image.old ≡ true) × (ours (decode image.old) k ≡ true) × (contents_formed (contents_of said) ≡ true)
        × (length context.now ≡ 8) × (verdict_of (judged (decode image.old) k (has_value (contents_of said)) (map counter context.now) true) ≡ Ok tt) × (length out.old ≡ 512) }
    ensures { (image.new ≡ encode (settled (decode image.old) (decode image.old).clock (record { key = k; object = written (decode image.old) k (contents_of said.entry) (map counter context.now) } ∷ [])))
        × (out.new ≡ encode_outgoing (record { sender = (decode image.old).own; key = k; object = written (decode image.old) k (contents_of said.entry) (map counter context.now) })) }
{
    let d = next_dot(image);
    let mut slot: [u8; 32] = [0; 32];
    record_edits::make_slot(&mut slot, d, said);
    put_down(image, k, d, &slot, context, out);
}

// What a write and a delete have in common: the first refusal from 8 on, or the value or the deletion is put down.
fn write_or_delete(
    image: &mut [u8],
    k: Key,
    said: Option<&[u8]>,
    context: &[u32],
    out: &mut [u8],
) -> Result<(), Refusal>
    requires { (length image.old ≡ image_length) × (good_image image.old ≡ true) × (ours (decode image.old) k ≡ true) × (contents_formed (contents_of said) ≡ true) × (length context.now ≡ 8) × (length out.old ≡ 512) }
    ensures { (result ≡ (afterwards image.old out.old (left_by (put_down (decode image.old) k (contents_of said.entry) (map counter context.now)))).verdict)
        × (image.new ≡ (afterwards image.old out.old (left_by (put_down (decode image.old) k (contents_of said.entry) (map counter context.now)))).image)
        × (out.new ≡ (afterwards image.old out.old (left_by (put_down (decode image.old) k (contents_of said.entry) (map counter context.now)))).out) }
{
    judge(image, k, said.is_some(), context)?;
    put_said(image, k, said, context, out);
    Ok(())
}

// ---- the steps, on a good image and a point that is ours

// Write: 7, then what a write and a delete have in common.
pub fn write_at(
    image: &mut [u8],
    k: Key,
    said: &[u8],
    context: &[u32],
    out: &mut [u8],
) -> Result<(), Refusal>
    requires { (length image.old ≡ image_length) × (good_image image.old ≡ true) × (ours (decode image.old) k ≡ true) × (length context.now ≡ 8) × (length out.old ≡ 512) }
    ensures { (result ≡ (afterwards image.old out.old (left_by (write (decode image.old) k said.now (map counter context.now)))).verdict)
        × (image.new ≡ (afterwards image.old out.old (left_by (write (decode image.old) k said.now (map counter context.now)))).image)
        × (out.new ≡ (afterwards image.old out.old (left_by (write (decode image.old) k said.now (map counter context.now)))).out) }
{
    if 24 < said.len() {
        return Err(Refusal::ValueTooLong);
    }
    write_or_delete(image, k, Some(said), context, out)
}

// Delete: what a write and a delete have in common.
pub fn delete_at(image: &mut [u8], k: Key, context: &[u32], out: &mut [u8]) -> Result<(), Refusal>
    requires { (length image.old ≡ image_length) × (good_image image.old ≡ true) × (ours (decode image.old) k ≡ true) × (length context.now ≡ 8) × (length out.old ≡ 512) }
    ensures { (result ≡ (afterwards image.old out.old (left_by (delete (decode image.old) k (map counter context.now)))).verdict)
        × (image.new ≡ (afterwards image.old out.old (left_by (delete (decode image.old) k (map counter context.now)))).image)
        × (out.new ≡ (afterwards image.old out.old (left_by (delete (decode image.old) k (map counter context.now)))).out) }
{
    write_or_delete(image, k, None, context, out)
}
