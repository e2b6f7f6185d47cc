// A message's point joined to a canonical image in place. The two contexts of the merge stand beside it as eight counters each: `here` is the local
// one, filled, and `there` the message's.
#![tactic(auto)]

ghost use Rattle.std.specs.Prelude.{◌≡◌, true, [], ◌≤◌, ◌<◌, length, get_or};
ghost use Rattle.numbers.specs.Words.{map, ascends?};
ghost use Rattle.numbers.specs.Numbers.{counter};
ghost use Rattle.block.specs.Fields.{put_at, insert_at};
ghost use Rattle.block.specs.Block.{Laid};
ghost use Rattle.meaning.specs.Context.{higher};
ghost use Rattle.meaning.specs.Object.{merge};
ghost use Rattle.meaning.specs.State.{stored_before, local};
ghost use Rattle.meaning.specs.Settle.{most_points, stripped, put};
ghost use Rattle.layout.specs.PointBlock.{form_1, decode_point};
ghost use Rattle.layout.specs.Clocks.{decode_clock};
ghost use Rattle.layout.specs.Image.{image_length, decode};
ghost use Rattle.record_edits.specs.Written.{lay_point, point_block, with_object};
ghost use Rattle.image.specs.Places.{no_point};
ghost use Rattle.image_edits.specs.Edits.{Canonical, with_points};
ghost use Rattle.store.specs.Restored.{restored};
ghost use Rattle.merging.specs.Merging.{ours, theirs};
ghost use Rattle.weighing.specs.Weighed.{key_in, result_of};
ghost use Rattle.joining.specs.Joined.{Mergeable, merged_with, empty_record, with_clock};

use numbers::Controller;

// ---- making it

// The point of b, its context raised to the filled one, merged with the message's.
fn merge_block(b: &mut [u8], m: &[u8], here: &[u32], there: &[u32])
    requires { (length b.old ≡ 512) × Laid lay_point point_block b.old × (length m.now ≡ 512) × Laid lay_point point_block m.now × (length here.now ≡ 8) × (length there.now ≡ 8)
        × (higher (decode_point form_1 b.old).object.context (map counter here.now) ≡ map counter here.now) × Mergeable (decode_point form_1 b.old).object.versions m.now here.now there.now }
    ensures { (point_block b.new ≡ with_object (point_block b.old) (merge (ours b.old here.now) (theirs m.now there.now))) × Laid lay_point point_block b.new }
{
    merging::raise_to(b, here);
    merging::merge_in(b, m, here, there);
}

// The i-th record, merged with the message's point.
fn merge_at(image: &mut [u8], i: usize, m: &[u8], here: &[u32], there: &[u32])
    requires { (length image.old ≡ image_length) × Canonical image.old × (i < length (decode image.old).points) × (length m.now ≡ 512) × Laid lay_point point_block m.now × (length here.now ≡ 8) × (length there.now ≡ 8)
        × (higher (get_or (decode image.old).points i no_point).object.context (map counter here.now) ≡ map counter here.now)
        × Mergeable (get_or (decode image.old).points i no_point).object.versions m.now here.now there.now }
    ensures { (decode image.new ≡ with_points (decode image.old) (put_at (decode image.old).points i (merged_with (get_or (decode image.old).points i no_point) m.now here.now there.now)))
        × Canonical image.new }
{
    let at = 512 * (3 + i);
    merge_block(&mut image[at..at + 512], m, here, there);
    block::seal_block(&mut image[at..at + 512]);
}

// The i-th record merged, stripped by the new rows, and gone where nothing needs it any more.
fn merge_stored(
    image: &mut [u8],
    count: usize,
    i: usize,
    m: &[u8],
    here: &[u32],
    there: &[u32],
    rows: &[u8],
)
    requires { (length image.old ≡ image_length) × Canonical image.old × (count ≡ length (decode image.old).points) × (i < count) × (length m.now ≡ 512) × Laid lay_point point_block m.now × (length here.now ≡ 8) × (length there.now ≡ 8)
        × (higher (get_or (decode image.old).points i no_point).object.context (map counter here.now) ≡ map counter here.now)
        × (length rows.now ≡ 96) × Mergeable (get_or (decode image.old).points i no_point).object.versions m.now here.now there.now }
    ensures { (decode image.new ≡ with_points (decode image.old) (restored (decode_clock rows.now) (put_at (decode image.old).points i (merged_with (get_or (decode image.old).points i no_point) m.now here.now there.now)) i))
        × Canonical image.new }
{
    merge_at(image, i, m, here, there);
    store::strip_at(image, count, i, rows);
}

// A place for the message's point before the i-th, and what it brings there, stripped by the new rows.
fn merge_new(
    image: &mut [u8],
    count: usize,
    i: usize,
    m: &[u8],
    here: &[u32],
    there: &[u32],
    rows: &[u8],
)
    requires { (length image.old ≡ image_length) × Canonical image.old × (count ≡ length (decode image.old).points) × (i ≤ count) × (count < 64) × (length m.now ≡ 512) × Laid lay_point point_block m.now × (length here.now ≡ 8) × (length there.now ≡ 8)
        × (length rows.now ≡ 96) × Mergeable [] m.now here.now there.now }
    ensures { (decode image.new ≡ with_points (decode image.old) (insert_at (decode image.old).points i (stripped (decode_clock rows.now) (merged_with (empty_record m.now) m.now here.now there.now))))
        × Canonical image.new }
{
    image_edits::open_place(image, count, i, record::key_of(m));
    merge_at(image, i, m, here, there);
    store::strip_record(image, i, rows);
}

// "Take in: fill the local object, merge with the message's": the result takes its record's place, stripped by the new rows, or its record goes

// where nothing needs it. Where there is no record and none is needed, nothing is written: there may be no place left.
pub fn put_merged(
    image: &mut [u8],
    count: usize,
    m: &[u8],
    here: &[u32],
    there: &[u32],
    rows: &[u8],
)
    requires { (length image.old ≡ image_length) × Canonical image.old × (count ≡ length (decode image.old).points) × (ascends? stored_before (decode image.old).points ≡ true)
        × (length m.now ≡ 512) × Laid lay_point point_block m.now × (length here.now ≡ 8) × (length there.now ≡ 8) × (length rows.now ≡ 96)
        × (map counter here.now ≡ (local (decode image.old) (key_in m.now)).context) × Mergeable (local (decode image.old) (key_in m.now)).versions m.now here.now there.now
        × (length (put (decode_clock rows.now) (decode image.old).points (result_of (decode image.old) m.now there.now)) ≤ most_points) }
    ensures { (decode image.new ≡ with_points (decode image.old) (put (decode_clock rows.now) (decode image.old).points (result_of (decode image.old) m.now there.now))) × Canonical image.new }
{
    match image::find_point(image, count, record::key_of(m)) {
        Ok(i) => merge_stored(image, count, i, m, here, there, rows),
        Err(i) => {
            if !merging::goes_alone(m, here, there, rows) {
                merge_new(image, count, i, m, here, there, rows);
            }
        }
    }
}

// The eight rows.
pub fn set_rows(image: &mut [u8], rows: &[u8])
    requires { (length image.old ≡ image_length) × Canonical image.old × (length rows.now ≡ 96) }
    ensures { (decode image.new ≡ with_clock (decode image.old) (decode_clock rows.now)) × Canonical image.new }
{
    for n in 1..9 {
        image_edits::set_row(image, Controller(n), parts::row_at(rows, Controller(n)));
    }
}
