// The points of a reply, merged in place one after the other. `points` are the reply's blocks behind its head, `clock`
// the sender's rows, with which the reply's objects are filled, and `rows` those that the step will leave.
#![tactic(auto)]

ghost use Rattle.std.specs.Prelude.{◌≡◌, true, ◌/◌, ◌≤◌, length, take, eqb, if◌then◌else◌};
ghost use Rattle.numbers.specs.Words.{map, ascends?, fold};
ghost use Rattle.numbers.specs.Numbers.{counter};
ghost use Rattle.block.specs.Block.{Laid};
ghost use Rattle.meaning.specs.State.{stored_before, local};
ghost use Rattle.meaning.specs.Settle.{most_points, put};
ghost use Rattle.layout.specs.PointBlock.{form_1, decode_stored};
ghost use Rattle.layout.specs.Clocks.{decode_clock};
ghost use Rattle.layout.specs.Image.{image_length, decode};
ghost use Rattle.record_edits.specs.Written.{lay_point, point_block};
ghost use Rattle.image_edits.specs.Edits.{Canonical, with_points};
ghost use Rattle.weighing.specs.Weighed.{key_in};
ghost use Rattle.mending.specs.Mended.{filled, mend, results, Joinable, AllJoinable, marked, RoomFor};

// ---- one point

// The two contexts of its merge: the local one, filled with our clock, and the reply's, filled with the sender's.
pub fn both_contexts(
    image: &[u8],
    count: usize,
    b: &[u8],
    clock: &[u8],
    here: &mut [u32],
    there: &mut [u32],
)
    requires { (length image.now ≡ image_length) × Canonical image.now × (count ≡ length (decode image.now).points) × (ascends? stored_before (decode image.now).points ≡ true)
        × (length b.now ≡ 512) × (length clock.now ≡ 96) × (length here.old ≡ 8) × (length there.old ≡ 8) }
    ensures { (length here.new ≡ 8) × (map counter here.new ≡ (local (decode image.now) (key_in b.now)).context)
        × (length there.new ≡ 8) × (map counter there.new ≡ (filled (decode image.now) (decode_clock clock.now) (decode_stored form_1 b.now)).context) }
{
    let k = record::key_of(b);
    let job = k.job;
    weighing::local_context(image, count, k, here);
    merging::filled_context(&b[8..40], job, &image[8..16], clock, there);
}

// Merged, and put where it belongs, with both contexts written beside it.
fn merge_with(
    image: &mut [u8],
    count: usize,
    b: &[u8],
    clock: &[u8],
    rows: &[u8],
    here: &mut [u32],
    there: &mut [u32],
)
    requires { (length image.old ≡ image_length) × Canonical image.old × (count ≡ length (decode image.old).points) × (ascends? stored_before (decode image.old).points ≡ true)
        × (length b.now ≡ 512) × Laid lay_point point_block b.now × (length clock.now ≡ 96) × (length rows.now ≡ 96) × (length here.old ≡ 8) × (length there.old ≡ 8)
        × Joinable (decode image.old) (decode_clock clock.now) b.now
        × (length (put (decode_clock rows.now) (decode image.old).points (mend (decode image.old) (decode_clock clock.now) (decode_stored form_1 b.now))) ≤ most_points) }
    ensures { (decode image.new ≡ with_points (decode image.old) (put (decode_clock rows.now) (decode image.old).points (mend (decode image.old) (decode_clock clock.now) (decode_stored form_1 b.now))))
        × Canonical image.new }
{
    both_contexts(image, count, b, clock, here, there);
    joining::put_merged(image, count, b, here, there, rows);
}

// With the contexts' places made.
fn merge_point(image: &mut [u8], b: &[u8], clock: &[u8], rows: &[u8])
    requires { (length image.old ≡ image_length) × Canonical image.old × (ascends? stored_before (decode image.old).points ≡ true)
        × (length b.now ≡ 512) × Laid lay_point point_block b.now × (length clock.now ≡ 96) × (length rows.now ≡ 96) × Joinable (decode image.old) (decode_clock clock.now) b.now
        × (length (put (decode_clock rows.now) (decode image.old).points (mend (decode image.old) (decode_clock clock.now) (decode_stored form_1 b.now))) ≤ most_points) }
    ensures { (decode image.new ≡ with_points (decode image.old) (put (decode_clock rows.now) (decode image.old).points (mend (decode image.old) (decode_clock clock.now) (decode_stored form_1 b.now))))
        × Canonical image.new }
{
    let count = image::stored_count(image);
    let mut here: [u32; 8] = [0; 8];
    let mut there: [u32; 8] = [0; 8];
    merge_with(image, count, b, clock, rows, &mut here, &mut there);
}

// In the pass that its mark names, and in no other: so room is needed in that pass only.
fn merge_if(image: &mut [u8], b: &[u8], clock: &[u8], rows: &[u8], mark: u8, which: u8)
    requires { (length image.old ≡ image_length) × Canonical image.old × (ascends? stored_before (decode image.old).points ≡ true)
        × (length b.now ≡ 512) × Laid lay_point point_block b.now × (length clock.now ≡ 96) × (length rows.now ≡ 96) × (eqb mark which ≡ true → Joinable (decode image.old) (decode_clock clock.now) b.now)
        × (eqb mark which ≡ true → length (put (decode_clock rows.now) (decode image.old).points (mend (decode image.old) (decode_clock clock.now) (decode_stored form_1 b.now))) ≤ most_points) }
    ensures { (decode image.new ≡ (if eqb mark which then with_points (decode image.old) (put (decode_clock rows.now) (decode image.old).points (mend (decode image.old) (decode_clock clock.now) (decode_stored form_1 b.now))) else decode image.old))
        × Canonical image.new }
{
    if mark == which {
        merge_point(image, b, clock, rows);
    }
}

// ---- one pass

// A mark and the number of a pass are bytes, not truth values: docs/CONTRACTS.md names this function, and its types are not narrowed.
//
// Those whose mark is `which`, in the order in which they stand. With those first that need no new place, there is room for each.
pub fn merge_marked(
    image: &mut [u8],
    points: &[u8],
    clock: &[u8],
    rows: &[u8],
    marks: &[u8],
    which: u8,
)
    requires { (length image.old ≡ image_length) × Canonical image.old × (ascends? stored_before (decode image.old).points ≡ true)
        × (length clock.now ≡ 96) × (length rows.now ≡ 96) × AllJoinable (decode image.old) (decode_clock clock.now) which points.now marks.now
        × (ascends? stored_before (results (decode image.old) (decode_clock clock.now) points.now) ≡ true) × (length points.now / 512 ≤ length marks.now)
        × RoomFor (decode_clock rows.now) (decode image.old) (decode_clock clock.now) which points.now marks.now }
    ensures { (decode image.new ≡ with_points (decode image.old) (fold (put (decode_clock rows.now)) (decode image.old).points (marked which (take (length points.now / 512) marks.now) (results (decode image.old) (decode_clock clock.now) points.now))))
        × Canonical image.new }
{
    for (b, mark) in points.chunks_exact(512).zip(marks) {
        merge_if(image, b, clock, rows, *mark, which);
    }
}
