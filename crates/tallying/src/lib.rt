// The points of a reply, judged on the lent image: rows 12 and 13 of the table. `points` are the reply's blocks behind its head, `clock`
// the sender's rows, with which the reply's objects are filled, and `rows` those that the step will leave.
#![tactic(auto)]

ghost use Rattle.std.specs.Prelude.{◌≡◌, true, ◌≤◌, ◌/◌, length, take};
ghost use Rattle.numbers.specs.Words.{map, ascends?};
ghost use Rattle.refusal.specs.Refusal.{verdict_of};
ghost use Rattle.row.specs.Row.{fits};
ghost use Rattle.meaning.specs.Clock.{every_row};
ghost use Rattle.meaning.specs.State.{stored_before};
ghost use Rattle.layout.specs.PointBlock.{form_1, decode_stored};
ghost use Rattle.layout.specs.Clocks.{decode_clock};
ghost use Rattle.layout.specs.Image.{image_length, decode, good_image};
ghost use Rattle.placing.specs.Placed.{comes};
ghost use Rattle.mending.specs.Mended.{mend, results};
ghost use Rattle.tallying.specs.Tallied.{mark, Ready, AllReady, results_judged, Weighed, AllWeighed};

use refusal::Refusal;

// ---- one point

// What is asked of it: whether it has more than 8 versions in the end, whether it comes to a record or loses its own.
#[derive(Clone, Copy)]
struct Weight {
    many: bool,
    comes: bool,
    goes: bool,
}

fn weigh_with(
    image: &[u8],
    count: usize,
    b: &[u8],
    clock: &[u8],
    rows: &[u8],
    here: &mut [u32],
    there: &mut [u32],
) -> Weight
    requires { (length image.now ≡ image_length) × (good_image image.now ≡ true) × (count ≡ length (decode image.now).points) × (length clock.now ≡ 96) × Ready (decode image.now) (decode_clock clock.now) b.now × (length rows.now ≡ 96)
        × (length here.old ≡ 8) × (length there.old ≡ 8) }
    ensures { Weighed (decode image.now) (decode_clock rows.now) (mend (decode image.now) (decode_clock clock.now) (decode_stored form_1 b.now)) result.many result.comes result.goes }
{
    mending::both_contexts(image, count, b, clock, here, there);
    let many = weighing::too_many(image, count, b, here, there);
    let comes = weighing::needs_place(image, count, b, here, there, rows);
    let goes = weighing::record_goes(image, count, b, here, there, rows);
    Weight {
        many: many,
        comes: comes,
        goes: goes,
    }
}

fn weigh_point(image: &[u8], count: usize, b: &[u8], clock: &[u8], rows: &[u8]) -> Weight
    requires { (length image.now ≡ image_length) × (good_image image.now ≡ true) × (count ≡ length (decode image.now).points) × (length clock.now ≡ 96) × Ready (decode image.now) (decode_clock clock.now) b.now × (length rows.now ≡ 96) }
    ensures { Weighed (decode image.now) (decode_clock rows.now) (mend (decode image.now) (decode_clock clock.now) (decode_stored form_1 b.now)) result.many result.comes result.goes }
{
    let mut here: [u32; 8] = [0; 8];
    let mut there: [u32; 8] = [0; 8];
    weigh_with(image, count, b, clock, rows, &mut here, &mut there)
}

// ---- all of them: 12 and 13

// Whether one has too many versions, how many come to a record and how many lose theirs.
#[derive(Clone, Copy)]
struct Weights {
    many: bool,
    coming: usize,
    going: usize,
}

// 1 for yes, 0 for no: a byte, since docs/CONTRACTS.md names `judge_results`, and its types are not narrowed.
fn as_mark(yes: bool) -> u8
    ensures { result ≡ mark yes }
{
    if yes {
        return 1;
    }
    0
}

// The marks say which points come to a record: 1 where one does, 0 where none does. It is asked before anything is merged, since a point whose record
// has gone looks then as if it had never had one.
fn weigh_all(
    image: &[u8],
    count: usize,
    points: &[u8],
    clock: &[u8],
    rows: &[u8],
    marks: &mut [u8],
) -> Weights
    requires { (length image.now ≡ image_length) × (good_image image.now ≡ true) × (count ≡ length (decode image.now).points) × (length clock.now ≡ 96) × AllReady (decode image.now) (decode_clock clock.now) points.now × (length rows.now ≡ 96)
        × (length points.now / 512 ≤ length marks.old) × (length marks.old ≡ 120) }
    ensures { AllWeighed (decode image.now) (decode_clock rows.now) (results (decode image.now) (decode_clock clock.now) points.now) (length points.now / 512) result.many result.coming result.going marks.new
        × (length marks.new ≡ 120) }
{
    let mut many = false;
    let mut coming: usize = 0;
    let mut going: usize = 0;
    for (i, b) in points.chunks_exact(512).enumerate() {
        let w = weigh_point(image, count, b, clock, rows);
        many = many | w.many;
        let comes = as_mark(w.comes);
        let goes = as_mark(w.goes);
        marks[i] = comes;
        coming += comes as usize;
        going += goes as usize;
    }
    Weights {
        many: many,
        coming: coming,
        going: going,
    }
}

// Row 12 first, then 13: the records there are, those that come and less those that go, are more than 64.
pub fn judge_results(
    image: &[u8],
    count: usize,
    points: &[u8],
    clock: &[u8],
    rows: &[u8],
    marks: &mut [u8],
) -> Result<(), Refusal>
    requires { (length image.now ≡ image_length) × (good_image image.now ≡ true) × (count ≡ length (decode image.now).points) × (length clock.now ≡ 96) × AllReady (decode image.now) (decode_clock clock.now) points.now × (length rows.now ≡ 96)
        × (length points.now / 512 ≤ length marks.old) × (length marks.old ≡ 120)
        × (ascends? stored_before (results (decode image.now) (decode_clock clock.now) points.now) ≡ true) × (every_row fits (decode_clock rows.now) ≡ true) }
    ensures { (result ≡ verdict_of (results_judged (decode image.now) (decode_clock rows.now) (results (decode image.now) (decode_clock clock.now) points.now) true))
        × (take (length points.now / 512) marks.new ≡ map (λ q. mark (comes (decode_clock rows.now) (decode image.now).points q)) (results (decode image.now) (decode_clock clock.now) points.now))
        × (length marks.new ≡ 120) }
{
    let w = weigh_all(image, count, points, clock, rows, marks);
    let many = w.many;
    let coming = w.coming;
    let going = w.going;
    if many {
        return Err(Refusal::TooManyVersions);
    }
    if 64 + going < count + coming {
        return Err(Refusal::TooManyPoints);
    }
    Ok(())
}
